//! The text that a run writes, the same in JSON, the text of a product of exponentials, the script that a number generates, and the summary of its run.
#![tactic(auto)]

pub mod cbh;
mod coordinates;
mod decimals;
mod generator;
mod json_levels;
mod json_text;
mod json_watches;
pub mod laws;
mod levels;
mod member_texts;
mod names;
mod summary;
#[cfg(test)]
mod tests;
mod text;
mod texts;
mod watched;
mod word_texts;

pub use cbh::{CbhResult, cbh_text};
pub use generator::gen_script;
pub use json_text::json_of;
pub use summary::summary_of;
pub use text::text_of;
