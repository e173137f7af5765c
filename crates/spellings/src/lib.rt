//! The spellings of a script: lines, words, numbers, times and names, as bytes.
#![tactic(auto)]

mod cut;
pub mod lines;
pub mod names;
pub mod numbers;
#[cfg(test)]
mod tests;

pub use lines::{is_content, line_at, word_in, words_in};
pub use names::{is_name, name_text};
pub use numbers::{plain, plain_number, tick, whole_number};
