//! The words of a command line, and what they wish.
#![tactic(auto)]

mod gathered;
pub mod laws;
mod read;
mod setting;
#[cfg(test)]
mod tests;
mod values;
pub mod wish;

pub use read::read_words;
pub use setting::MOST_COMMANDS;
pub use values::MOST_SESSION;
pub use wish::{Form, OrderList, Wish};
