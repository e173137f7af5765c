//! Scripts: what they are, and how they are read from bytes.
#![tactic(auto)]

pub mod command;
mod coordinates;
pub mod fault;
mod form;
mod keyword;
pub mod lines;
mod reader;
mod said;
pub mod script;
mod tally;

pub use command::{Ask, Command, Commands, Kind};
pub use fault::{Reason, ScriptFault};
pub use increments::Name;
pub use reader::read_script;
pub use script::Script;
pub use versions::Edit;
pub use watches::Interval;

#[cfg(test)]
mod tests;
