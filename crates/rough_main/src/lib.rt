//! The top call: from the words of the command line and the bytes of a source to a status and the bytes of a sink.
#![tactic(auto)]

#[cfg(test)]
mod cases;
mod elements;
mod fault_text;
#[cfg(test)]
mod limit_tests;
mod reply;
#[cfg(test)]
mod size_cases;
#[cfg(test)]
mod size_tests;
pub mod status;
#[cfg(test)]
mod tests;
#[cfg(test)]
mod thread_tests;
pub mod top;

pub use command_line::read_words;
pub use session::{Gate, Through};
pub use status::Status;
pub use top::{rough, rough_plain};
