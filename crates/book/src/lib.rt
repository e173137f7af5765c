//! The book of a stream: its edits, looks and settles, one after another, over one cache of nodes.
#![tactic(auto)]

pub mod book;
mod edit_step;
mod expiry;
mod hits;
mod keeping;
pub mod laws;
pub mod look;
mod look_step;
mod missed;
pub mod pending;
pub mod planning;
pub mod query;
mod settle_step;
pub mod step;
#[cfg(test)]
mod tests;
mod walk;

pub use book::Book;
pub use look::Look;
pub use query::{Allowed, Query};
pub use script_reader::Kind;
pub use step::{LookReply, Step};
pub use versions::{Accepted, EditReply};
