//! The edits of a stream, and its rows at each version.
//!
//! A version is the number of edits that were accepted before it. An accepted edit makes the next version, and no earlier one changes.
#![tactic(auto)]

pub mod edit;
pub mod laws;
pub mod log;
pub mod log_node;
mod record;
mod replay;
pub mod stream;
#[cfg(test)]
mod tests;

pub use edit::{Edit, EditReply};
pub use log::{Accepted, EditLog};
pub use log_node::LogNode;
pub use stream::Stream;
pub use timeline::RowsView;
