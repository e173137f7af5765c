//! The rows of a stream at each of its versions, in one binary tree that keeps its past.
//!
//! A row stands at its key: its tick, and below it its birth. The tree forks only where keys part, so with n edits
//! a path has about as many nodes as n has binary digits, and 64 at most. It is never changed in place: an edit makes the nodes of one path anew,
//! and shares the others. What lies in an interval of time at any version, and the last version that touched it, takes the steps of two paths;
//! from a dyadic node to its half it is one step.
#![tactic(auto)]

pub mod laws;
pub mod node_view;
pub mod rows_view;
pub mod span;
#[cfg(test)]
mod tests;
pub mod timeline;
pub mod tree;
mod view;

pub use node_view::NodeView;
pub use rows_view::RowsView;
pub use timeline::Timeline;
pub use view::Totals;
