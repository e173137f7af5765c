//! Watches of intervals: which versions of a stream touch each of them.
//!
//! A version that isn't in a watch's list has the interval's rows of the version before.
#![tactic(auto)]

pub mod fault;
pub mod interval;
pub mod laws;
mod lists;
mod spans;
#[cfg(test)]
mod tests;
pub mod watches;

pub use fault::FeedFault;
pub use interval::Interval;
pub use watches::Watches;
