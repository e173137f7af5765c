//! The signatures of nodes that were used most recently, each for the versions from one on.
#![tactic(auto)]

pub mod cache;
#[cfg(test)]
mod tests;

pub use cache::NodeCache;
