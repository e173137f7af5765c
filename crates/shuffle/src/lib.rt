//! The shuffles of two words, and the law on the dual of right-normed bracketing that the Dynkin theorem rests on.
#![tactic(auto)]

pub mod laws;
pub mod merge;
#[cfg(test)]
mod tests;

pub use merge::shuffles;
