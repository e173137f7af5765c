//! Dyadic intervals of the line of time.
#![tactic(auto)]

pub mod laws;
pub mod node;
#[cfg(test)]
mod tests;

pub use node::Node;
