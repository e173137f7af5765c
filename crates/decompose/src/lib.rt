//! The dyadic pieces of an interval of time.
#![tactic(auto)]

pub mod laws;
pub mod rounding;
#[cfg(test)]
mod tests;
pub mod walk;

pub use rounding::round;
pub use walk::pieces;
