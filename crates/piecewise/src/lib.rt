//! From the log-signatures of the parts of a partition to the signature of the whole.
#![tactic(auto)]

pub mod fault;
pub mod laws;
mod levels;
pub mod part;
pub mod product;
#[cfg(test)]
mod tests;
mod unfolding;

pub use fault::{UnfoldFault, WholeFault};
pub use part::unfold;
pub use product::whole;
