//! Signatures of lists of moves, exact, with their weight: extended by a row in place, and multiplied.
#![tactic(auto)]

mod concatenate;
mod exponent;
mod extend;
pub mod fault;
pub mod laws;
pub mod multiply;
pub mod sig;
#[cfg(test)]
mod tests;

pub use fault::ProductFault;
pub use multiply::join_level;
pub use sig::{Overflow, Sig, exp_move, exp_row, extend_row, fitting, multiply_in, product};
