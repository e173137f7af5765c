//! Linear functionals of signatures, and their shuffle product.
#![tactic(auto)]

mod bound;
mod collecting;
pub mod fault;
pub mod functional;
pub mod laws;
pub mod product;
mod shuffling;
pub mod term;
pub mod value;

pub use fault::{FunctionalFault, ShuffleFault};
pub use functional::Functional;
pub use product::shuffle_product;
pub use term::WordTerm;
pub use value::{apply, value_within};

/// The greatest absolute value of a number.
pub(crate) const LIMIT: u128 = i128::MAX as u128;

#[cfg(test)]
mod tests;
