//! Products of exponentials of Lie elements: lists of elements as they are spelled, and the series of Campbell, Baker and Hausdorff,
//! which is the logarithm of such a product in Hall coordinates.
#![tactic(auto)]

#[cfg(test)]
mod element_tests;
pub mod elements;
pub mod fault;
mod products;
pub mod series;
#[cfg(test)]
mod tests;

pub use elements::{MoveList, read_moves};
pub use fault::CbhFault;
pub use series::cbh;
