//! Lie elements in Hall coordinates, their brackets and their expansions.
#![tactic(auto)]

mod build;
pub mod element;
mod entries;
pub mod expansion;
pub mod fault;
pub mod laws;
mod numbers;
mod pairs;
mod sign;
pub mod sums;
pub mod table;
pub mod term;
#[cfg(test)]
mod tests;

pub use element::LieElement;
pub use expansion::expand;
pub use fault::{BracketFault, ExpandFault, TableFault, TermsFault};
pub use sums::add_scaled;
pub use table::BracketTable;
pub use term::Term;
