//! The tables of Hall sets, made once for a shape and shared.
#![tactic(auto)]

pub mod cell;
pub mod tables;
#[cfg(test)]
mod tests;

pub use cell::{BasisCell, Held};
pub use tables::Tables;
