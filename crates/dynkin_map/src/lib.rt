//! The Dynkin map: Hall coordinates of Lie elements that are given as series.
#![tactic(auto)]

mod bounds;
mod coordinates;
pub mod fault;
mod growths;
mod images;
pub mod laws;
mod rows;
pub mod signature;
mod sums;
pub mod table;
#[cfg(test)]
mod tests;

pub use fault::LieFault;
pub use signature::log_signature;
pub use table::DynkinTable;
