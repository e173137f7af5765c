//! The logarithm of a signature, exact, with the weight that bounds it, and that of any bounded series.
#![tactic(auto)]

pub mod fault;
mod horner;
pub mod laws;
pub mod logarithm;
#[cfg(test)]
mod tests;

pub use fault::LogFault;
pub use logarithm::{log, log_series};
