//! The Hall set: a basis of Lie elements, grown degree after degree.
//!
//! Its members are numbered from 1: the letters first, then the pairs of each degree.
//! The set of a shape has at most 650 members. Building it takes a scan of the members so far for each left parent of each degree;
//! `find` takes a binary search.
#![tactic(auto)]

mod growth;
mod search;
pub mod set;
#[cfg(test)]
mod tests;
mod text;

pub use definitions::Member;
pub use set::HallSet;
