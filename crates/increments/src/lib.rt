//! The rows of a stream, in time and by name.
//!
//! Rows are kept in an ordered map from (tick, birth) to rows, with an `IndexMap` from names to (tick, birth).
//! With n rows, `append`, `correct` and `remove` take O(log n) steps, and move rows only within a few nodes of the ordered map.
//! `tick_of` takes O(1) steps on average. `count_in`, `weight_in` and `copy_in` take O(log n), and one for each row that they find.
//! `copy` takes O(n log n).
#![tactic(auto)]

pub mod fault;
pub mod name;
pub mod row;
pub mod rows;
mod tables;
#[cfg(test)]
mod tests;

pub use fault::RowFault;
pub use name::Name;
pub use row::{Row, RowList};
pub use rows::Rows;
