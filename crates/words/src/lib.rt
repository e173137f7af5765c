//! Shapes, words and their numbers, moves, bounds, capacities, and the count of units.
#![tactic(auto)]

pub mod bound;
pub mod capacity;
pub mod entries;
pub mod memory;
pub mod moves;
pub mod numbers;
mod parts;
pub mod roots;
pub mod shape;
pub mod steps;
#[cfg(test)]
mod tests;
pub mod weights;
pub mod word;

pub use bound::Bound;
pub use capacity::Capacity;
pub use entries::Entries;
pub use memory::Memory;
pub use moves::Move;
pub use numbers::{binom, factorial, lcm_to, lie_den, log_bound, log_den, sig_den};
pub use parts::{MoveParts, greatest_entry};
pub use roots::root;
pub use shape::{Shape, ShapeFault};
pub use steps::{Free, Ledger, Steps};
pub use weights::weight_of;
pub use word::Word;
