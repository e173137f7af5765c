//! The mathematics that the contracts of all crates cite: words, moves, signatures, the Hall list, time and rows.
//! Of code there is only the type of a member of a Hall list.
#![tactic(auto)]

pub mod member;

pub use member::Member;
