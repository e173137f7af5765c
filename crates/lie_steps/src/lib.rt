//! The exponential of a Lie element as the step of a move, and its laws.
#![tactic(auto)]
