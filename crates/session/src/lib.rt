//! The sessions of a script over one book: the answer to each command, in an order of their steps.
#![tactic(auto)]

pub mod answer;
mod asked;
pub mod basis;
mod held;
pub mod laws;
mod look;
pub mod orders;
mod query;
mod run;
mod serve;
pub mod threads;
mod value;

pub use answer::{Answer, Outcome, Transcript};
pub use book::LookReply;
pub use orders::{ReplayFault, replay, replay_round};
pub use solve::{Gate, Through};
pub use threads::{Ran, free_counters, run_all};
pub use versions::{Accepted, EditReply};
