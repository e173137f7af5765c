//! A value that threads change one after another: each hold adds at most one entry to one history.
#![tactic(auto)]

mod kept;
mod pass;
mod steps;
mod turnstile;
mod view;

pub use kept::Kept;
pub use pass::Pass;
pub use turnstile::Turnstile;
pub use view::PassView;

#[cfg(test)]
mod tests;
