//! One driver of a session over a line, for any end of a session.
#![tactic(auto)]

mod drive;
mod party;

pub use drive::{Outcome, run};
pub use party::{Party, Refusal};
