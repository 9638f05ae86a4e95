//! Laws on runs of the program: each function takes nothing, does nothing, and ensures a statement.
//!
//! They are about records that the contract of `run_zk` promises: what an accepted log shows, and what many runs over
//! one file's journals grant and claim, whatever crashes leave. `command_table` says the table that words are read by.
#![tactic(auto)]

mod accepted_logs;
mod command_table;
mod runs_in_turn;

pub use accepted_logs::headline_is_of_accepted_log;
pub use command_table::table_is;
pub use runs_in_turn::{
    claims_are_events, migrations_keep, runs_are_events, runs_claim_once, runs_grant_once,
};
