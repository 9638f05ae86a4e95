//! What is left of a dealt file, as its journal says, or that of a node which holds it: the command `status`, which writes nothing
//! but its lines.
//!
//! `dealing` has dealt files of either side, `session_size` how many units a session takes, `used_units` how many a journal says are
//! used, `status_text` the lines, and `status_command` the call. One caller:
//!
//!     let StatusEnd { status, journal } = run_status(alloc, shelf, journal, out, file, circuit, node);
#![tactic(auto)]

mod dealing;
mod session_size;
mod status_command;
mod status_text;
mod used_units;

pub use status_command::{StatusEnd, run_status};
