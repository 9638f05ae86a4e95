//! A broker of a verifier's units: the command `broker`, which answers the wants of the nodes that call over the file's journal of ceilings.
//!
//! `broker_command` loads the file, opens its journal, listens and answers; `note_lines` says what came of it.
//!
//!     let end = run_broker(rt, alloc, shelf, journal, door, out, notices, &ask);
//!     if let Some(notes) = &end.notes { .. }
#![tactic(auto)]

mod broker_command;
mod note_lines;

pub use broker_command::{BrokerEnd, run_broker};
