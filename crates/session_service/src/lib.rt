//! Sessions of a verifier with whoever calls at an address, over the journal of its file.
//!
//! `sessions` has what is led: a trait, whose notes are those of a verifier's sessions. `watched` leads sessions with all who call, whose logs
//! are kept as they end; and `service` opens the journal, listens, and leads them.
//!
//!     let led = serve_sessions(rt, alloc, shelf, notices, &sessions, &file, most, &place, journal, door)?;
#![tactic(auto)]

mod service;
mod sessions;
mod watched;

pub use service::{LedSessions, ServicePlace, Unled, serve_sessions};
pub use sessions::Sessions;
