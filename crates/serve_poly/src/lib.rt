//! The command `serve-poly`: a verifier that serves sessions about polynomial constraints.
//!
//! `files` loads the constraints and the verifier's file; `serving` opens the journal, listens, and leads the sessions; `command` says what
//! came of them. One caller:
//!
//!     let ServePolyEnd { status, journal, door, notes } = run_serve_poly(rt, alloc, shelf, journal, door, out, notices, &ask);
#![tactic(auto)]

mod command;
mod files;
mod serving;

pub use command::{ServePolyEnd, run_serve_poly};
