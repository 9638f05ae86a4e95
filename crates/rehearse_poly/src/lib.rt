//! The command `rehearse-poly`: a rehearsal of a session that proves values which meet polynomial constraints (Yang, Sarkar, Weng and Wang,
//! QuickSilver, ACM CCS 2021, the form for sets of polynomials).
//!
//! `command` has the command, `rehearsing` its rehearsal, and `saying` its lines.
//!
//!     let end = run_rehearse_poly(rt, alloc, shelf, out, &ask, &seed);
#![tactic(auto)]

mod command;
mod rehearsing;
mod saying;

pub use command::{RehearsePolyEnd, run_rehearse_poly};
