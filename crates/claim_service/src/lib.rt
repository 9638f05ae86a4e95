//! Sessions about a claim with whoever calls, over a verifier's file.
//!
//! `sessions` has `ClaimSessions`, which a service leads; `lead` leads one, `asked` notes what is answered about its units, and `outcome` says
//! how it ended.
//!
//!     let sessions = ClaimSessions::new(&claim, &file, section);
//!     let led = serve_sessions(rt, alloc, shelf, notices, &sessions, &file, units, &place, journal, door)?;
#![tactic(auto)]

mod asked;
mod lead;
mod outcome;
mod sessions;

pub use sessions::ClaimSessions;
