//! A rehearsal of a session about any claim: both ends, turn by turn, over files that a seed gives (Weng, Yang, Katz and Wang,
//! Wolverine, IEEE S&P 2021; Yang, Sarkar, Weng and Wang, QuickSilver, ACM CCS 2021).
//!
//! `rehearsing` has `rehearse_claim`, `rehearsal` what it gives; `rounds` has the rounds after the grant, `passing` all turns of both ends,
//! and `noting` the log of their frames.
//!
//!     let rehearsal = rehearse_claim(rt, alloc, &witness, Kind::Direct, section, &seed)?;
//!     let bytes = rehearsal.log.bytes();
#![tactic(auto)]

mod noting;
mod passing;
mod rehearsal;
mod rehearsing;
mod rounds;

pub use rehearsal::{ClaimRehearsal, ClaimRehearseFault};
pub use rehearsing::rehearse_claim;
