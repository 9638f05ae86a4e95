//! A verifier's session about any claim, over a link (Weng, Yang, Katz and Wang, Wolverine, IEEE S&P 2021; Yang, Sarkar, Weng and Wang,
//! QuickSilver, ACM CCS 2021).
//!
//! `rounds` has its rounds, `verifying` its voice, `verify` a whole session, and `fault` why it refuses a frame or says none.
#![tactic(auto)]

mod fault;
mod rounds;
mod verify;
mod verifying;

pub use fault::VoiceFault;
pub use rounds::Rounds;
pub use verify::{SessionEnd, verify_claim};
pub use verifying::Verifying;
