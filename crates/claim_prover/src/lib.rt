//! A prover's session about any claim, over a link (Weng, Yang, Katz and Wang, Wolverine, IEEE S&P 2021; Yang, Sarkar, Weng and Wang,
//! QuickSilver, ACM CCS 2021).
//!
//! `witness` has what a prover knows for a claim, `granting` how it takes a grant, `rounds` its rounds and its pairs, `proving` its voice, `prove` a
//! whole session, and `fault` why it refuses a frame or says none.
#![tactic(auto)]

mod fault;
mod granting;
mod prove;
mod proving;
mod rounds;
mod witness;

pub use fault::ProvingFault;
pub use prove::{ProverEnd, prove_claim};
pub use proving::Proving;
pub use witness::Witness;
