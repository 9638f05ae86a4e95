//! A session: both ends, turn by turn (Weng, Yang, Katz and Wang, Wolverine, IEEE S&P 2021; Yang, Sarkar, Weng and Wang,
//! QuickSilver, ACM CCS 2021).
//!
//! `statement` has what a session is about, `circuit_claim` the claim that some inputs make a circuit, Boolean or arithmetic, give outputs, `hellos` whether a
//! hello is for it. `prover_job` and `verifier_job` have what either end is to do, and its turns as calls, `wire_values` what may make its given values, `verifier_jobs` what a
//! verifier is to do of several statements; `prover_core` and `verifier_core` take frames one by one and take these turns. `extending`
//! has the asks, replies, pairs and keys of all units of a grant, `round_frames` their frames, `workers` what several threads can share,
//! `left_sides` what a verifier has before the sums come, `judgement` what the checks found, `fault` why a core stops.
//!
//!     let claim = CircuitClaim::new(alloc, &circuit, digest, public, outputs)?;
//!     let statement = claim.statement();
//!     let job = VerifierJob::fit(&statement, &file, section)?;
//!     let mut core = VerifierCore::new(&job);
//!     let answer = core.step(alloc, frame)?; // a frame that core.expects() allows
#![tactic(auto)]

mod circuit_claim;
mod extending;
mod fault;
mod hellos;
mod judgement;
mod left_sides;
mod prover_core;
mod prover_job;
mod round_frames;
mod statement;
mod verifier_core;
mod verifier_job;
mod verifier_jobs;
mod wire_values;
mod workers;

pub use circuit_claim::{CircuitClaim, computed_elements_prove, input_bits_prove};
pub use extending::{Replied, ask_lists, ask_units, asks_in, replies_in, reply_units};
pub use fault::{Digests, HelloDiffers, ProverFault, VerifierFault};
pub use hellos::difference;
pub use judgement::Judgement;
pub use left_sides::LeftSides;
pub use prover_core::ProverCore;
pub use prover_job::{Opened, ProverJob, units_of};
pub use round_frames::{ask_frames, reply_frames};
pub use statement::{Statement, bits_digest, elements_digest, elements_of};
pub use verifier_core::VerifierCore;
pub use verifier_job::{TooLarge, VerifierJob, units_for};
pub use verifier_jobs::VerifierJobs;
pub use wire_auth::Correlations;
pub use wire_values::WireValues;
pub use workers::{Fan, OneThread, Workers};
pub use zk_model::Verdict;
