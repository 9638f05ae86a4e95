//! The commands `prove` and `prove-arith`: a proof that a circuit, Boolean or arithmetic, gives claimed outputs, to a verifier at an address.
//!
//! `proof` has what words ask to be proved. `bits_witness` and `elements_witness` load the claim and what proves it, of either kind of
//! circuit: a `witness`. `prove_command` has the call, which opens the journal, connects and holds the session, and `proved_line` says what
//! came of it. One caller:
//!
//!     let proof = Proof::by_bits(ask);
//!     let ProveEnd { status, journal, door, note } = run_prove(rt, alloc, shelf, journal, door, out, &proof);
#![tactic(auto)]

mod bits_witness;
mod elements_witness;
mod proof;
mod prove_command;
mod proved_line;
mod witness;

pub use proof::{BitsProof, ElementsProof, Proof, ProofNames};
pub use prove_command::{ProveEnd, connect_stop, run_prove};
pub use proved_line::say_proved;
