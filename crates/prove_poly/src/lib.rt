//! The command `prove-poly`: a proof that values meet all polynomial constraints of a text, to a verifier at an address.
//!
//! `session` holds a prover's session over a link, and notes it; `poly_prover` has the call, which loads what is to be proved, opens the
//! journal, connects and says what came of it. One caller:
//!
//!     let ProveEnd { status, journal, door, note } = run_prove_poly(rt, alloc, shelf, journal, door, out, &ask);
#![tactic(auto)]

mod poly_prover;
mod session;

pub use poly_prover::run_prove_poly;
