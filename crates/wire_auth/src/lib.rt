//! Authenticated wires: from the pairs, or the keys, of a program's given values those of all its wires (Weng, Yang, Katz
//! and Wang, Wolverine, IEEE S&P 2021; Yang, Sarkar, Weng and Wang, QuickSilver, ACM CCS 2021).
//!
//! `pairs` has `ProverWires`, `keys` has `VerifierWires`; `carrying` is what steps make of values, MACs and keys alike, `values` what
//! public values and inputs make, `corrections` what makes pairs of given values; `correlations` are those that were dealt or made,
//! `triples` the wires of a product. `prover_walk` and `verifier_walk` have the walks that hold live wires alone: `walking` is the walk
//! of both, over what `carried` says.
//!
//!     let (wires, corrections) = ProverWires::run(alloc, program, public, inputs, pairs)?;
//!     let keys = VerifierWires::run(alloc, program, public, keys, key, &corrections)?;
#![tactic(auto)]

mod carried;
mod carrying;
mod corrections;
mod correlations;
mod keys;
mod pairs;
mod prover_walk;
mod triples;
mod values;
mod verifier_walk;
mod walking;

pub use corrections::{bit_corrections, given_corrections, walk_corrections};
pub use correlations::Correlations;
pub use keys::VerifierWires;
pub use pairs::ProverWires;
pub use prover_walk::ProverWalk;
pub use triples::{KeyTriple, Triple};
pub use values::bits_make_products;
pub use verifier_walk::VerifierWalk;
