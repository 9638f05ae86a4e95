//! The batched check of constraints over authenticated values (Yang, Sarkar, Weng and Wang, QuickSilver, ACM CCS 2021, the form
//! for sets of polynomials), in one walk over all terms.
//!
//! `sums` has `poly_sums`, what an honest prover sends, over `key_polynomial`, what it has of a constraint; `verify` has the test
//! `poly_verify`; `finding` has `poly_finding`, what values show whose sums met the test.
//!
//!     let sums = poly_sums(alloc, &polys, &pairs, challenge, &masks)?;
//!     poly_verify(&polys, &keys, key, challenge, &mask_keys, &sums)?;
#![tactic(auto)]

mod finding;
mod key_polynomial;
mod sums;
#[cfg(test)]
mod tests;
mod verify;

pub use finding::{PolyFinding, poly_finding};
pub use sums::poly_sums;
pub use verify::{Differs, poly_verify};
