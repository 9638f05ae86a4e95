//! Polynomial constraints as what a session proves: values that meet all of them (Yang, Sarkar, Weng and Wang, QuickSilver, ACM CCS
//! 2021, the form for sets of polynomials), and what a prover knows for it.
#![tactic(auto)]

mod poly_claim;
mod poly_witness;

pub use poly_claim::PolyClaim;
pub use poly_witness::PolyWitness;
