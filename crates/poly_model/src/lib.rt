//! Constraints over the field modulo 2^61 - 1: polynomials of numbered values, each of which is to be 0. `specs/` has what they
//! mean, and their degree and batched check.
//!
//! `polys` has `Polys`, a list of constraints; `polynomial` one of them, `term` a `Term` of it; `limits` how many there are of each.
//!
//!     let mut polys = Polys::new(alloc, 2);
//!     polys.push(Polynomial::new(terms))?;
#![tactic(auto)]

mod limits;
mod polynomial;
mod polys;
mod term;

pub use limits::{MAX_CONSTRAINTS, MAX_FACTORS, MAX_TERMS, MAX_VARIABLES};
pub use polynomial::Polynomial;
pub use polys::Polys;
pub use term::Term;
