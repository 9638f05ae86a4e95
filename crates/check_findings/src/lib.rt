//! What a section of products, or an opened wire, shows of a prover whose check was met: nothing where all is right, or else a
//! polynomial that has the challenge, or every key with which the check is met, as a root.
//!
//! `finding` has `Finding`, `section_finding` and `opening_finding`.
//!
//!     let found = section_finding(alloc, &products, mask, challenge, u, v)?;
#![tactic(auto)]

mod finding;

pub use finding::{Finding, opening_finding, section_finding};
