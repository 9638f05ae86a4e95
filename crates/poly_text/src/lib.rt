//! Constraints from their text, and against values.
//!
//! `reader` has `read`, over `parts`, which read a constraint and a term, and `wants`, where a number of a kind must come next; `fault`
//! why a text is refused; `laws` says that a text says constraints exactly where it has no fault. `values` has `holds`, the test.
//!
//!     let polys = read(alloc, &text)?; // or ReadError::Fault, such as PolyFault::ShortText { token: 2 }
//!     if let Some(constraint) = holds(&polys, &values) {
//!         println!(rt; "unsatisfied {constraint}")?;
//!     }
#![tactic(auto)]

mod fault;
mod laws;
mod parts;
mod reader;
#[cfg(test)]
mod tests;
mod values;
mod wants;

pub use fault::{PolyFault, ReadError};
pub use laws::texts_are_exact;
pub use reader::read;
pub use values::holds;
