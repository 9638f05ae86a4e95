//! Polynomial constraints, and values that meet them, which words name by files.
//!
//! `text_file` loads constraints with the digest of their text, and `witness_file` these with values that meet all of them.
//!
//!     let witness = load_poly_values(alloc, shelf, "square.txt", "square.values")?; // or why not, such as Refusal::Unsatisfied
#![tactic(auto)]

mod text_file;
mod witness_file;

pub use text_file::{DigestedPolys, load_polys};
pub use witness_file::{PolyValues, load_poly_values};
