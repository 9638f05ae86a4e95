//! Laws of trees of nodes, each the halves of the digest of the one above it (the tree of Goldreich, Goldwasser and Micali, JACM
//! 1986, punctured at one leaf). Functions take nothing, do nothing, and ensure a statement; the lemmas below them are for crates
//! above.
//!
//! `trees` has the laws.
//!
//!     one_punctured(); // from here on, the sums of levels determine all leaves but one
#![tactic(auto)]

mod trees;

pub use trees::{one_punctured, punctured_exists};
