//! Claims about circuits of either kind, which words name by files.
//!
//! `claim_names` has how words name a claim, and `claim_file` loads what they name. `arith_file` loads arithmetic circuits, and
//! `elements_file` files of elements.
//!
//!     let claim = load_claim(rt, alloc, shelf, &names)?; // or why there is none, such as Refusal::BadText
#![tactic(auto)]

mod arith_file;
mod claim_file;
mod claim_names;
mod elements_file;

pub use arith_file::{
    ArithOutputs, DigestedArith, load_arith, load_arith_claim, load_digested_arith,
};
pub use claim_file::load_claim;
pub use claim_names::{ClaimNames, NamedElements};
pub use elements_file::load_elements;
