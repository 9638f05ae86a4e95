//! Circuits as programs over the field (Yang, Sarkar, Weng and Wang, QuickSilver, ACM CCS 2021, for the products; Bristol
//! Fashion for the gates of Boolean circuits).
//!
//! `translation` has `translate_public` and, for Boolean circuits all of whose inputs are private, `translate`; `arithmetic` has
//! `translate_arith`.
//!
//!     let program = translate(alloc, circuit)?;
//!     let need = program.need(g); // correlations of a session in sections of g products
#![tactic(auto)]

mod arithmetic;
mod translation;

pub use arithmetic::translate_arith;
pub use field_program::SlotPlan;
pub use translation::{translate, translate_public};
