//! A rehearsal: both ends of a session, turn by turn, over files that a seed gives (Weng, Yang, Katz and Wang, Wolverine, IEEE
//! S&P 2021; Yang, Sarkar, Weng and Wang, QuickSilver, ACM CCS 2021).
//!
//! `rehearsing` has `rehearse`, `arith_rehearsing` the same of arithmetic circuits, `rehearsal` what they give; `exchange` takes the turns
//! of both ends, `noting` makes the log of what they said; `bits` and `elements` are lists of such outputs.
//!
//!     let circuit = read(alloc, &text)?;
//!     let rehearsal = rehearse(rt, alloc, circuit, &[], bits, Kind::Direct, section, &seed)?;
//!     let bytes = rehearsal.log.bytes();
#![tactic(auto)]

mod arith_rehearsing;
mod bits;
mod elements;
mod exchange;
mod noting;
mod rehearsal;
mod rehearsing;

pub use arith_rehearsing::rehearse_arith;
pub use bits::Bits;
pub use elements::Elements;
pub use exchange::{Correlated, extend};
pub use rehearsal::{ArithRehearseFault, Rehearsal, RehearseFault};
pub use rehearsing::{rehearse, rehearsed_params};
pub use zk_model::Verdict;
