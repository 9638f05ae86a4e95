//! One round in which both ends of a session make many authenticated values of the few that a unit was dealt (Boyle,
//! Couteau, Gilboa, Ishai, Kohl, Rindal and Scholl, Efficient Two-Round OT Extension and Silent Non-Interactive Secure
//! Computation, 2019; Weng, Yang, Katz and Wang, Wolverine, IEEE S&P 2021; the code is that of Yang, Weng, Lan, Zhang and
//! Wang, Ferret, ACM CCS 2020). The prover asks for all trees of the unit, the verifier replies and has its keys, and the
//! prover finds its pairs. Each end grows each tree once.
//!
//! `prover` has `ProverRound`, `verifier` has `VerifierRound`; `levels` has what is asked, masked and unmasked level by level, `columns` the
//! code's columns, made once a session.
//!
//!     let asks = ProverRound::new(&file, unit).ask(alloc)?;
//!     let reply = VerifierRound::new(&file, unit).reply(alloc, &columns, &asks)?; // replies, and the unit's keys
//!     let pairs = ProverRound::new(&file, unit).finish(alloc, &columns, &reply.replies)?;
#![tactic(auto)]

mod columns;
mod levels;
mod prover;
mod verifier;

pub use columns::columns_of;
pub use levels::flip_place;
pub use prover::ProverRound;
pub use verifier::{UnitReply, VerifierRound};
