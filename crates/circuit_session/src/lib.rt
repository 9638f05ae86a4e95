//! A session about a circuit, Boolean or arithmetic, as a session about a claim (Weng, Yang, Katz and Wang, Wolverine, IEEE S&P 2021; Yang,
//! Sarkar, Weng and Wang, QuickSilver, ACM CCS 2021).
//!
//! `statement_claim` has a statement as a claim, `judging` its check, and `verify` a verifier's whole session about one; `statement_witness` what
//! its prover knows, and `opening` its answers.
//!
//!     match verify_statement(rt, alloc, &statement, &file, section, &mut grantor, &mut line) {
//!         SessionEnd::Judged { judgement } => println!(rt; "{judgement:?}")?,
//!         SessionEnd::Refused { .. } | SessionEnd::Cut { .. } => println!(rt; "no verdict")?,
//!     }
#![tactic(auto)]

mod judging;
mod opening;
mod statement_claim;
mod statement_witness;
mod verify;

pub use statement_claim::StatementClaim;
pub use statement_witness::StatementWitness;
pub use verify::verify_statement;
