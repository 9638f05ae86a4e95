//! What the log of a session proves, given both dealt files (Weng, Yang, Katz and Wang, Wolverine, IEEE S&P 2021; Yang, Sarkar,
//! Weng and Wang, QuickSilver, ACM CCS 2021).
//!
//! `auditing` has `audit`, and `fault` why there is no finding. `reading` reads frames from a log's bytes, `judge` says which of them
//! are given, and `log` reads a `session` with both. `pairs` has the pairs that the prover's file and a session fix, `seen` those of all
//! wires, and `search` the first section or opened wire that shows something. `laws` says what a log can be at once, and
//! `audit_command` has the commands `audit` and `audit-arith`, whose words `audit_names` keeps.
//!
//!     let finding = audit(alloc, &claim.statement(), &prover, &verifier, &log)?;
#![tactic(auto)]

mod audit_command;
mod audit_names;
mod auditing;
mod fault;
mod judge;
mod laws;
mod log;
mod pairs;
mod reading;
mod search;
mod seen;
mod session;
mod values;

pub use audit_command::{run_audit, run_audit_arith};
pub use auditing::audit;
pub use check_findings::Finding;
pub use fault::AuditFault;
pub use judge::same_replies;
pub use laws::{accepted_logs_are_right, found_shows_outputs, one_answer, whole_logs_are_right};
pub use pairs::fitted_pairs;
pub use reading::LogReader;
pub use values::round_values;
