//! A verifier's session with any peer over a link (Weng, Yang, Katz and Wang, Wolverine, IEEE S&P 2021; Yang, Sarkar, Weng and
//! Wang, QuickSilver, ACM CCS 2021): it meets the hello, grants units, challenges, and judges; and it says what came of it.
//!
//! Of the sessions of a service, `log_desk` keeps each log when its session has ended. Once all have, `note_lines` has their order, their
//! lines and their status, `service_logs` sees that their logs stand, and `service_said` does all of it:
//!
//!     order_notes(&mut notes);
//!     let KeptLogs { loan, faults } = desk.into_inner().close();
//!     let status = say_service(alloc, loan.shelf, out, &notes, prefix, faults, door_failed, memory_failed);
#![tactic(auto)]

mod laws;
mod lead;
mod log_desk;
mod note;
mod note_lines;
mod serve;
mod service_logs;
mod service_said;
mod verification;
mod verify;

pub use laws::{shown_is_accepted, shown_is_found, shown_solves};
pub use lead::lead_session;
pub use log_desk::{KeptLogs, LogDesk, LogKeeper, LogLoan, Watch};
pub use note::{SessionNote, VerifierOutcome};
pub use note_lines::{order_notes, write_note};
pub use service_logs::LogFaults;
pub use service_said::say_service;
pub use verification::Verification;
pub use verify::verify_session;
