//! The commands of the program, over whatever files, disk, door and output they are given: the top call, and those that hold
//! sessions. The others, and what all share, are in `file_commands`.
//!
//! `run` has the top call. A service (`serve_command`) loads its claims (`service_files`), makes a job of each (`serve_jobs`) and leads
//! sessions about them, whose logs are kept as they end (`watched`); `many_command` serves those of a file of statements; and `node_service`
//! has a node serve, with units that a broker leases to it. What is kept and said of sessions is in `session_verifier`. `proved_part` hands back
//! what comes of `prove` and `prove-arith`, whose run is in `prove_command`, and `brokered_part` what comes of `broker`, whose run is in
//! `broker_command`. `poly_part` hands back what comes of the commands about polynomial constraints, whose runs are in `rehearse_poly`,
//! `serve_poly` and `prove_poly`.
#![tactic(auto)]

mod arith_rehearse_command;
mod brokered_part;
mod finish;
mod generate_command;
mod many_command;
mod node_service;
mod poly_part;
mod proved_part;
mod rehearse_command;
mod run;
mod serve_command;
mod serve_jobs;
mod service_files;
mod watched;

pub use claim_rehearsal::ClaimRehearsal;
pub use file_commands::Refusal;
pub use finish::{Finish, Part};
pub use run::run_zk;
pub use session_rehearsal::{Bits, Elements, Rehearsal, RehearseFault, Verdict};
pub use zk_model::FILE_LIMIT;
