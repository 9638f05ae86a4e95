//! What commands load, open, say and stop by, the files of bits that words name too; and the commands that hold no session: `deal`, `eval`
//! and `migrate`.
//!
//! `claim_files` loads arithmetic circuits, elements and claims. `proof_audit` has `audit`, and `zk_cli` the other commands and the top call.
#![tactic(auto)]

mod circuit_file;
mod deal_command;
mod dealt_file;
mod eval_command;
mod following;
mod given_bits;
mod journal_file;
mod laws;
mod migrate_command;
mod refusal;
mod saying;

pub use circuit_file::{
    ClaimedCircuit, check_public, load_circuit, load_claimed, load_file, read_and_digest,
    read_circuit,
};
pub use deal_command::run_deal;
pub use dealt_file::{load_prover, load_verifier};
pub use eval_command::run_eval;
pub use following::{Unheard, say_broker_start, say_start};
pub use given_bits::read_given;
pub use journal_file::{node_journal_name, open_ceilings, open_claims, open_node_claims};
pub use laws::journals_stay_tidy;
pub use migrate_command::run_migrate;
pub use refusal::Refusal;
pub use saying::{say, say_memory, say_stop};
