//! A prover's session with any peer over a link (Weng, Yang, Katz and Wang, Wolverine, IEEE S&P 2021; Yang, Sarkar, Weng and
//! Wang, QuickSilver, ACM CCS 2021): it greets, claims the units that it is granted, in kind extended makes many correlations
//! of the few that they have, commits and opens; and it says what came of it.
#![tactic(auto)]

mod claimant;
mod note;
mod prove;
mod proving;
mod store_claimant;

pub use claimant::Claimant;
pub use note::{ProverNote, ProverOutcome};
pub use prove::prove_session;
pub use store_claimant::StoreClaimant;
