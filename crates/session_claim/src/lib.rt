//! What a session proves, as a claim, and the script of a session about one. `claim` has the trait, `script` its places.
#![tactic(auto)]

mod claim;
mod script;

pub use claim::Claim;
pub use script::{claim_behind, first_places};
