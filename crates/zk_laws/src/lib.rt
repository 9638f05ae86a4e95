//! Laws between the definitions of `zk_model`: each function takes nothing, does nothing, and ensures a statement.
#![tactic(auto)]

mod completeness;
mod extraction;
mod keys;
mod pairs;
mod sessions;
mod uniqueness;

pub use completeness::honest_session_is_accepted;
pub use extraction::{
    extraction_holds, finding_exists, finding_shows, found_bits, no_error_solves,
};
pub use keys::keys_fit;
pub use pairs::{one_pairs, pairs_are_whole, pairs_exist};
pub use sessions::{honest_session_holds, view_exists, wire_keys_fit, wires_follow};
pub use uniqueness::{fixed_before_challenge, one_finding, one_view};
