//! The sessions of a node: one after another with the provers that call at a door, with units of the blocks that a broker leases to it.
//!
//! `leading` leads one session, and `serving` all of them; `served` is what is left then. `laws` says what follows: no unit is granted twice;
//! what is granted is claimed, and was not at first, and where a disk tells its content, what a crash leaves says so; and a session that is
//! refused units is refused for the reason that it says.
//!
//!     let served = serve_node(rt, alloc, &jobs, &keeper, broker, patience, 3, claims, door, sessions);
#![tactic(auto)]

mod laws;
mod leading;
mod served;
mod serving;

pub use laws::{
    claims_are_kept, granted_units_are_claimed, journals_say_grants, later_grants_are_apart,
    sessions_grant_once, sessions_have_causes,
};
pub use served::NodeServed;
pub use serving::serve_node;
