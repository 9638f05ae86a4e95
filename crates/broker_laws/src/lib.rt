//! Laws on what a broker and its nodes do together: each function takes nothing, does nothing, and ensures a statement.
//!
//! A history is a list of deeds of one broker and of its nodes, in the order in which they happened, with runs that stop and start anew over
//! their journals among them. `deeds` says that the grants of a node and the exchanges of a broker are such deeds, and what they leave in
//! the journals; `joined` that each history is a list of possible events of `broker_core`'s world, so that no unit is drawn twice; and `led`
//! the same of all sessions of nodes.
#![tactic(auto)]

mod deeds;
mod joined;
mod led;

pub use deeds::{claims_leave_journals, exchanges_are_deeds, grants_are_deeds, services_are_deeds};
pub use joined::{
    histories_are_events, histories_draw_once, joins_draw_once, joins_happen, runs_draw_once,
};
pub use led::{all_sessions_grant_once, sessions_are_deeds};
