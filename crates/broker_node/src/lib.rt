//! A broker's step, and a node of a broker: what it asks, takes, claims and draws.
//!
//! Several verifiers, the nodes, hold one verifier's file. A broker leases blocks of its units to them, one for each Want. A node claims
//! the whole of a block in its own journal before it uses any of it, so that a block that comes again, or late, is refused. Laws say which
//! events of `broker_core`'s world these calls are.
//!
//!     let want = node.ask(count);
//!     let reply = broker_step(rt, &mut core, &store, &mut pass, want)?;
//!     if node.take(alloc, &mut claims, block)? {
//!         let units = node.draw(count);
//!     }
#![tactic(auto)]

mod broker;
mod node;
mod ties;

pub use broker::{Reply, broker_step};
pub use node::NodeCore;
pub use ties::{
    asks_and_draws_are_events, broker_step_is_event, crashes_are_events, leases_end_alike,
    take_is_event, takes_agree, turns_are_seen,
};
