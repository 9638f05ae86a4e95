//! What a broker of units and its nodes keep: no unit is spent twice, whatever the links between them do with messages and whoever crashes.
//!
//! One broker leases spans of units from one store, and sends each as a Block to the node that asked. A node claims a Block's units in
//! its own journal before it spends any of them. A message may come late, again, or never.
//!
//! A `World` is a broker, its nodes and all that was ever sent; `run` takes events there: what is sent and comes, what is spent, and
//! who crashes, and when. `units_are_spent_once` is the theorem over all lists of events.
//!
//!     let mut world = World::new(alloc, total, nodes)?;
//!     let all = run(&mut world, &events)?;
#![tactic(auto)]

mod brokering;
mod event;
mod keeping;
mod laws;
mod leasing;
mod message;
mod noding;
mod running;
mod stepping;
#[cfg(test)]
mod tests;
mod world;

pub use brokering::block_of;
pub use event::BrokerEvent;
pub use keeping::BrokerCore;
pub use laws::{one_ask_gives_a_block, units_are_spent_once};
pub use leasing::{repeated, rounded};
pub use message::{Kept, LeaseEnd, Message, Node, NodeClaim};
pub use noding::takes;
pub use running::run;
pub use world::World;
