//! What a broker of units does for the nodes that call at a door: one link after another it takes a want, leases units for it, and sends the reply.
//!
//! `service` is the loop over the links, `lender` who answers over one of them, and `brokered` what is left of it all. The steps are
//! those of `broker_step`, by one pass of one store, on one thread.
//!
//!     let brokered = answer_all(rt, alloc, parts, passes, door, asks, &mut teller);
//!     for note in &brokered.notes { .. }
#![tactic(auto)]

mod brokered;
mod lender;
mod service;

pub use brokered::{Brokered, Teller};
pub use service::answer_all;
