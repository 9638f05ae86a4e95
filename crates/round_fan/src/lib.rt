//! The rounds of all units of a span, at either end of a session, in waves: a wave has a block of neighbouring units for each
//! worker, each block in a thread of its own, and what it makes is put behind what the waves before it made before the next begins.
//! What comes out is what one thread makes, unit by unit in order, whatever the number of workers; a thread that cannot be made
//! costs time alone. A block has one unit, or as many small ones as are worth a thread: a thread holds what they take, and no more.
//! Units that are all one block make no thread.
//!
//! `fan_prover` makes the prover's pairs and `fan_verifier` the verifier's replies and keys; `unit_pairs` and `unit_replies` do the
//! same on the caller's own thread. `rounds` has what both ends have in common.
//!
//!     let reply = fan_verifier(rt, alloc, &file, &columns, span, &asks, SESSION_WORKERS)?;
//!     let pairs = fan_prover(rt, alloc, &file, &columns, span, &reply.replies, SESSION_WORKERS)?;
#![tactic(auto)]

mod prover;
mod room;
mod rounds;
mod verifier;

pub use prover::{fan_prover, unit_pairs};
pub use room::SESSION_WORKERS;
pub use verifier::{FanReply, fan_verifier, unit_replies};
