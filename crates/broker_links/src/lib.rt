//! Exchanges of a node with a broker of units over a link: the node sends a want, and the broker a block, or that no units are left.
//! In a log the node's bytes are those of `Side::Prover`, and the broker's those of `Side::Verifier`.
//!
//! `asking` has the node's end and `answering` the broker's, each as a party of the driver; `reply` what a broker sends, `answerer`
//! who decides it, and `note` what came of an exchange.
//!
//!     let tried = ask_broker(rt, alloc, want, link);
//!     if let TryOutcome::Block(block) = tried.outcome { .. }
//!
//!     let note = answer_want(rt, alloc, &mut answerer, link);
#![tactic(auto)]

mod answerer;
mod answering;
mod asking;
mod note;
mod reply;

pub use answerer::Answerer;
pub use answering::answer_want;
pub use asking::ask_broker;
pub use note::{BrokerNote, BrokerOutcome, Try, TryOutcome};
pub use reply::Reply;
