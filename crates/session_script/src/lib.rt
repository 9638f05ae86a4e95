//! The script of a session, and one end of a session that goes by it, for any voice that hears and says its frames.
#![tactic(auto)]

mod after;
mod fault;
mod scripted;
mod session;
mod voice;

pub use after::{After, after_of};
pub use fault::EndFault;
pub use scripted::Scripted;
pub use session::lead;
pub use voice::Voice;
