//! Sessions with all peers that call at a door, as many at once as there are workers: whose turn it is, which units are leased,
//! and what came of each. What a session is, is behind a trait.
//!
//! A worker has a pass of its own. It takes a link at a time from the door, which stands behind a lock, and leads the session over it
//! with a `Grantor` that draws by that pass. `serve_all` does it for all peers of a door, and `serve_one` for one link.
#![tactic(auto)]

mod doorway;
mod lender;
mod served;
mod serving;
mod session;
mod shift;
mod worker;

pub use lender::serve_one;
pub use served::Served;
pub use serving::serve_all;
pub use session::Session;
