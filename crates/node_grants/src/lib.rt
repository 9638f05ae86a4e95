//! Units for the sessions of a node: they are drawn from the block that it holds, and where too few are left it asks its broker for another.
//!
//! `lender` has what is lent to a session, and `seeking` the tries: a want over a new link each, and what its reply comes to.
//!
//!     let units = lender.grant(count)?; // or GrantFault::NoBlock { wants: 64 }
#![tactic(auto)]

mod lender;
mod seeking;

pub use lender::NodeLender;
pub use seeking::TRIES;
