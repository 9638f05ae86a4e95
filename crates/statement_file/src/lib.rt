//! The file that names the statements which a verifier offers: a line `CIRCUIT PUBLIC OUTPUTS` for each.
//!
//! `claim` has what a line names, `fault` why a file is refused, `reader` has `read_statements`. As `serve-many` uses it:
//!
//!     let text = load_file(alloc, shelf, name)?;
//!     let claims = read_statements(alloc, &text)?; // or StatementError::Fault, such as StatementFault::BadLine { line: 0 }
#![tactic(auto)]

mod claim;
mod fault;
mod reader;

pub use claim::NamedClaim;
pub use fault::{StatementError, StatementFault};
pub use reader::read_statements;
