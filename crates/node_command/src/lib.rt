//! A new node of a verifier's file: the command `node`, which stores the blank journal of the units that it claims.
//!
//!     let status = run_node(alloc, shelf, out, file, 3);
#![tactic(auto)]

mod node_command;

pub use node_command::run_node;
