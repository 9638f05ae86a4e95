//! Arithmetic circuits: gates over the integers modulo 2^61 - 1, read from a text.
//!
//! `reader` has `read`; `circuit` what it gives, `fault` why not. `header`, `gate` and `body` read the counts, one gate and all gates,
//! by `wants` where a token of one kind must come next; `lines` reads plain lines at once. `laws` says that a text says a circuit
//! exactly where it has no fault.
//!
//!     let circuit = read(alloc, &text)?; // or ReadError::Fault, such as ReadFault::ShortText { token: 2 }
#![tactic(auto)]

mod body;
mod circuit;
mod fault;
mod gate;
mod header;
mod laws;
mod lines;
mod reader;
mod wants;

pub use circuit::Arith;
pub use fault::ReadError;
pub use laws::texts_are_exact;
pub use reader::read;
pub use zk_model::{ArithRow, ReadFault};
