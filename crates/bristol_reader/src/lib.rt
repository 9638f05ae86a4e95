//! Circuits in Bristol Fashion.
//!
//! `reader` has `read`; `circuit` what it gives, `fault` why not. A text is read from `tokens`, one by one, by `wants` where a
//! token of one kind must come next, or a gate's whole line at once by `lines`. `header`, `gate` and `body` read the counts, one
//! gate and all gates; `set_wires` keeps which wires are set. `laws` says that a text has one circuit or one first fault.
//!
//!     let text = load_file(alloc, shelf, name)?;
//!     let circuit = read(alloc, &text)?; // or ReadError::Fault, such as ReadFault::ShortText { token: 2 }
#![tactic(auto)]

mod body;
mod circuit;
mod fault;
mod gate;
mod header;
mod laws;
mod lines;
mod reader;
mod set_wires;
mod tokens;
mod wants;

pub use circuit::Circuit;
pub use fault::ReadError;
pub use laws::{fault_or_circuit, one_circuit, one_first_fault};
pub use reader::read;
pub use zk_model::{GateRow, ReadFault};
