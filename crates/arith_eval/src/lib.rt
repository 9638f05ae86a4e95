//! What an arithmetic circuit gives at input elements, integers modulo 2^61 - 1.
//!
//! `eval` gives the outputs, `satisfying_wires` the elements of all wires where assertions are met, of which `output_elements` are those of
//! the outputs, and those that a proof is given; `eval_wires` gives the elements whether or not assertions are met.
//!
//!     let circuit = read(alloc, &text)?;
//!     let outputs = eval(alloc, &circuit, values)?;
#![tactic(auto)]

mod asserts;
mod fault;
mod outputs;
mod wires;

pub use fault::ArithEvalFault;
pub use outputs::{Satisfied, eval, output_elements, satisfying_wires};
pub use wires::eval_wires;
