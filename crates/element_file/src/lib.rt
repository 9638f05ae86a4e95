//! A file of elements of the field: what list its text says, and the printed form of such a list.
//!
//! `reader` has `read_elements`, and `read_counted` where so many are needed; `fault` why a file is refused; `writer` has `write_elements`;
//! `laws` says that a text says one list at most. As `rehearse-arith` uses it:
//!
//!     let values = read_counted(alloc, &text, inputs)?; // or ElementsError::Fault, such as ElementsFault::BadValue { token: 0 }
#![tactic(auto)]

mod fault;
mod laws;
mod reader;
mod writer;

pub use fault::{ElementsError, ElementsFault};
pub use laws::elements_are_exact;
pub use reader::{read_counted, read_elements};
pub use writer::write_elements;
