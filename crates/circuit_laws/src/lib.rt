//! Laws of circuits and of their programs over the field: satisfying the truth tables is solving the equations, both ways, and values
//! determine wires. Functions take nothing, do nothing, and ensure a statement; the lemmas below them are for crates above.
//!
//! `circuits` has the laws.
//!
//!     bits_solve(); // from here on, the bits of a circuit's wires solve its program
#![tactic(auto)]

mod circuits;

pub use circuits::{
    bits_are_made, bits_solve, circuit_is_ordered, circuit_is_program, circuit_is_statement,
    gates_are_few, one_made, one_on_set_wires, one_outcome, products_are_numbered,
    satisfied_is_solved, solved_by_bits, solved_is_satisfied,
};
