//! Laws of the definitions of arithmetic circuits: the inputs determine all that is computed.
//!
//! `one_list` says that of the outputs, `unmet_is_unsatisfied` what an assertion that is not met means. `solved_is_satisfied` says that
//! the program of a circuit, which has a product for each MUL, is solved exactly where the circuit is satisfied; `arith_is_program` and
//! `arith_is_ordered` say that it is well formed, `arith_is_statement` that claims of its outputs are a statement. How such a program is
//! proved is that of QuickSilver (Yang, Sarkar, Weng and Wang, ACM CCS 2021).
//!
//!     solved_is_satisfied(); // from here on its statement is a premise
#![tactic(auto)]

mod laws;

pub use laws::{
    arith_is_ordered, arith_is_program, arith_is_statement, one_list, solved_is_satisfied,
    unmet_is_unsatisfied,
};
