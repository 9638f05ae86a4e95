//! The gates of a circuit, in the form in which a program over the field has its steps and the factors of its products: a circuit
//! becomes a program without a second list.
//!
//! `gates` has `PackedGates` of a Boolean circuit, `rows` `PackedRows` of an arithmetic one, `packed` the forms.
//!
//!     gates.push(gate)?;
//!     let (rules, factors) = gates.into_parts();
#![tactic(auto)]

mod gates;
mod packed;
mod rows;

pub use gates::PackedGates;
pub use packed::{Factors, PackedStep, Tables};
pub use rows::PackedRows;
pub use zk_model::{ArithRow, GateRow};
