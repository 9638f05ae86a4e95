//! Programs over the field: linear equations of wires, in order, and the products that a proof checks (Yang, Sarkar, Weng and
//! Wang, QuickSilver, ACM CCS 2021).
//!
//! `program` has `FieldProgram`, `step` one linear equation as contracts see it; `packed` reads a step
//! from the form in which a circuit keeps its gates; `plan` has `SlotPlan`, of the wires that a walk along the steps has to hold at once,
//! and `slots` gives them their slots.
//!
//!     let need = program.need(g); // correlations of a session in sections of g products
#![tactic(auto)]

mod packed;
mod plan;
mod program;
mod slots;
mod step;

pub use packed_gates::{Factors, PackedStep, Tables};
pub use plan::{SlotPlan, StepSlots};
pub use program::FieldProgram;
pub use step::Step;
pub use zk_model::Product;
