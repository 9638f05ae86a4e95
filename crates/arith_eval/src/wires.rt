// The elements of all wires.
ghost use Rattle.std.specs.Prelude.{◌≡◌, ◌≤◌, ◌<◌, ◌^◌, length, take, IfOk, IfErr};
ghost use Rattle.zk_model.specs.Arithmetic.{AreComputed};
ghost use Rattle.arith_eval.specs.Answers.{AreFirst, IsLengthCause, LeavesUnset};
ghost use Rattle.arith_eval.specs.Rows.{IsWithin, elements_after};

use crate::fault::ArithEvalFault;
use arith_reader::{Arith, ArithRow};
use mersenne_field::Fe;
use std::alloc::{AllocError, Global};

/// One element for each wire, the input elements first, such that every gate computes its own; whether assertions are met is not
/// looked at. A wire that is no input and that no gate sets is 0.
///
/// # Errors
///
/// `WrongLength` exactly where the elements are not as many as the inputs, memory or not; else `NoMemory` where memory runs out.
pub fn eval_wires(alloc: Global, circuit: &Arith, values: &[Fe]) -> Result<Vec<Fe>, ArithEvalFault>
    ensures computed { IfOk result (λ elements. AreComputed circuit.now values.now elements.items) }
    ensures unset { IfOk result (λ elements. LeavesUnset circuit.now elements.items) }
    ensures cause { IfErr result (IsLengthCause circuit.now values.now) }
{
    let need = circuit.inputs();
    let got = values.len();
    if need != got {
        return Err(ArithEvalFault::WrongLength { need, got });
    }
    let mut elements = first_elements(alloc, values, circuit.wires())?;
    set_rows(circuit, &mut elements);
    Ok(elements)
}

/// These elements, and a 0 for each other wire.
#[tactic(auto, using(crate::proofs::Computing::zero_behind))]
fn first_elements(alloc: Global, values: &[Fe], wires: usize) -> Result<Vec<Fe>, AllocError>
    requires { length values.now ≤ wires }
    ensures { IfOk result (λ elements. AreFirst values.now wires elements.items) }
{
    let mut elements = Vec::with_capacity(alloc, wires)?;
    for i in 0..values.len() {
        let value = values[i];
        let _number = value.value();
        elements.reserve(1)?;
        elements.push_reserved(value);
    }
    elements.resize(wires, Fe::ZERO)?;
    Ok(elements)
}

/// Sets the elements after the inputs, gate by gate.
fn set_rows(circuit: &Arith, elements: &mut [Fe])
    requires { AreFirst (take circuit.now.inputs elements.old) circuit.now.wires elements.old }
    ensures computed { AreComputed circuit.now (take circuit.now.inputs elements.old) elements.new }
    ensures unset { LeavesUnset circuit.now elements.new }
{
    let _wires = circuit.wires();
    for i in 0..circuit.gates() {
        set_row(elements, circuit.gate(i));
    }
}

/// Sets the element of the wire that a gate sets.
fn set_row(elements: &mut [Fe], row: ArithRow)
    requires { IsWithin (length elements.old) row }
    ensures { elements.new ≡ elements_after elements.old row }
{
    match row {
        ArithRow::Add { a, b, out } => {
            elements[out as usize] = elements[a as usize] + elements[b as usize];
        }
        ArithRow::Mul { a, b, out } => {
            elements[out as usize] = elements[a as usize] * elements[b as usize];
        }
        ArithRow::Const { value, out } => elements[out as usize] = Fe::from_word(value),
        ArithRow::Assert { .. } => {}
    }
}
