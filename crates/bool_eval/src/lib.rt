//! What a circuit gives at input bits.
//!
//! `eval` gives the outputs, `eval_wires` the bits of all wires, `output_bits` those of them that are outputs. As the command `eval` calls it:
//!
//!     let circuit = read(alloc, &text)?;
//!     let outputs = eval(alloc, &circuit, bits)?;
#![tactic(auto)]

ghost use Rattle.std.specs.Prelude.{◌≡◌, Bool, List, length, take, drop, IfOk, IfErr, slice_set};
ghost use Rattle.zk_model.specs.Circuit.{AreWireBits, Satisfies, output_wire, wire_set};
ghost use Rattle.circuit_laws.specs.GateBits.{gate_bit};
ghost use Rattle.bool_eval.specs.GateBits.{HasWiresBelow, AreBlankBehind, LeavesUnset};
ghost use Rattle.bool_eval.specs.Answers.{IsCause, AreOnlyOutputs};
ghost use Rattle.bool_eval.specs.declared.EvalFault.TheVariants as fault;

use bristol_reader::{Circuit, GateRow};
use circuit_laws::one_outcome;
use std::alloc::{AllocError, Global};
use thiserror::Error;

/// Why a circuit is not evaluated.
#[derive(Clone, Copy, Debug, PartialEq, Eq, Error)]
pub enum EvalFault {
    /// The bits are not as many as the circuit's inputs: so many are needed, and so many were given.
    #[error("{got} bits in place of {need}")]
    WrongLength { need: usize, got: usize },
    /// Memory ran out.
    #[error("memory is missing")]
    NoMemory,
}

impl From<AllocError> for EvalFault {
    ghost from_gives = { λ _ e. e ≡ fault.NoMemory };

    fn from(_: AllocError) -> Self {
        EvalFault::NoMemory
    }
}

/// The output bits that a circuit gives at these input bits: the only ones that satisfy it. A wrong number of bits is
/// told, memory or not.
pub fn eval(alloc: Global, circuit: &Circuit, bits: &[bool]) -> Result<Vec<bool>, EvalFault>
    ensures satisfies { IfOk result (λ outputs. Satisfies circuit.now bits.now outputs.items) }
    ensures only { IfOk result (λ outputs. AreOnlyOutputs circuit.now bits.now outputs.items) }
    ensures count { IfOk result (λ outputs. length outputs.items ≡ circuit.now.outputs) }
    ensures length { IfOk result (λ _. length bits.now ≡ circuit.now.inputs) }
    ensures cause { IfErr result (IsCause circuit.now bits.now) }
{
    one_outcome();
    let wires = eval_wires(alloc, circuit, bits)?;
    let outputs = wires[circuit.wires() - circuit.outputs()..].to_vec(alloc)?;
    Ok(outputs)
}

/// The bits of the output wires, among those of all wires.
pub fn output_bits<'a>(circuit: &Circuit, wires: &'a [bool]) -> &'a [bool]
    requires { length wires.now ≡ circuit.now.wires }
    ensures { result.now ≡ drop (output_wire circuit.now 0) wires.now }
{
    let first = circuit.wires() - circuit.outputs();
    let (_, outputs) = wires.split_at(first);
    outputs
}

/// One bit for each wire, the input bits first, such that every gate's truth table is met. A wire that is no input and
/// that no gate sets is 0. A wrong number of bits is told, memory or not.
pub fn eval_wires(alloc: Global, circuit: &Circuit, bits: &[bool]) -> Result<Vec<bool>, EvalFault>
    ensures wires { IfOk result (λ wires. AreWireBits circuit.now bits.now wires.items) }
    ensures unset { IfOk result (λ wires. LeavesUnset circuit.now wires.items) }
    ensures length { IfOk result (λ _. length bits.now ≡ circuit.now.inputs) }
    ensures cause { IfErr result (IsCause circuit.now bits.now) }
{
    let need = circuit.inputs();
    let got = bits.len();
    if need != got {
        return Err(EvalFault::WrongLength { need, got });
    }
    let mut wires = bits.to_vec(alloc)?;
    wires.resize(circuit.wires(), false)?;
    set_gates(circuit, &mut wires);
    Ok(wires)
}

/// Sets the bits after the inputs, gate by gate.
fn set_gates(circuit: &Circuit, bits: &mut [bool])
    requires whole { length bits.old ≡ circuit.now.wires }
    requires blank { AreBlankBehind circuit.now.inputs bits.old }
    ensures wires { AreWireBits circuit.now (take circuit.now.inputs bits.old) bits.new }
    ensures unset { LeavesUnset circuit.now bits.new }
{
    let _wires = circuit.wires();
    for i in 0..circuit.gates() {
        set_gate(bits, circuit.gate(i));
    }
}

/// Sets the bit of the wire that a gate sets, by its truth table.
fn set_gate(bits: &mut [bool], gate: GateRow)
    requires { HasWiresBelow (length bits.old) gate }
    ensures { bits.new ≡ slice_set bits.old (wire_set gate) (gate_bit bits.old gate) }
{
    match gate {
        GateRow::And { a, b, out } => bits[out as usize] = bits[a as usize] & bits[b as usize],
        GateRow::Xor { a, b, out } => bits[out as usize] = bits[a as usize] != bits[b as usize],
        GateRow::Inv { a, out } => bits[out as usize] = !bits[a as usize],
        GateRow::Eqw { a, out } => bits[out as usize] = bits[a as usize],
        GateRow::Eq { value, out } => bits[out as usize] = value,
    }
}
