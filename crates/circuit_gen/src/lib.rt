//! Circuits of any size, drawn from a number: a workload that is the same wherever it is made.
//!
//! `generate` gives a circuit's text, its input bits and its outputs. `draws` has the numbers that it is drawn from, `line` the
//! text of a gate, and `values` the bit that a gate gives.
//!
//!     let made = generate(alloc, 1000, 7)?;
//!     let circuit = read(alloc, &made.text)?;
#![tactic(auto)]

mod draws;
mod line;
mod values;

ghost use Rattle.std.specs.Prelude.{◌≡◌, ℕ, ◌≤◌, length, min, IfOk};
ghost use Rattle.zk_model.specs.Bristol.{IsText};
ghost use Rattle.zk_model.specs.Circuit.{Satisfies};
ghost use Rattle.circuit_gen.specs.Generated.{generated_bits, generated_circuit, generated_text, heading};

use crate::draws::Draws;
use crate::line::push_line;
use crate::values::gate_value;
use std::alloc::{AllocError, Global};
use zk_model::MAX_GENERATED_GATES;

/// How many inputs a generated circuit has.
const INPUTS: u32 = 64;

/// How many outputs it has at most.
const MAX_OUTPUTS: u32 = 32;

/// A circuit's text in Bristol Fashion, input bits for it, and the outputs that it gives at them.
#[derive(Debug, Drop)]
pub struct Generated {
    pub text: Vec<u8>,
    pub bits: Vec<bool>,
    pub outputs: Vec<bool>,
}

/// The circuit of so many gates that is drawn from a number, with its input bits and what it gives at them. It has 64
/// inputs, and its last 32 wires are outputs, or as many as there are gates. A linear congruential generator modulo
/// 2^64, with the constants of Knuth's MMIX, draws the bits and then each gate: XOR and AND three times in eight each,
/// INV and EQW once in eight each, of wires among all those before it.
///
/// # Errors
///
/// Only where memory runs out.
pub fn generate(alloc: Global, gates: u32, number: u64) -> Result<Generated, AllocError>
    requires { (1 ≤ gates) × (gates ≤ MAX_GENERATED_GATES) }
    ensures text { IfOk result (λ made. made.text.items ≡ generated_text gates number) }
    ensures says { IfOk result (λ made. IsText (generated_circuit gates number) made.text.items) }
    ensures bits { IfOk result (λ made. made.bits.items ≡ generated_bits number) }
    ensures inputs { IfOk result (λ made. length made.bits.items ≡ 64) }
    ensures satisfies { IfOk result (λ made.
        Satisfies (generated_circuit gates number) made.bits.items made.outputs.items) }
    ensures count { IfOk result (λ made. length made.outputs.items ≡ min gates 32) }
{
    let mut draws = Draws::new(number);
    let bits = draws.bits(alloc)?;
    let mut text = heading(alloc, gates)?;
    let mut wires = Vec::from_slice(alloc, &bits)?;
    for i in 0..gates {
        let gate = draws.gate(INPUTS + i);
        push_line(&mut text, gate)?;
        let value = gate_value(&wires, gate);
        wires.push(value)?;
    }
    let first = INPUTS + gates - gates.min(MAX_OUTPUTS);
    let outputs = Vec::from_slice(alloc, &wires[first as usize..])?;
    Ok(Generated {
        text,
        bits,
        outputs,
    })
}

/// The lines of a circuit's text before its gates.
fn heading(alloc: Global, gates: u32) -> Result<Vec<u8>, AllocError>
    requires { gates ≤ MAX_GENERATED_GATES }
    ensures { IfOk result (λ text. (number : ℕ) → text.items ≡ heading (generated_circuit gates number)) }
{
    let wires = INPUTS + gates;
    let outputs = gates.min(MAX_OUTPUTS);
    let text = format!(in alloc; "{gates} {wires}\n1 {INPUTS}\n1 {outputs}\n")?;
    Ok(text.into_bytes())
}
