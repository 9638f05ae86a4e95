// The gates of a circuit's text.
ghost use Rattle.std.specs.Prelude.{◌≡◌, ◌≤◌, ◌^◌, IfOk, IfErr, IfSome, IfNone, length};
ghost use Rattle.zk_model.specs.Circuit.{wire_set};
ghost use Rattle.bristol_reader.specs.Bodies.{AreOutputsSet, BodyCause, IsBody, IsUnsetOutput};
ghost use Rattle.zk_model.specs.declared.limits.TheConstants.{MAX_WIRES};

use crate::fault::ReadError;
use crate::gate::read_gate;
use crate::header::Header;
use crate::set_wires::SetWires;
use crate::tokens::Tokens;
use packed_gates::{GateRow, PackedGates};
use std::alloc::Global;
use zk_model::ReadFault;

/// The wire that a gate sets.
#[inline(always)]
fn out_wire(gate: GateRow) -> u32
    ensures { result ≡ wire_set gate }
{
    match gate {
        GateRow::And { out, .. }
        | GateRow::Xor { out, .. }
        | GateRow::Inv { out, .. }
        | GateRow::Eqw { out, .. }
        | GateRow::Eq { out, .. } => out,
    }
}

/// The first of the last `outputs` wires that is not set.
fn unset_output(set: &[bool], outputs: u32) -> Option<u32>
    requires some_outputs { outputs ≤ length set.now }
    requires bounded { length set.now ≤ MAX_WIRES }
    ensures unset { IfSome result (IsUnsetOutput set.now outputs) }
    ensures none { IfNone result (AreOutputsSet set.now outputs) }
{
    let first = set.len() - outputs as usize;
    for (i, is_set) in set[first..].iter().enumerate() {
        if !*is_set {
            return Some((first + i) as u32);
        }
    }
    None
}

/// Takes the gates and the end of the text.
pub fn read_body(
    alloc: Global,
    tokens: &mut Tokens,
    header: Header,
) -> Result<PackedGates, ReadError>
    requires inputs { header.inputs ≤ header.wires }
    requires outputs { header.outputs ≤ header.wires }
    requires bounded { header.wires ≤ MAX_WIRES }
    ensures found { IfOk result (λ gates. IsBody header tokens.old gates) }
    ensures cause { IfErr result (BodyCause header tokens.old) }
{
    let mut set = SetWires::of_inputs(alloc, header.wires, header.inputs)?;
    let mut gates = PackedGates::with_capacity(alloc, header.gates as usize)?;
    'gates: for _ in 0..header.gates {
        let gate = read_gate(tokens, &set)?;
        gates.push(gate)?;
        set.insert(out_wire(gate));
    }
    tokens.end()?;
    if let Some(wire) = unset_output(set.as_slice(), header.outputs) {
        return Err(ReadFault::OutputUnset { wire }.into());
    }
    Ok(gates)
}
