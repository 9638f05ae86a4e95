// The bit that a gate gives.
ghost use Rattle.std.specs.Prelude.{◌≡◌, [], ◌∷◌, ◌++◌, length};
ghost use Rattle.zk_model.specs.Circuit.{MeetsGate, wire_set};
ghost use Rattle.circuit_gen.specs.Lines.{ReadsEarlier};

use zk_model::GateRow;

/// The bit of the next wire, which a gate sets, from those of all wires before it.
#[inline]
pub fn gate_value(wires: &[bool], gate: GateRow) -> bool
    requires sets { wire_set gate ≡ length wires.now }
    requires reads { ReadsEarlier gate }
    ensures { MeetsGate (wires.now ++ result ∷ []) gate }
{
    match gate {
        GateRow::And { a, b, .. } => wires[a as usize] & wires[b as usize],
        GateRow::Xor { a, b, .. } => wires[a as usize] != wires[b as usize],
        GateRow::Inv { a, .. } => !wires[a as usize],
        GateRow::Eqw { a, .. } => wires[a as usize],
        GateRow::Eq { value, .. } => value,
    }
}
