// The gates of a circuit.
ghost use Rattle.std.specs.Prelude.{◌≡◌, ◌+◌, ◌<◌, ◌^◌, ◌++◌, ◌∷◌, [], length, slice_get, Some, IfOk, OnOk, vec_capacity};
ghost use Rattle.packed_gates.specs.PackedSteps.{ArePacked, gate_factors, gates_of};

use crate::packed::{Factors, PackedStep, gate_of, gate_rule};
use std::alloc::{AllocError, Global};
use std::marker::Model;
use zk_model::GateRow;

/// Gates in order: 12 bytes for each, and 8 more for an AND or an XOR. Contracts see the list of the gates.
#[derive(Debug, Drop)]
pub struct PackedGates {
    rules: Vec<PackedStep>,
    factors: Vec<Factors>,
}

impl Model for PackedGates {
    ghost use Rattle.std.specs.Prelude.{List};
    ghost use Rattle.packed_gates.specs.PackedSteps.{ArePacked, gates_of};
    ghost use Rattle.zk_model.specs.declared.GateRow as row;

    ghost Value = { List row.GateRow };

    ghost view = { λ g. gates_of g.factors.items g.rules.items };

    ghost invariant = { λ g. ArePacked (gates_of g.factors.items g.rules.items)
        g.rules.items g.factors.items };
}

/// Appends the factors of a gate's product, if it has one, where there is room for them.
#[inline(always)]
fn push_factors(factors: &mut Vec<Factors>, gate: GateRow)
    requires { length factors.old.items < vec_capacity factors.old }
    ensures { factors.new.items ≡ factors.old.items ++ gate_factors gate }
{
    match gate {
        GateRow::And { a, b, .. } | GateRow::Xor { a, b, .. } => {
            factors.push_reserved(Factors { a, b });
        }
        GateRow::Inv { .. } | GateRow::Eqw { .. } | GateRow::Eq { .. } => {}
    }
}

impl PackedGates {
    /// No gates, with room for so many.
    ///
    /// # Errors
    ///
    /// Only where memory runs out.
    pub fn with_capacity(alloc: Global, gates: usize) -> Result<Self, AllocError>
        ensures { IfOk result (λ g. g ≡ []) }
    {
        let rules = Vec::with_capacity(alloc, gates)?;
        let factors = Vec::with_capacity(alloc, gates)?;
        Ok(PackedGates { rules, factors })
    }

    /// Appends a gate.
    ///
    /// # Errors
    ///
    /// Only where memory runs out; the gates are as before then.
    #[inline(always)]
    pub fn push(&mut self, gate: GateRow) -> Result<(), AllocError>
        requires { length self.old < 2 ^ 32 }
        ensures { OnOk result (self.new ≡ self.old ++ gate ∷ []) }
    {
        self.rules.reserve(1)?;
        self.factors.reserve(1)?;
        let number = self.factors.len() as u32;
        self.rules.push_reserved(gate_rule(gate, number));
        push_factors(&mut self.factors, gate);
        Ok(())
    }

    /// How many gates there are.
    pub fn len(&self) -> usize
        ensures { result ≡ length self.now }
    {
        self.rules.len()
    }

    /// The gate of this number, from 0.
    #[inline(always)]
    pub fn get(&self, i: usize) -> GateRow
        requires { i < length self.now }
        ensures { slice_get self.now i ≡ Some result }
    {
        gate_of(self.rules[i], &self.factors)
    }

    /// The same gates once more.
    ///
    /// # Errors
    ///
    /// Only where memory runs out.
    pub fn copied(&self, alloc: Global) -> Result<Self, AllocError>
        ensures { IfOk result (λ g. g ≡ self.now) }
    {
        let rules = self.rules.to_vec(alloc)?;
        let factors = self.factors.to_vec(alloc)?;
        Ok(PackedGates { rules, factors })
    }

    /// The rules of the gates, and the factors of their products.
    pub fn into_parts(self) -> (Vec<PackedStep>, Vec<Factors>)
        ensures { ArePacked self result.0.items result.1.items }
    {
        (self.rules, self.factors)
    }
}
