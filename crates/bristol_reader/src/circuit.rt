// Circuits.
ghost use Rattle.std.specs.Prelude.{◌≡◌, ◌<◌, length, Some, slice_get, IfOk};
ghost use Rattle.bristol_reader.specs.Circuits.{circuit_of, IsCircuit};

use packed_gates::{GateRow, PackedGates};
use std::alloc::{AllocError, Global};
use std::marker::Model;

/// A circuit that was read: how many wires it has, how many of the first are inputs and of the last outputs,
/// and its gates in order. It is well formed, and within the limits of `read`.
#[derive(Debug, Drop)]
pub struct Circuit {
    wires: u32,
    inputs: u32,
    outputs: u32,
    gates: PackedGates,
}

impl Model for Circuit {
    ghost use Rattle.zk_model.specs.Circuit as model;
    ghost use Rattle.bristol_reader.specs.Circuits.{circuit_of, IsCircuit};

    ghost Value = { model.Circuit };

    ghost view = { λ c. circuit_of c.wires c.inputs c.outputs c.gates };

    ghost invariant = { λ c. IsCircuit (circuit_of c.wires c.inputs c.outputs c.gates) };
}

impl Circuit {
    /// The circuit of these counts and gates.
    pub(crate) fn new(wires: u32, inputs: u32, outputs: u32, gates: PackedGates) -> Circuit
        requires { IsCircuit (circuit_of wires inputs outputs gates) }
        ensures { result ≡ circuit_of wires inputs outputs gates }
    {
        Circuit {
            wires,
            inputs,
            outputs,
            gates,
        }
    }

    /// How many wires there are.
    pub fn wires(&self) -> usize
        ensures count { result ≡ self.now.wires }
        ensures rules { IsCircuit self.now }
    {
        self.wires as usize
    }

    /// How many of the first wires are inputs.
    pub fn inputs(&self) -> usize
        ensures { result ≡ self.now.inputs }
    {
        self.inputs as usize
    }

    /// How many of the last wires are outputs.
    pub fn outputs(&self) -> usize
        ensures { result ≡ self.now.outputs }
    {
        self.outputs as usize
    }

    /// How many gates there are.
    pub fn gates(&self) -> usize
        ensures { result ≡ length self.now.gates }
    {
        self.gates.len()
    }

    /// The gate of this number, from 0.
    #[inline(always)]
    pub fn gate(&self, i: usize) -> GateRow
        requires { i < length self.now.gates }
        ensures { slice_get self.now.gates i ≡ Some result }
    {
        self.gates.get(i)
    }

    /// The same circuit once more.
    ///
    /// # Errors
    ///
    /// Only where memory runs out.
    pub fn copied(&self, alloc: Global) -> Result<Circuit, AllocError>
        ensures { IfOk result (λ circuit. circuit ≡ self.now) }
    {
        let gates = self.gates.copied(alloc)?;
        Ok(Circuit {
            wires: self.wires,
            inputs: self.inputs,
            outputs: self.outputs,
            gates,
        })
    }

    /// The gates alone, in the form in which a program has its steps.
    pub fn into_gates(self) -> PackedGates
        ensures { result ≡ self.gates }
    {
        self.gates
    }
}
