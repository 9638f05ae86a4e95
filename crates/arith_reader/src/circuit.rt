// Arithmetic circuits.
ghost use Rattle.std.specs.Prelude.{◌≡◌, ◌<◌, length, Some, slice_get};
ghost use Rattle.zk_model.specs.ArithTexts.{IsArith};
ghost use Rattle.arith_reader.specs.Circuits.{circuit_of};

use packed_gates::{ArithRow, PackedRows};
use std::marker::Model;

/// An arithmetic circuit that was read: how many wires it has, how many of the first are inputs and of the last outputs, and its
/// gates in order. Each wire has one element, an integer modulo 2^61 - 1. It is well formed, and within the limits of `read`.
#[derive(Debug, Drop)]
pub struct Arith {
    wires: u32,
    inputs: u32,
    outputs: u32,
    gates: PackedRows,
}

impl Model for Arith {
    ghost use Rattle.zk_model.specs.Arithmetic as model;
    ghost use Rattle.zk_model.specs.ArithTexts.{IsArith};
    ghost use Rattle.arith_reader.specs.Circuits.{circuit_of};

    ghost Value = { model.Arith };

    ghost view = { λ c. circuit_of c.wires c.inputs c.outputs c.gates };

    ghost invariant = { λ c. IsArith (circuit_of c.wires c.inputs c.outputs c.gates) };
}

impl Arith {
    /// The circuit of these counts and gates.
    pub(crate) fn new(wires: u32, inputs: u32, outputs: u32, gates: PackedRows) -> Arith
        requires { IsArith (circuit_of wires inputs outputs gates) }
        ensures { result ≡ circuit_of wires inputs outputs gates }
    {
        Arith {
            wires,
            inputs,
            outputs,
            gates,
        }
    }

    /// How many wires there are.
    pub fn wires(&self) -> usize
        ensures count { result ≡ self.now.wires }
        ensures rules { IsArith self.now }
    {
        self.wires as usize
    }

    /// How many of the first wires are inputs.
    pub fn inputs(&self) -> usize
        ensures { result ≡ self.now.inputs }
    {
        self.inputs as usize
    }

    /// How many of the last wires are outputs.
    pub fn outputs(&self) -> usize
        ensures { result ≡ self.now.outputs }
    {
        self.outputs as usize
    }

    /// How many gates there are.
    pub fn gates(&self) -> usize
        ensures { result ≡ length self.now.gates }
    {
        self.gates.len()
    }

    /// The gate of this number, from 0.
    #[inline(always)]
    pub fn gate(&self, i: usize) -> ArithRow
        requires { i < length self.now.gates }
        ensures { slice_get self.now.gates i ≡ Some result }
    {
        self.gates.get(i)
    }

    /// The gates alone, in the form in which a program has its steps.
    pub fn into_rows(self) -> PackedRows
        ensures { result ≡ self.gates }
    {
        self.gates
    }
}
