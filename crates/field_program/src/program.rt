// Programs over the field.
ghost use Rattle.std.specs.Prelude.{◌≡◌, ◌≤◌, ◌<◌, ◌+◌, ◌^◌, length, slice_get, All, Some};
ghost use Rattle.zk_model.specs.Boolean.{bit_check};
ghost use Rattle.zk_model.specs.Program.{section_count, correlations_needed};
ghost use Rattle.field_program.specs.Counts.{unchecked};
ghost use Rattle.field_program.specs.Programs.{IsSmallProgram, program_of};
ghost use Rattle.field_program.specs.Rules.{HasFactors};
ghost use Rattle.field_program.specs.Steps.{step_equation};
ghost use Rattle.packed_gates.specs.PackedSteps.{IsRule};

use crate::packed::step_of;
use crate::step::Step;
use packed_gates::{Factors, PackedStep, Tables};
use std::marker::Model;
use zk_model::Product;

/// A program over the field: linear equations of wires, and products to be checked (Yang, Sarkar, Weng and Wang,
/// QuickSilver, ACM CCS 2021). It is well formed: wires are set before they are read, and once. It takes 12 bytes for each
/// step, and 8 for each product that is no bit check, for each sum and for each constant. All private inputs are checked to be bits, or none
/// are. Each given value but those of inputs that are not checked is that of a product, in order: the first are the bit checks, the others
/// are those that steps take.
#[derive(Debug, Drop)]
pub struct FieldProgram {
    wires: u32,
    public: u32,
    inputs: u32,
    unchecked: u32,
    rules: Vec<PackedStep>,
    tables: Tables,
    opened: Vec<u32>,
}

impl Model for FieldProgram {
    ghost use Rattle.zk_model.specs.Program as model;

    ghost Value = { model.Program };

    ghost use Rattle.std.specs.Prelude.{◌≤◌, All};
    ghost use Rattle.field_program.specs.Programs.{IsSmallProgram, program_of};
    ghost use Rattle.packed_gates.specs.PackedSteps.{IsRule};

    ghost view = { λ p. program_of p.wires p.public p.inputs p.unchecked
        p.rules.items p.tables p.opened.items };

    ghost invariant = { λ p. IsSmallProgram (program_of p.wires p.public p.inputs p.unchecked
        p.rules.items p.tables p.opened.items) × All (IsRule p.tables) p.rules.items
        × (p.unchecked ≤ p.inputs) };
}

impl FieldProgram {
    /// How many steps there are.
    pub fn steps(&self) -> usize
        ensures count { result ≡ length self.now.steps }
        ensures held { IsSmallProgram self.now }
    {
        self.rules.len()
    }

    /// Step k, in the order in which they set wires.
    pub fn step(&self, k: usize) -> Step
        requires { k < length self.now.steps }
        ensures step { slice_get self.now.steps k ≡ Some (step_equation result) }
        ensures factors { HasFactors self.now result }
        ensures held { IsSmallProgram self.now }
    {
        step_of(self.rules[k], self.inputs, &self.tables)
    }

    /// How many products are to be checked.
    #[inline(always)]
    pub fn products(&self) -> usize
        ensures count { result ≡ length self.now.products }
        ensures held { IsSmallProgram self.now }
    {
        self.givens() - self.unchecked()
    }

    /// Product i, in order.
    pub fn product(&self, i: usize) -> Product
        requires { i < length self.now.products }
        ensures product { slice_get self.now.products i ≡ Some result }
        ensures held { IsSmallProgram self.now }
    {
        let inputs = self.inputs as usize;
        let c = self.unchecked as usize + i;
        if c < inputs {
            return bit_check(self.public, c as u32);
        }
        let Factors { a, b } = self.tables.factors[c - inputs];
        Product { a, b, c: c as u32 }
    }

    /// The wires that are opened, in order.
    pub fn opened(&self) -> &[u32]
        ensures opened { result.now ≡ self.now.opened }
        ensures held { IsSmallProgram self.now }
    {
        &self.opened
    }

    /// How many wires there are.
    pub fn wires(&self) -> usize
        ensures count { result ≡ self.now.wires }
        ensures held { IsSmallProgram self.now }
    {
        self.wires as usize
    }

    /// How many of the first wires are public.
    pub fn public(&self) -> usize
        ensures count { result ≡ self.now.public }
        ensures held { IsSmallProgram self.now }
    {
        self.public as usize
    }

    /// How many of the wires after the public ones are private inputs.
    pub fn inputs(&self) -> usize
        ensures count { result ≡ self.now.inputs }
        ensures held { IsSmallProgram self.now }
    {
        self.inputs as usize
    }

    /// How many of the inputs, the first of the given values, have no product: none where inputs are checked to be bits, and else all.
    #[inline(always)]
    pub fn unchecked(&self) -> usize
        ensures count { result ≡ unchecked self.now }
        ensures held { IsSmallProgram self.now }
    {
        self.unchecked as usize
    }

    /// How many values are given: each takes a correlation.
    #[inline(always)]
    pub fn givens(&self) -> usize
        ensures count { result ≡ self.now.givens }
        ensures held { IsSmallProgram self.now }
    {
        self.inputs as usize + self.tables.factors.len()
    }

    /// The sections of this many products that the products make: their number by the section's length, rounded up.
    pub fn sections(&self, g: u64) -> u64
        requires { 1 ≤ g }
        ensures { result ≡ section_count self.now g }
    {
        (self.products() as u64).div_ceil(g)
    }

    /// The correlations of a session with sections of this many products: one for each given value, and one mask for
    /// each section.
    pub fn need(&self, g: u64) -> u64
        requires { 1 ≤ g }
        ensures { result ≡ correlations_needed self.now g }
    {
        self.givens() as u64 + self.sections(g)
    }

    /// A program of these parts, which is well formed: the products are the bit checks of the inputs but the first `unchecked`, and those
    /// whose factors are in the tables.
    pub fn from_parts(
        wires: u32,
        public: u32,
        inputs: u32,
        unchecked: u32,
        rules: Vec<PackedStep>,
        tables: Tables,
        opened: Vec<u32>,
    ) -> Self
        requires held { IsSmallProgram (program_of wires public inputs unchecked
            rules.items tables opened.items) }
        requires rules { All (IsRule tables) rules.items }
        requires unchecked { unchecked ≤ inputs }
        ensures { result ≡ program_of wires public inputs unchecked rules.items tables opened.items }
    {
        FieldProgram {
            wires,
            public,
            inputs,
            unchecked,
            rules,
            tables,
            opened,
        }
    }
}

/// The bit check of an input behind so many public ones.
#[inline(always)]
fn bit_check(public: u32, i: u32) -> Product
    requires { public + i < 2 ^ 32 }
    ensures { result ≡ bit_check public i }
{
    let wire = public + i;
    Product {
        a: wire,
        b: wire,
        c: i,
    }
}
