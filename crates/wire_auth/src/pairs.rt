// The prover's side: values and MACs of all wires.
ghost use Rattle.std.specs.Prelude.{◌≡◌, ◌<◌, ◌≤◌, ℕ, List, length, take, IfOk, slice_get, Some};
ghost use Rattle.zk_model.specs.Program.{AreMade};
ghost use Rattle.zk_model.specs.Mac.{pair_at, values_of, macs_of, corrected_pairs};
ghost use Rattle.zk_model.specs.Check.{ArePairsOf, product_triple, opened_pairs};
ghost use Rattle.zk_model.specs.HonestProver.{honest_corrections};
ghost use Rattle.wire_auth.specs.Held.{items_in};
ghost use Rattle.zk_model.specs.declared.Product as zk;

use crate::carrying::{begun, follow, known};
use crate::corrections::value_corrections;
use crate::correlations::Correlations;
use crate::triples::Triple;
use crate::values::{carry_values, given_value};
use field_program::FieldProgram;
use mersenne_field::{Fe, Pair};
use std::alloc::{AllocError, Global};
use std::marker::Model;

/// The pairs, a value and its MAC, of a program's given values and of all its wires (Weng, Yang, Katz and Wang, Wolverine,
/// IEEE S&P 2021). It keeps the pairs of the session's correlations: the MAC of a given value is that of the pair that was
/// corrected to it.
#[derive(Debug, Drop)]
pub struct ProverWires<'a> {
    program: &'a FieldProgram,
    values: Vec<Fe>,
    dealt: Correlations<'a, Pair>,
    macs: Vec<Fe>,
}

impl<'a> Model for ProverWires<'a> {
    ghost use Rattle.std.specs.Prelude.{◌≡◌, ◌≤◌, length};
    ghost use Rattle.wire_auth.specs.Held.{items_in};
    ghost use Rattle.wire_auth.specs.Sides.{pairs_from};
    ghost use Rattle.wire_auth.specs.Sides as sides;

    ghost Value = { sides.ProverSide };

    ghost view = { λ w. record {
      program = w.program.now;
      dealt = items_in w.dealt;
      pairs = pairs_from w.program.now w.values.items (items_in w.dealt) w.macs.items;
    } };

    ghost invariant = { λ w. (length w.values.items ≡ w.program.now.wires)
        × (length w.macs.items ≡ w.program.now.wires)
        × (w.program.now.givens ≤ length (items_in w.dealt)) };
}

/// The MACs of pairs.
pub(crate) fn macs_of(alloc: Global, pairs: &[Pair]) -> Result<Vec<Fe>, AllocError>
    ensures { IfOk result (λ macs. macs.items ≡ macs_of pairs.now) }
{
    pairs.iter().map(|pair| pair.m).collect(alloc)
}

impl<'a> ProverWires<'a> {
    /// The pairs of all wires of a program with these public values and private inputs, and the corrections that turn the dealt
    /// pairs into ones of the given values: for each the value less the dealt one.
    ///
    /// The values of all wires are what the public values and the inputs make: each step sets its wire, and a given value beyond
    /// the inputs is the product of its two wires. `dealt` are the session's correlations, as many as `need` tells, or at
    /// least one for each given value.
    ///
    /// # Errors
    ///
    /// Only where memory runs out.
    pub fn run(
        alloc: Global,
        program: &'a FieldProgram,
        public: &[Fe],
        inputs: &[Fe],
        dealt: Correlations<'a, Pair>,
    ) -> Result<(ProverWires<'a>, Vec<Fe>), AllocError>
        requires public { length public.now ≡ program.now.public }
        requires inputs { length inputs.now ≡ program.now.inputs }
        requires dealt { program.now.givens ≤ length (items_in dealt) }
        ensures program { IfOk result (λ r. r.0.program ≡ program.now) }
        ensures dealt { IfOk result (λ r. r.0.dealt ≡ items_in dealt.entry) }
        ensures made { IfOk result (λ r. AreMade program.now public.now inputs.now
            (values_of r.0.pairs.wires) (values_of r.0.pairs.given)) }
        ensures corrections { IfOk result (λ r. r.1.items
            ≡ honest_corrections (values_of r.0.pairs.given) (items_in dealt.entry)) }
        ensures one_each { IfOk result (λ r. length r.1.items ≡ program.now.givens) }
        ensures given { IfOk result (λ r.
            r.0.pairs.given ≡ corrected_pairs (items_in dealt.entry) r.1.items) }
        ensures carried { IfOk result (λ r. ArePairsOf program.now public.now r.0.pairs) }
    {
        let values = carry_values(alloc, program, public, inputs)?;
        let corrections = value_corrections(alloc, program, &values, dealt.as_slice())?;
        let given = macs_of(alloc, &dealt.as_slice()[..program.givens()])?;
        let begun = begun(alloc, program, public, Fe::ZERO, &given[..program.inputs()])?;
        let macs = follow(program, Fe::ZERO, &given, begun);
        let side = ProverWires {
            program,
            values,
            dealt,
            macs,
        };
        Ok((side, corrections))
    }

    /// The program.
    pub fn program(&self) -> &'a FieldProgram
        ensures { result.now ≡ self.now.program }
    {
        self.program
    }

    /// The pairs of the session's correlations, as they were dealt.
    pub fn dealt(&self) -> &[Pair]
        ensures dealt { result.now ≡ self.now.dealt }
        ensures enough { self.now.program.givens ≤ length result.now }
    {
        self.dealt.as_slice()
    }

    /// The pair of a wire.
    fn wire(&self, wire: u32) -> Pair
        requires { wire < self.now.program.wires }
        ensures { result ≡ pair_at self.now.pairs.wires wire }
    {
        Pair {
            x: known(self.values[wire as usize]),
            m: known(self.macs[wire as usize]),
        }
    }

    /// The pairs of the factors of product i, and of its value.
    pub fn triple(&self, i: usize) -> Triple
        requires { i < length self.now.program.products }
        ensures { (product : zk.Product) → slice_get self.now.program.products i ≡ Some product
            → result ≡ product_triple self.now.pairs product }
    {
        let product = self.program.product(i);
        let dealt = self.dealt()[product.c as usize];
        Triple {
            a: self.wire(product.a),
            b: self.wire(product.b),
            c: Pair {
                x: given_value(self.program, &self.values, product),
                m: dealt.m,
            },
        }
    }

    /// The pair of opened wire o.
    pub fn output(&self, o: usize) -> Pair
        requires { o < length self.now.program.opened }
        ensures { result ≡ pair_at (opened_pairs self.now.program self.now.pairs) o }
    {
        self.wire(self.program.opened()[o])
    }
}
