// The verifier's side: keys of all wires.
ghost use Rattle.std.specs.Prelude.{◌≡◌, ◌<◌, ◌≤◌, ◌+◌, ℕ, List, length, map, take, drop, All, IfOk, slice_index, slice_get, Some};
ghost use Rattle.zk_model.specs.Mac.{corrected_keys};
ghost use Rattle.zk_model.specs.Check.{AreKeysFor, key_triple};
ghost use Rattle.zk_model.specs.declared.Product as zk;

use crate::carrying::{begun, follow, known};
use crate::triples::KeyTriple;
use field_program::FieldProgram;
use mersenne_field::Fe;
use std::alloc::{AllocError, Global};
use std::marker::Model;

/// The keys of a program's given values and of all its wires. Under the verifier's one key a value x with the MAC m has the
/// key `m + x * key` (Weng, Yang, Katz and Wang, Wolverine, IEEE S&P 2021). A given value has the dealt key, with its
/// correction times the one key added.
#[derive(Debug, Drop)]
pub struct VerifierWires<'a> {
    program: &'a FieldProgram,
    given: Vec<Fe>,
    wires: Vec<Fe>,
}

impl<'a> Model for VerifierWires<'a> {
    ghost use Rattle.std.specs.Prelude.{◌≡◌, length};
    ghost use Rattle.wire_auth.specs.Sides as sides;

    ghost Value = { sides.VerifierSide };

    ghost view = { λ w. record {
      program = w.program.now;
      keys = record { given = w.given.items; wires = w.wires.items };
    } };

    ghost invariant = { λ w. (length w.given.items ≡ w.program.now.givens)
        × (length w.wires.items ≡ w.program.now.wires) };
}

/// As many keys as there are corrections, each with its correction times the one key added.
#[tactic(auto, using(crate::proofs::Lengths::counted_keys))]
pub(crate) fn corrected(
    alloc: Global,
    keys: &[Fe],
    corrections: &[Fe],
    key: Fe,
) -> Result<Vec<Fe>, AllocError>
    requires { length corrections.now ≤ length keys.now }
    ensures keys { IfOk result (λ v. v.items ≡ corrected_keys key keys.now corrections.now) }
    ensures count { IfOk result (λ v. length v.items ≡ length corrections.now) }
{
    keys.iter()
        .zip(corrections)
        .map(|(k, correction)| *k + *correction * key)
        .collect(alloc)
}

impl<'a> VerifierWires<'a> {
    /// The keys of all wires of a program with these public values, under the verifier's one key: those of the given values
    /// are the dealt ones, as the corrections leave them.
    ///
    /// `keys` are those of the session's correlations, as many as `need` tells, or at least one for each given value; there
    /// is one correction for each given value.
    ///
    /// # Errors
    ///
    /// Only where memory runs out.
    pub fn run(
        alloc: Global,
        program: &'a FieldProgram,
        public: &[Fe],
        keys: &[Fe],
        key: Fe,
        corrections: &[Fe],
    ) -> Result<VerifierWires<'a>, AllocError>
        requires public { length public.now ≡ program.now.public }
        requires keys { program.now.givens ≤ length keys.now }
        requires corrections { length corrections.now ≡ program.now.givens }
        ensures program { IfOk result (λ w. w.program ≡ program.now) }
        ensures given { IfOk result (λ w. w.keys.given ≡ corrected_keys key keys.now corrections.now) }
        ensures carried { IfOk result (λ w. AreKeysFor key program.now public.now w.keys) }
    {
        let given = corrected(alloc, keys, corrections, key)?;
        let begun = begun(alloc, program, public, key, &given[..program.inputs()])?;
        let wires = follow(program, key, &given, begun);
        Ok(VerifierWires {
            program,
            given,
            wires,
        })
    }

    /// The program.
    pub fn program(&self) -> &'a FieldProgram
        ensures { result.now ≡ self.now.program }
    {
        self.program
    }

    /// The keys of the factors of product i, and of its value.
    pub fn triple(&self, i: usize) -> KeyTriple
        requires { i < length self.now.program.products }
        ensures { (product : zk.Product) → slice_get self.now.program.products i ≡ Some product
            → result ≡ key_triple self.now.keys product }
    {
        let product = self.program.product(i);
        KeyTriple {
            a: self.wires[product.a as usize],
            b: self.wires[product.b as usize],
            c: known(self.given[product.c as usize]),
        }
    }

    /// The key of opened wire o.
    pub fn output(&self, o: usize) -> Fe
        requires { o < length self.now.program.opened }
        ensures { result ≡ slice_index self.now.keys.wires (slice_index self.now.program.opened o) }
    {
        self.wires[self.program.opened()[o] as usize]
    }
}
