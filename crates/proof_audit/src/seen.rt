// The values and MACs of all wires, as the prover's pairs and its corrections fix them.
ghost use Rattle.std.specs.Prelude.{◌≡◌, ◌↔◌, ◌<◌, ◌≤◌, length, All, IfOk, IsTrue, slice_get, Some};
ghost use Rattle.zk_model.specs.Field.{IsElement};
ghost use Rattle.zk_model.specs.Mac.{pair_at, values_of, macs_of, corrected_pairs};
ghost use Rattle.zk_model.specs.Check.{ArePairsOf, error_polynomial, opened_pairs, product_error, product_triple, section_triples};
ghost use Rattle.zk_model.specs.Polynomial.{IsZero};
ghost use Rattle.zk_model.specs.Program.{section_count};
ghost use Rattle.zk_model.specs.declared.Product as zk;
ghost use Rattle.proof_audit.specs.SeenValues.{corrected_values};

use crate::values::values_of;
use field_program::FieldProgram;
use mersenne_field::{Fe, Pair};
use session_core::Statement;
use std::alloc::{AllocError, Global};
use std::marker::Model;
use wire_auth::{KeyTriple, Triple, VerifierWires};

/// The values and the MACs of a session's wires, which follow from the pairs and the corrections as keys follow under one key: values
/// under the key 1, MACs under the key 0.
#[derive(Drop)]
pub(crate) struct SeenWires<'a> {
    values: VerifierWires<'a>,
    macs: VerifierWires<'a>,
}

impl<'a> Model for SeenWires<'a> {
    ghost use Rattle.proof_audit.specs.SeenWires as seen;

    ghost Value = { seen.SeenSide };

    ghost view = { λ w. record {
      program = w.values.program;
      pairs = seen.joined_pairs w.values.keys w.macs.keys;
    } };

    ghost invariant = { λ w. seen.AreSideBySide w.values w.macs };
}

/// So many first values of pairs, each with its correction added.
pub(crate) fn corrected_values(
    alloc: Global,
    pairs: &[Pair],
    corrections: &[Fe],
    count: usize,
) -> Result<Vec<Fe>, AllocError>
    ensures { IfOk result (λ values. values.items ≡ corrected_values count pairs.now corrections.now) }
{
    pairs
        .iter()
        .zip(corrections)
        .take(count)
        .map(|(pair, correction)| pair.x + *correction)
        .collect(alloc)
}

/// The MACs of pairs.
fn macs_of(alloc: Global, pairs: &[Pair]) -> Result<Vec<Fe>, AllocError>
    ensures { IfOk result (λ macs. macs.items ≡ macs_of pairs.now) }
{
    pairs.iter().map(|pair| pair.m).collect(alloc)
}

impl<'a> SeenWires<'a> {
    /// The wires of a statement's program that these pairs and corrections fix: at least one pair, and one correction, for each given
    /// value.
    ///
    /// # Errors
    ///
    /// Only where memory runs out.
    pub fn see(
        alloc: Global,
        statement: &Statement<'a>,
        pairs: &[Pair],
        corrections: &[Fe],
    ) -> Result<Self, AllocError>
        requires pairs { statement.now.program.givens ≤ length pairs.now }
        requires corrections { length corrections.now ≡ statement.now.program.givens }
        requires elements { All (λ pair. IsElement pair.x × IsElement pair.m) pairs.now }
        ensures program { IfOk result (λ w. w.program ≡ statement.now.program) }
        ensures given { IfOk result (λ w. w.pairs.given ≡ corrected_pairs pairs.now corrections.now) }
        ensures carried { IfOk result (λ w. ArePairsOf statement.now.program statement.now.public w.pairs) }
    {
        let program = statement.program();
        let public = statement.public();
        let xs = values_of(alloc, pairs)?;
        let values = VerifierWires::run(alloc, program, public, &xs, Fe::ONE, corrections)?;
        let ms = macs_of(alloc, pairs)?;
        let macs = VerifierWires::run(alloc, program, public, &ms, Fe::ZERO, corrections)?;
        Ok(SeenWires { values, macs })
    }

    /// The program.
    pub fn program(&self) -> &FieldProgram
        ensures { result.now ≡ self.now.program }
    {
        self.values.program()
    }

    /// The pairs of the factors of product i, and of its value.
    fn triple(&self, i: usize) -> Triple
        requires { i < length self.now.program.products }
        ensures { (product : zk.Product) → slice_get self.now.program.products i ≡ Some product
            → result ≡ product_triple self.now.pairs product }
    {
        let values = self.values.triple(i);
        let macs = self.macs.triple(i);
        Triple {
            a: Pair {
                x: values.a,
                m: macs.a,
            },
            b: Pair {
                x: values.b,
                m: macs.b,
            },
            c: Pair {
                x: values.c,
                m: macs.c,
            },
        }
    }

    /// The pair of opened wire o.
    pub fn output(&self, o: usize) -> Pair
        requires { o < length self.now.program.opened }
        ensures { result ≡ pair_at (opened_pairs self.now.program self.now.pairs) o }
    {
        Pair {
            x: self.values.output(o),
            m: self.macs.output(o),
        }
    }

    /// The pairs of the products of section s, where a section has g.
    ///
    /// # Errors
    ///
    /// Only where memory runs out.
    pub fn section(&self, alloc: Global, g: u64, s: usize) -> Result<Vec<Triple>, AllocError>
        requires some { 1 ≤ g }
        requires there { s < section_count self.now.program g }
        ensures { IfOk result (λ triples. triples.items
            ≡ section_triples self.now.program g self.now.pairs s) }
    {
        let products = self.values.program().products();
        let g = g as usize;
        let first = s * g;
        let count = g.min(products - first);
        let mut triples = Vec::with_capacity(alloc, count)?;
        for i in first..first + count {
            triples.push(self.triple(i))?;
        }
        Ok(triples)
    }

    /// How far product i is from that of its factors.
    fn error(&self, i: usize) -> Fe
        requires { i < length self.now.program.products }
        ensures { (product : zk.Product) → slice_get self.now.program.products i ≡ Some product
            → result ≡ product_error (product_triple self.now.pairs product) }
    {
        let KeyTriple { a, b, c } = self.values.triple(i);
        a * b - c
    }

    /// Whether each product of section s is that of its factors, where a section has g.
    pub fn is_right(&self, g: u64, s: usize) -> bool
        requires some { 1 ≤ g }
        requires there { s < section_count self.now.program g }
        ensures { IsTrue result
            ↔ IsZero (error_polynomial (section_triples self.now.program g self.now.pairs s)) }
    {
        let products = self.values.program().products();
        let g = g as usize;
        let first = s * g;
        let count = g.min(products - first);
        for i in first..first + count {
            if self.error(i) != Fe::ZERO {
                return false;
            }
        }
        true
    }
}
