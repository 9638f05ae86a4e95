// The prover's pairs, one product after another.
ghost use Rattle.std.specs.Prelude.{◌≡◌, ◌+◌, ◌<◌, ◌≤◌, ◌++◌, ℕ, List, Some, None, length, map, min, slice_get, slice_index, IfOk};
ghost use Rattle.zk_model.specs.Check.{opened_pairs, product_triple};
ghost use Rattle.zk_model.specs.Field.{◌*ₚ◌};
ghost use Rattle.zk_model.specs.Mac.{values_of, macs_of, pair_at};
ghost use Rattle.zk_model.specs.Slots.{IsPlanOf};
ghost use Rattle.zk_model.specs.declared.Product as zk;
ghost use Rattle.field_program.specs.Programs.{IsSmallProgram};
ghost use Rattle.wire_auth.specs.Sides.{joined};
ghost use Rattle.wire_auth.specs.Values.{given_value};
ghost use Rattle.wire_auth.specs.Walks.{side_made};

use crate::carrying::first_numbers;
use crate::pairs::macs_of;
use crate::triples::Triple;
use crate::walking::StepWalk;
use field_program::{FieldProgram, SlotPlan};
use mersenne_field::{Fe, Pair};
use std::alloc::{AllocError, Global};
use std::marker::Model;

/// The pairs that `ProverWires` has, one product after another (Weng, Yang, Katz and Wang, Wolverine, IEEE S&P 2021; Yang, Sarkar, Weng
/// and Wang, QuickSilver, ACM CCS 2021). It holds those of the wires that are live at a step, and no more than a plan has slots.
#[derive(Debug, Drop)]
pub struct ProverWalk<'a> {
    public: &'a [Fe],
    inputs: &'a [Fe],
    dealt: &'a [Pair],
    pairs: StepWalk<'a, Pair>,
}

impl<'a> Model for ProverWalk<'a> {
    ghost use Rattle.wire_auth.specs.Walks as walks;
    ghost use Rattle.wire_auth.specs.Walks.{IsProverWalk, side_made};

    ghost Value = { walks.ProverWalking };

    ghost view = { λ w. record {
      side = side_made w.pairs.program w.public.now w.inputs.now w.dealt.now;
      met = w.pairs.met;
    } };

    ghost invariant = { λ w. IsProverWalk w.pairs.program w.public.now w.inputs.now w.dealt.now
        w.pairs };
}

impl<'a> ProverWalk<'a> {
    /// A walk along a program with these public values and private inputs, that has given no product yet. `dealt` are the session's
    /// correlations, at least one for each given value; the plan is that of the program.
    ///
    /// # Errors
    ///
    /// Only where memory runs out.
    pub fn new(
        alloc: Global,
        program: &'a FieldProgram,
        plan: &'a SlotPlan,
        public: &'a [Fe],
        inputs: &'a [Fe],
        dealt: &'a [Pair],
    ) -> Result<ProverWalk<'a>, AllocError>
        requires plan { IsPlanOf program.now plan.now }
        requires public { length public.now ≡ program.now.public }
        requires inputs { length inputs.now ≡ program.now.inputs }
        requires dealt { program.now.givens ≤ length dealt.now }
        ensures { IfOk result (λ walk. walk ≡ record {
          side = side_made program.now public.now inputs.now dealt.now;
          met = 0;
        }) }
    {
        let _products = program.products();
        let first = first_pairs(alloc, public, inputs, &dealt[..program.inputs()])?;
        let one = Pair {
            x: Fe::ONE,
            m: Fe::ZERO,
        };
        let pairs = StepWalk::new(program, plan, one, first)?;
        Ok(ProverWalk {
            public,
            inputs,
            dealt,
            pairs,
        })
    }

    /// The program.
    pub fn program(&self) -> &'a FieldProgram
        ensures { result.now ≡ self.now.side.program }
    {
        self.pairs.program()
    }

    /// How many products the program has, whose pairs `next` gives.
    pub fn products(&self) -> usize
        ensures count { result ≡ length self.now.side.program.products }
        ensures held { IsSmallProgram self.now.side.program }
    {
        self.pairs.program().products()
    }

    /// The pairs of the factors of the next product, and of its value; none after the last.
    pub fn next(&mut self) -> Option<Triple>
        ensures some { (product : zk.Product)
            → slice_get self.old.side.program.products self.old.met ≡ Some product
            → result ≡ Some (product_triple self.old.side.pairs product) }
        ensures none { length self.old.side.program.products ≤ self.old.met → result ≡ None }
        ensures side { self.new.side ≡ self.old.side }
        ensures met { self.new.met
            ≡ min (self.old.met + 1) (length self.old.side.program.products) }
    {
        let program = self.pairs.program();
        let _products = program.products();
        let next = self.pairs.next_given();
        let (a, b) = self.pairs.factors()?;
        let c = Pair {
            x: given_number(program, next, a.x, b.x),
            m: dealt_mac(self.dealt, next),
        };
        self.pairs.meet(c);
        Some(Triple { a, b, c })
    }

    /// The pair of opened wire o, after the last product.
    pub fn output(&self, o: usize) -> Pair
        requires done { length self.now.side.program.products ≤ self.now.met }
        requires there { o < length self.now.side.program.opened }
        ensures { result ≡ pair_at (opened_pairs self.now.side.program self.now.side.pairs) o }
    {
        let _opened = self.pairs.program().opened();
        self.pairs.opened(o)
    }
}

/// Values and MACs, one by one.
fn joined(alloc: Global, values: &[Fe], macs: &[Fe]) -> Result<Vec<Pair>, AllocError>
    ensures { IfOk result (λ pairs. pairs.items ≡ joined values.now macs.now) }
{
    values
        .iter()
        .zip(macs)
        .map(|(x, m)| Pair { x: *x, m: *m })
        .collect(alloc)
}

/// The pairs of the first wires: public values have the MAC 0, and private inputs those of these pairs.
fn first_pairs(
    alloc: Global,
    public: &[Fe],
    inputs: &[Fe],
    dealt: &[Pair],
) -> Result<Vec<Pair>, AllocError>
    requires { length inputs.now ≡ length dealt.now }
    ensures values { IfOk result (λ first. values_of first.items
        ≡ map (λ value. value *ₚ 1) public.now ++ inputs.now) }
    ensures macs { IfOk result (λ first. macs_of first.items
        ≡ map (λ value. value *ₚ 0) public.now ++ macs_of dealt.now) }
{
    let values = first_numbers(alloc, public, Fe::ONE, inputs)?;
    let macs = macs_of(alloc, dealt)?;
    let macs = first_numbers(alloc, public, Fe::ZERO, &macs)?;
    let first = joined(alloc, &values, &macs)?;
    Ok(first)
}

/// The given value of this number of a product, from the values of both factors: that of the input which it checks, or their product.
pub(crate) fn given_number(program: &FieldProgram, next: usize, left: Fe, right: Fe) -> Fe
    ensures { (i : ℕ) (product : zk.Product) (values : List ℕ)
        → slice_get program.now.products i ≡ Some product → product.c ≡ next
        → left ≡ slice_index values product.a → right ≡ slice_index values product.b
        → result ≡ given_value program.now values product }
{
    if next < program.inputs() {
        left
    } else {
        left * right
    }
}

/// The MAC of a dealt pair, which is that of the given value that it is corrected to.
fn dealt_mac(dealt: &[Pair], i: usize) -> Fe
    requires { i < length dealt.now }
    ensures { result ≡ slice_index (macs_of dealt.now) i }
{
    let pair = dealt[i];
    pair.m
}
