// The verifier's keys, one product after another.
ghost use Rattle.std.specs.Prelude.{◌≡◌, ◌+◌, ◌<◌, ◌≤◌, ℕ, Some, None, length, min, slice_get, slice_index, IfOk};
ghost use Rattle.zk_model.specs.Check.{AreKeysFor, key_triple};
ghost use Rattle.zk_model.specs.Slots.{IsPlanOf};
ghost use Rattle.zk_model.specs.declared.Product as zk;
ghost use Rattle.field_program.specs.Programs.{IsSmallProgram};
ghost use Rattle.wire_auth.specs.Walks.{keys_made};

use crate::carrying::first_numbers;
use crate::keys::corrected;
use crate::triples::KeyTriple;
use crate::walking::StepWalk;
use field_program::{FieldProgram, SlotPlan};
use mersenne_field::Fe;
use std::alloc::{AllocError, Global};
use std::marker::Model;

/// The keys that `VerifierWires` has, one product after another (Weng, Yang, Katz and Wang, Wolverine, IEEE S&P 2021). It holds those of
/// the wires that are live at a step, and no more than a plan has slots.
#[derive(Debug, Drop)]
pub struct VerifierWalk<'a> {
    public: &'a [Fe],
    keys: &'a [Fe],
    corrections: &'a [Fe],
    key: Fe,
    walk: StepWalk<'a, Fe>,
}

impl<'a> Model for VerifierWalk<'a> {
    ghost use Rattle.wire_auth.specs.Walks as walks;
    ghost use Rattle.wire_auth.specs.Walks.{IsVerifierWalk, keys_made};

    ghost Value = { walks.VerifierWalking };

    ghost view = { λ w. record {
      side = keys_made w.key w.walk.program w.public.now w.keys.now w.corrections.now;
      met = w.walk.met;
    } };

    ghost invariant = { λ w. IsVerifierWalk w.walk.program w.key w.public.now w.keys.now
        w.corrections.now w.walk };
}

impl<'a> VerifierWalk<'a> {
    /// A walk along a program with these public values under the verifier's one key, that has given no product yet. `keys` are those of
    /// the session's correlations, at least one for each given value; there is one correction for each. The plan is that of the program.
    ///
    /// # Errors
    ///
    /// Only where memory runs out.
    pub fn new(
        alloc: Global,
        program: &'a FieldProgram,
        plan: &'a SlotPlan,
        public: &'a [Fe],
        keys: &'a [Fe],
        key: Fe,
        corrections: &'a [Fe],
    ) -> Result<VerifierWalk<'a>, AllocError>
        requires plan { IsPlanOf program.now plan.now }
        requires public { length public.now ≡ program.now.public }
        requires keys { program.now.givens ≤ length keys.now }
        requires corrections { length corrections.now ≡ program.now.givens }
        ensures walk { IfOk result (λ walk. walk ≡ record {
          side = keys_made key program.now public.now keys.now corrections.now;
          met = 0;
        }) }
        ensures carried { IfOk result (λ _. AreKeysFor key program.now public.now
            (keys_made key program.now public.now keys.now corrections.now).keys) }
    {
        let inputs = program.inputs();
        let first_keys = corrected(alloc, &keys[..inputs], &corrections[..inputs], key)?;
        let first = first_numbers(alloc, public, key, &first_keys)?;
        let walk = StepWalk::new(program, plan, key, first)?;
        Ok(VerifierWalk {
            public,
            keys,
            corrections,
            key,
            walk,
        })
    }

    /// The program.
    pub fn program(&self) -> &'a FieldProgram
        ensures { result.now ≡ self.now.side.program }
    {
        self.walk.program()
    }

    /// How many products the program has, whose keys `next` gives.
    pub fn products(&self) -> usize
        ensures count { result ≡ length self.now.side.program.products }
        ensures held { IsSmallProgram self.now.side.program }
    {
        self.walk.program().products()
    }

    /// The keys of the factors of the next product, and of its value; none after the last.
    pub fn next(&mut self) -> Option<KeyTriple>
        ensures some { (product : zk.Product)
            → slice_get self.old.side.program.products self.old.met ≡ Some product
            → result ≡ Some (key_triple self.old.side.keys product) }
        ensures none { length self.old.side.program.products ≤ self.old.met → result ≡ None }
        ensures side { self.new.side ≡ self.old.side }
        ensures met { self.new.met
            ≡ min (self.old.met + 1) (length self.old.side.program.products) }
    {
        let _products = self.walk.program().products();
        let next = self.walk.next_given();
        let (a, b) = self.walk.factors()?;
        let c = self.keys[next] + self.corrections[next] * self.key;
        self.walk.meet(c);
        Some(KeyTriple { a, b, c })
    }

    /// The key of opened wire o, after the last product.
    pub fn output(&self, o: usize) -> Fe
        requires done { length self.now.side.program.products ≤ self.now.met }
        requires there { o < length self.now.side.program.opened }
        ensures { result ≡ slice_index self.now.side.keys.wires (slice_index self.now.side.program.opened o) }
    {
        let _opened = self.walk.program().opened();
        self.walk.opened(o)
    }
}
