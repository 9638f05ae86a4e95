// A walk along a program's steps that holds what it carries of live wires alone.
ghost use Rattle.std.specs.Prelude.{◌≡◌, ◌+◌, ◌<◌, ◌≤◌, ◌⊎◌, ◌↔◌, ℕ, List, All, Some, length, map, take, slice_get, slice_index, IfOk, IfSome, IsNone};
ghost use Rattle.zk_model.specs.Program.{Step as model, MeetsStep, step_value};
ghost use Rattle.zk_model.specs.Slots.{IsPlanOf};
ghost use Rattle.zk_model.specs.declared.Product as zk;
ghost use Rattle.field_program.specs.Counts.{unchecked};
ghost use Rattle.field_program.specs.Programs.{IsSmallProgram, values_taken};
ghost use Rattle.field_program.specs.Steps.{step_equation};
ghost use Rattle.wire_auth.specs.Sides.{IsGivenTaken};
ghost use Rattle.wire_auth.specs.Walks.{Part, AreHeldAt, AreReadIn, AreSlotsWithin, Follows, IsAlong, IsTakenBy, TakesAt};

use crate::carried::Carried;
use field_program::{FieldProgram, SlotPlan, Step, StepSlots};
use std::alloc::{AllocError, Global};
use std::marker::Model;

/// For so many steps slots are read ahead of them, all at once.
const AHEAD: usize = 256;

/// A walk along a program's steps over what it carries: values, MACs or keys, or values and MACs side by side. It holds those of no more
/// wires than are live at once. It comes to one product after another. Before it follows steps it reads the slots of many: these reads wait
/// for the memory side by side, where each step's own would wait for it alone.
#[derive(Debug, Drop)]
pub(crate) struct StepWalk<'a, N: Carried> {
    program: &'a FieldProgram,
    plan: &'a SlotPlan,
    one: N,
    slots: Vec<N>,
    steps: usize,
    met: usize,
    /// The slots of the steps up to this one have been read.
    read: usize,
}

impl<'a, N: Carried> Model for StepWalk<'a, N> {
    ghost use Rattle.std.specs.Prelude.{◌≡◌, ◌+◌, length};
    ghost use Rattle.zk_model.specs.Slots.{IsPlanOf};
    ghost use Rattle.wire_auth.specs.Walks as walks;
    ghost use Rattle.wire_auth.specs.Walks.{IsAlong};
    ghost use Rattle.field_program.specs.Counts.{unchecked};

    ghost Value = { walks.Walking N };

    ghost view = { λ w. record {
      program = w.program.now;
      plan = w.plan.now;
      one = w.one;
      slots = w.slots.items;
      steps = w.steps;
      met = w.met;
    } };

    ghost invariant = { λ w. IsAlong w.program.now w.steps (unchecked w.program.now + w.met)
        × IsPlanOf w.program.now w.plan.now × (length w.slots.items ≡ w.plan.now.slots) };
}

/// What a step gives its wire, from what is in the slots of those that it reads, and of the given value that it takes.
#[inline(always)]
fn step_number<N: Carried>(slots: &[N], at: StepSlots, step: &Step, one: N, taken: N) -> N
    requires { AreSlotsWithin (length slots.now) at }
    ensures { (which : Part) (wires given : List ℕ)
        → AreReadIn at (map (N.part which) slots.now) wires step.now
        → IsGivenTaken given step.now (N.part which taken)
        → N.part which result ≡ step_value (N.part which one) wires given (step_equation step.now) }
{
    match *step {
        Step::Const { value, .. } => one.times(value),
        Step::Copy { .. } => slots[at.a as usize].known(),
        Step::Not { .. } => one.less(slots[at.a as usize]),
        Step::Add { .. } => slots[at.a as usize].plus(slots[at.b as usize]),
        Step::Mul { .. } => taken.known(),
        Step::XorFrom { .. } => {
            let sum = slots[at.a as usize].plus(slots[at.b as usize]);
            sum.less(taken.plus(taken))
        }
    }
}

/// Puts what a step gives its wire in its slot.
#[inline(always)]
fn follow_step<N: Carried>(
    program: &FieldProgram,
    k: usize,
    plan: &SlotPlan,
    slots: &mut Vec<N>,
    one: N,
    taken: N,
)
    requires there { k < length program.now.steps }
    requires plan { IsPlanOf program.now plan.now }
    requires whole { length slots.old.items ≡ plan.now.slots }
    ensures whole { length slots.new.items ≡ plan.now.slots }
    ensures held { (which : Part) (is : IsPlanOf program.now plan.now)
        (wires given : List ℕ) (equation : model)
        → slice_get program.now.steps k ≡ Some equation → MeetsStep (N.part which one) wires given equation
        → IsTakenBy given equation (N.part which taken)
        → AreHeldAt program.now is.places k wires (map (N.part which) slots.old.items)
        → AreHeldAt program.now is.places (k + 1) wires (map (N.part which) slots.new.items) }
{
    let step = program.step(k);
    let at = plan.step_slots(k);
    let number = step_number(slots, at, &step, one, taken);
    slots[at.out as usize] = number;
}

/// Follows the steps from one on that take no given value, up to the first that does, and says which that is.
fn pass_linear<N: Carried>(
    program: &FieldProgram,
    plan: &SlotPlan,
    slots: &mut Vec<N>,
    from: usize,
    one: N,
) -> usize
    requires from { from ≤ length program.now.steps }
    requires plan { IsPlanOf program.now plan.now }
    requires whole { length slots.old.items ≡ plan.now.slots }
    ensures whole { length slots.new.items ≡ plan.now.slots }
    ensures upto { result ≤ length program.now.steps }
    ensures taken { values_taken (take result program.now.steps)
        ≡ values_taken (take from program.now.steps) }
    ensures waits { (result ≡ length program.now.steps) ⊎ TakesAt program.now result }
    ensures held { (which : Part) (is : IsPlanOf program.now plan.now) (wires given : List ℕ)
        → All (MeetsStep (N.part which one) wires given) program.now.steps
        → AreHeldAt program.now is.places from wires (map (N.part which) slots.old.items)
        → AreHeldAt program.now is.places result wires (map (N.part which) slots.new.items) }
{
    for k in from..program.steps() {
        if program.step(k).value_taken().is_some() {
            return k;
        }
        follow_step(program, k, plan, slots, one, N::nothing());
    }
    program.steps()
}

/// Follows the steps before the first product, and says how many those are: none where bit checks come first.
fn pass_first<N: Carried>(
    program: &FieldProgram,
    plan: &SlotPlan,
    slots: &mut Vec<N>,
    one: N,
) -> usize
    requires plan { IsPlanOf program.now plan.now }
    requires whole { length slots.old.items ≡ plan.now.slots }
    ensures whole { length slots.new.items ≡ plan.now.slots }
    ensures along { IsAlong program.now result (unchecked program.now) }
    ensures held { (which : Part) (is : IsPlanOf program.now plan.now) (wires given : List ℕ)
        → All (MeetsStep (N.part which one) wires given) program.now.steps
        → AreHeldAt program.now is.places 0 wires (map (N.part which) slots.old.items)
        → AreHeldAt program.now is.places result wires (map (N.part which) slots.new.items) }
{
    if program.unchecked() < program.inputs() {
        return 0;
    }
    pass_linear(program, plan, slots, 0, one)
}

/// Follows the steps from the product of given value `next`, which has this number, to the next product, and says how many steps are
/// behind. A bit check of an input comes before all steps.
fn pass_product<N: Carried>(
    program: &FieldProgram,
    steps: usize,
    next: usize,
    plan: &SlotPlan,
    slots: &mut Vec<N>,
    one: N,
    number: N,
) -> usize
    requires along { IsAlong program.now steps next }
    requires more { next < program.now.givens }
    requires plan { IsPlanOf program.now plan.now }
    requires whole { length slots.old.items ≡ plan.now.slots }
    ensures whole { length slots.new.items ≡ plan.now.slots }
    ensures along { IsAlong program.now result (next + 1) }
    ensures held { (which : Part) (is : IsPlanOf program.now plan.now) (wires given : List ℕ)
        → All (MeetsStep (N.part which one) wires given) program.now.steps
        → N.part which number ≡ slice_index given next
        → AreHeldAt program.now is.places steps wires (map (N.part which) slots.old.items)
        → AreHeldAt program.now is.places result wires (map (N.part which) slots.new.items) }
{
    let inputs = program.inputs();
    let _givens = program.givens();
    if next + 1 < inputs {
        return steps;
    }
    if next < inputs {
        return pass_linear(program, plan, slots, steps, one);
    }
    let _step = program.step(steps);
    follow_step(program, steps, plan, slots, one, number);
    pass_linear(program, plan, slots, steps + 1, one)
}

/// A slot for each wire that is live at once, of which the first wires have theirs.
fn first_slots<N: Carried>(
    program: &FieldProgram,
    plan: &SlotPlan,
    first: Vec<N>,
) -> Result<Vec<N>, AllocError>
    requires first { length first.items ≡ program.now.public + program.now.inputs }
    requires plan { IsPlanOf program.now plan.now }
    ensures whole { IfOk result (λ slots. length slots.items ≡ plan.now.slots) }
    ensures held { IfOk result (λ slots. (which : Part) (is : IsPlanOf program.now plan.now) (wires : List ℕ)
        → take (program.now.public + program.now.inputs) wires ≡ map (N.part which) first.items
        → AreHeldAt program.now is.places 0 wires (map (N.part which) slots.items)) }
{
    let _held = program.steps();
    let mut slots = first;
    slots.resize(plan.slots(), N::nothing())?;
    Ok(slots)
}

/// The slots of both factors of the product of given value `next`. A bit check has that of the input, which is of its number, and another
/// those of the step that takes its value.
#[inline(always)]
fn factor_slots(program: &FieldProgram, plan: &SlotPlan, steps: usize, next: usize) -> (u32, u32)
    requires along { IsAlong program.now steps next }
    requires more { next < program.now.givens }
    requires plan { IsPlanOf program.now plan.now }
    ensures within { (result.0 < plan.now.slots) × (result.1 < plan.now.slots) }
    ensures factors { (is : IsPlanOf program.now plan.now) (i : ℕ) (product : zk.Product)
        → slice_get program.now.products i ≡ Some product → product.c ≡ next
        → (result.0 ≡ slice_index is.places product.a) × (result.1 ≡ slice_index is.places product.b) }
{
    if next < program.inputs() {
        let wire = (program.public() + next) as u32;
        return (wire, wire);
    }
    let at = plan.step_slots(steps);
    (at.a, at.b)
}

/// Reads the slots of the steps from one on, and says up to which. No word of an element has a bit above the 61st, so what they are is of
/// no account; but a compiler leaves out what no answer rests on.
fn read_ahead<N: Carried>(
    program: &FieldProgram,
    plan: &SlotPlan,
    slots: &[N],
    from: usize,
) -> usize
    requires from { from ≤ length program.now.steps }
    requires plan { IsPlanOf program.now plan.now }
    requires whole { length slots.now ≡ plan.now.slots }
{
    let count = AHEAD.min(program.steps() - from);
    let mut words = 0;
    for k in from..from + count {
        let at = plan.step_slots(k);
        words = words | slots[at.a as usize].word() | slots[at.b as usize].word();
    }
    (from + count).max((words >> 61) as usize)
}

/// Reads slots ahead of the steps from one on, where those up to it alone have been read. Says up to which step they have.
#[inline(always)]
fn read_upto<N: Carried>(
    program: &FieldProgram,
    plan: &SlotPlan,
    slots: &[N],
    from: usize,
    read: usize,
) -> usize
    requires from { from ≤ length program.now.steps }
    requires plan { IsPlanOf program.now plan.now }
    requires whole { length slots.now ≡ plan.now.slots }
{
    if from < read {
        return read;
    }
    read_ahead(program, plan, slots, from)
}

impl<'a, N: Carried> StepWalk<'a, N> {
    /// A walk that has met no product yet. The first wires have these: the public wires, and then the private inputs.
    ///
    /// # Errors
    ///
    /// Only where memory runs out.
    pub fn new(
        program: &'a FieldProgram,
        plan: &'a SlotPlan,
        one: N,
        first: Vec<N>,
    ) -> Result<Self, AllocError>
        requires first { length first.items ≡ program.now.public + program.now.inputs }
        requires plan { IsPlanOf program.now plan.now }
        ensures program { IfOk result (λ w. w.program ≡ program.now) }
        ensures met { IfOk result (λ w. w.met ≡ 0) }
        ensures follows { IfOk result (λ w. (which : Part) (wires given : List ℕ)
            → All (MeetsStep (N.part which one) wires given) program.now.steps
            → take (program.now.public + program.now.inputs) wires ≡ map (N.part which) first.items
            → Follows (N.part which) w wires given) }
    {
        let mut slots = first_slots(program, plan, first)?;
        let steps = pass_first(program, plan, &mut slots, one);
        Ok(StepWalk {
            program,
            plan,
            one,
            slots,
            steps,
            met: 0,
            read: 0,
        })
    }

    /// The number of the given value of the next product, and after the last how many there are.
    pub fn next_given(&self) -> usize
        ensures number { result ≡ unchecked self.now.program + self.now.met }
        ensures within { self.now.met ≤ length self.now.program.products }
        ensures held { IsSmallProgram self.now.program }
    {
        self.program.unchecked() + self.met
    }

    /// The program.
    pub fn program(&self) -> &'a FieldProgram
        ensures { result.now ≡ self.now.program }
    {
        self.program
    }

    /// What both factors of the next product have, and none after the last.
    pub fn factors(&self) -> Option<(N, N)>
        ensures none { IsNone result ↔ length self.now.program.products ≤ self.now.met }
        ensures some { IfSome result (λ both. (which : Part) (wires given : List ℕ) (product : zk.Product)
            → Follows (N.part which) self.now wires given
            → slice_get self.now.program.products self.now.met ≡ Some product
            → (N.part which both.0 ≡ slice_index wires product.a)
            × (N.part which both.1 ≡ slice_index wires product.b)) }
    {
        if self.met == self.program.products() {
            return None;
        }
        let next = self.next_given();
        let (a, b) = factor_slots(self.program, self.plan, self.steps, next);
        Some((self.slots[a as usize], self.slots[b as usize]))
    }

    /// Meets the next product, whose given value has this.
    pub fn meet(&mut self, number: N)
        requires { self.old.met < length self.old.program.products }
        ensures program { self.new.program ≡ self.old.program }
        ensures met { self.new.met ≡ self.old.met + 1 }
        ensures follows { (which : Part) (wires given : List ℕ)
            → N.part which number ≡ slice_index given (unchecked self.old.program + self.old.met)
            → Follows (N.part which) self.old wires given → Follows (N.part which) self.new wires given }
    {
        let Self {
            program,
            plan,
            one,
            ..
        } = *self;
        let _products = program.products();
        let read = read_upto(program, plan, &self.slots, self.steps, self.read);
        self.steps = pass_product(
            program,
            self.steps,
            program.unchecked() + self.met,
            plan,
            &mut self.slots,
            one,
            number,
        );
        self.met += 1;
        self.read = read;
    }

    /// What opened wire o has, after the last product.
    pub fn opened(&self, o: usize) -> N
        requires done { length self.now.program.products ≤ self.now.met }
        requires there { o < length self.now.program.opened }
        ensures { (which : Part) (wires given : List ℕ) → Follows (N.part which) self.now wires given
            → N.part which result ≡ slice_index wires (slice_index self.now.program.opened o) }
    {
        let _products = self.program.products();
        self.slots[self.plan.opened_slot(o) as usize]
    }
}
