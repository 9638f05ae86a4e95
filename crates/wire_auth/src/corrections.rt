// What a prover sends to fix its given values.
ghost use Rattle.std.specs.Prelude.{◌≡◌, ◌+◌, ◌≤◌, ◌<◌, ℕ, List, length, take, slice_index, IfOk, All};
ghost use Rattle.zk_model.specs.Check.{ArePairsOf};
ghost use Rattle.zk_model.specs.Boolean.{bits_of_products};
ghost use Rattle.zk_model.specs.Field.{IsElement};
ghost use Rattle.zk_model.specs.HonestProver.{honest_corrections};
ghost use Rattle.zk_model.specs.Mac.{corrected_pairs};
ghost use Rattle.zk_model.specs.Slots.{IsPlanOf};
ghost use Rattle.field_program.specs.Counts.{unchecked};
ghost use Rattle.wire_auth.specs.Values.{given_from, given_made};
ghost use Rattle.wire_auth.specs.Walks.{Follows, side_made};

use crate::carrying::{first_numbers, known};
use crate::prover_walk::given_number;
use crate::values::given_value;
use crate::walking::StepWalk;
use field_program::{FieldProgram, SlotPlan};
use mersenne_field::{Fe, Pair};
use std::alloc::{AllocError, Global};

/// Given value i, where all wires have these values: of an input that is not checked, or of a product.
fn given_at(program: &FieldProgram, values: &[Fe], i: usize) -> Fe
    requires values { length values.now ≡ program.now.wires }
    requires there { i < program.now.givens }
    ensures value { result ≡ slice_index (given_from program.now values.now) i }
    ensures element { IsElement result }
{
    let unchecked = program.unchecked();
    if i < unchecked {
        known(values[program.public() + i])
    } else {
        given_value(program, values, program.product(i - unchecked))
    }
}

/// The corrections that turn dealt pairs into those of the given values that values of all wires make: for each the value less the
/// dealt one. Where they are the values that a circuit computes, the corrections are those that `walk_corrections` makes.
///
/// # Errors
///
/// Only where memory runs out.
pub(crate) fn value_corrections(
    alloc: Global,
    program: &FieldProgram,
    values: &[Fe],
    dealt: &[Pair],
) -> Result<Vec<Fe>, AllocError>
    requires values { length values.now ≡ program.now.wires }
    requires dealt { program.now.givens ≤ length dealt.now }
    ensures corrections { IfOk result (λ v. v.items
        ≡ honest_corrections (given_from program.now values.now) dealt.now) }
    ensures one_each { IfOk result (λ v. length v.items ≡ program.now.givens) }
    ensures elements { IfOk result (λ _. All IsElement (given_from program.now values.now)) }
{
    let mut corrections = Vec::with_capacity(alloc, program.givens())?;
    for i in 0..program.givens() {
        let pair = dealt[i];
        corrections.push(given_at(program, values, i) - pair.x)?;
    }
    Ok(corrections)
}

/// The corrections that turn dealt pairs into those of these given values, each in the place of its value: the value less the dealt one.
pub fn given_corrections(given: Vec<Fe>, dealt: &[Pair]) -> Vec<Fe>
    requires { length given.items ≤ length dealt.now }
    ensures corrections { result.items ≡ honest_corrections given.items dealt.now }
    ensures one_each { length result.items ≡ length given.items }
    ensures elements { All IsElement given.items }
{
    let mut corrections = given;
    for i in 0..corrections.len() {
        let value = known(corrections[i]);
        let pair = dealt[i];
        corrections[i] = value - pair.x;
    }
    corrections
}

/// Meets the next product of a walk over values, and says its given value.
fn meet_value(walk: &mut StepWalk<'_, Fe>) -> Fe
    requires more { walk.old.met < length walk.old.program.products }
    ensures program { walk.new.program ≡ walk.old.program }
    ensures met { walk.new.met ≡ walk.old.met + 1 }
    ensures value { (values : List ℕ) → Follows (λ n. n) walk.old values (given_from walk.old.program values)
        → result ≡ slice_index (given_from walk.old.program values)
        (unchecked walk.old.program + walk.old.met) }
    ensures follows { (values : List ℕ)
        → Follows (λ n. n) walk.old values (given_from walk.old.program values)
        → Follows (λ n. n) walk.new values (given_from walk.old.program values) }
    ensures element { IsElement result }
{
    let program = walk.program();
    let next = walk.next_given();
    let Some(factors) = walk.factors() else {
        unreachable!();
    };
    let value = known(given_number(program, next, factors.0, factors.1));
    walk.meet(value);
    value
}

/// The corrections of the inputs that are not checked, with room for those of all given values.
fn input_corrections(
    alloc: Global,
    program: &FieldProgram,
    inputs: &[Fe],
    dealt: &[Pair],
) -> Result<Vec<Fe>, AllocError>
    requires inputs { length inputs.now ≡ program.now.inputs }
    requires dealt { program.now.givens ≤ length dealt.now }
    ensures corrections { IfOk result (λ v. v.items
        ≡ take (unchecked program.now) (honest_corrections inputs.now dealt.now)) }
    ensures elements { IfOk result (λ _. (k : ℕ) → k < unchecked program.now
        → IsElement (slice_index inputs.now k)) }
{
    let mut corrections = Vec::with_capacity(alloc, program.givens())?;
    for i in 0..program.unchecked() {
        let pair = dealt[i];
        corrections.push(known(inputs[i]) - pair.x)?;
    }
    Ok(corrections)
}

/// The corrections that `ProverWires::run` makes, by a walk along a program: they turn dealt pairs into those of the given values
/// that these public values and inputs make, which a `ProverWalk` over the same gives. `dealt` are the session's correlations, at
/// least one for each given value; the plan is that of the program.
///
/// # Errors
///
/// Only where memory runs out.
pub fn walk_corrections(
    alloc: Global,
    program: &FieldProgram,
    plan: &SlotPlan,
    public: &[Fe],
    inputs: &[Fe],
    dealt: &[Pair],
) -> Result<Vec<Fe>, AllocError>
    requires plan { IsPlanOf program.now plan.now }
    requires public { length public.now ≡ program.now.public }
    requires inputs { length inputs.now ≡ program.now.inputs }
    requires dealt { program.now.givens ≤ length dealt.now }
    ensures corrections { IfOk result (λ v. v.items
        ≡ honest_corrections (given_made program.now public.now inputs.now) dealt.now) }
    ensures one_each { IfOk result (λ v. length v.items ≡ program.now.givens) }
    ensures given { IfOk result (λ v. (side_made program.now public.now inputs.now dealt.now).pairs.given
        ≡ corrected_pairs dealt.now v.items) }
    ensures carried { IfOk result (λ _. ArePairsOf program.now public.now
        (side_made program.now public.now inputs.now dealt.now).pairs) }
{
    let first = first_numbers(alloc, public, Fe::ONE, inputs)?;
    let mut walk = StepWalk::new(program, plan, Fe::ONE, first)?;
    let mut corrections = input_corrections(alloc, program, inputs, dealt)?;
    for i in program.unchecked()..program.givens() {
        let value = meet_value(&mut walk);
        let pair = dealt[i];
        corrections.push(value - pair.x)?;
    }
    Ok(corrections)
}

/// The bit of a product of wires that have these bits.
#[inline(always)]
fn product_bit(program: &FieldProgram, bits: &[bool], i: usize) -> Fe
    requires bits { length bits.now ≡ program.now.wires }
    requires there { i < length program.now.products }
    ensures { result ≡ slice_index (bits_of_products program.now.products bits.now) i }
{
    let product = program.product(i);
    Fe::from_bit(bits[product.a as usize] & bits[product.b as usize])
}

/// The corrections that turn dealt pairs into those of the products of these bits, which all wires have: for each the product less the
/// dealt value. Where the bits are a Boolean circuit's, they are those that `walk_corrections` makes.
///
/// # Errors
///
/// Only where memory runs out.
pub fn bit_corrections(
    alloc: Global,
    program: &FieldProgram,
    bits: &[bool],
    dealt: &[Pair],
) -> Result<Vec<Fe>, AllocError>
    requires bits { length bits.now ≡ program.now.wires }
    requires dealt { program.now.givens ≤ length dealt.now }
    ensures corrections { IfOk result (λ v. v.items
        ≡ honest_corrections (bits_of_products program.now.products bits.now) dealt.now) }
    ensures one_each { IfOk result (λ v. length v.items ≡ length program.now.products) }
{
    let mut corrections = Vec::with_capacity(alloc, program.products())?;
    for i in 0..program.products() {
        let value = product_bit(program, bits, i);
        let pair = dealt[i];
        corrections.push(value - pair.x)?;
    }
    Ok(corrections)
}
