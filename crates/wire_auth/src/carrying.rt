// What the steps of a program make of numbers: of values, MACs and keys.
ghost use Rattle.std.specs.Prelude.{◌≡◌, ◌<◌, ◌≤◌, ◌++◌, ℕ, List, length, map, take, IfOk};
ghost use Rattle.zk_model.specs.Field.{IsElement, ◌*ₚ◌};
ghost use Rattle.zk_model.specs.Program.{Carries, step_value};
ghost use Rattle.field_program.specs.Steps.{step_equation};
ghost use Rattle.wire_auth.specs.Sides.{ReadsWithin, TakesWithin, AreFirstWires, IsGivenTaken};

use field_program::{FieldProgram, Step};
use mersenne_field::Fe;
use std::alloc::{AllocError, Global};

/// The number, which is an element.
#[inline(always)]
pub(crate) fn known(number: Fe) -> Fe
    ensures unchanged { result ≡ number }
    ensures element { IsElement number }
{
    let _number = number.value();
    number
}

/// The number that a step gives its wire, from those that it reads: of wires, and of the given value that it takes. The
/// constant 1 is `one`: 1 among values, 0 among MACs, and the verifier's one key among keys.
pub(crate) fn step_number(step: &Step, one: Fe, wires: &[Fe], taken: Fe) -> Fe
    requires { ReadsWithin (length wires.now) step.now }
    ensures { (given : List ℕ) → IsGivenTaken given step.now taken
        → result ≡ step_value one wires.now given (step_equation step.now) }
{
    match *step {
        Step::Const { value, .. } => value * one,
        Step::Copy { a, .. } => known(wires[a as usize]),
        Step::Not { a, .. } => one - wires[a as usize],
        Step::Add { a, b, .. } => wires[a as usize] + wires[b as usize],
        Step::Mul { .. } => known(taken),
        Step::XorFrom { a, b, .. } => wires[a as usize] + wires[b as usize] - (taken + taken),
    }
}

/// The numbers of public values: each times the constant 1.
fn public_numbers(alloc: Global, public: &[Fe], one: Fe) -> Result<Vec<Fe>, AllocError>
    ensures { IfOk result (λ numbers. numbers.items ≡ map (λ value. value *ₚ one) public.now) }
{
    public.iter().map(|value| *value * one).collect(alloc)
}

/// The numbers of the first wires: those of the public values, and then of the inputs.
pub(crate) fn first_numbers(
    alloc: Global,
    public: &[Fe],
    one: Fe,
    inputs: &[Fe],
) -> Result<Vec<Fe>, AllocError>
    ensures { IfOk result (λ numbers. numbers.items
        ≡ map (λ value. value *ₚ one) public.now ++ inputs.now) }
{
    let mut numbers = public_numbers(alloc, public, one)?;
    numbers.extend_from_slice(inputs)?;
    Ok(numbers)
}

/// The numbers of the first wires: those of the public values, and then of the inputs; and 0 for the others.
pub(crate) fn begun(
    alloc: Global,
    program: &FieldProgram,
    public: &[Fe],
    one: Fe,
    inputs: &[Fe],
) -> Result<Vec<Fe>, AllocError>
    requires public { length public.now ≡ program.now.public }
    requires inputs { length inputs.now ≡ program.now.inputs }
    ensures { IfOk result (λ wires. (given : List ℕ) → take program.now.inputs given ≡ inputs.now
        → AreFirstWires one program.now public.now given wires.items) }
{
    let mut wires = first_numbers(alloc, public, one, inputs)?;
    wires.resize(program.wires(), Fe::ZERO)?;
    Ok(wires)
}

/// The number of the given value that a step takes, and 0 where it takes none.
fn taken_number(step: &Step, given: &[Fe]) -> Fe
    requires { TakesWithin (length given.now) step.now }
    ensures { IsGivenTaken given.now step.now result }
{
    match *step {
        Step::Mul { product, .. } | Step::XorFrom { product, .. } => known(given[product as usize]),
        Step::Const { .. } | Step::Copy { .. } | Step::Not { .. } | Step::Add { .. } => Fe::ZERO,
    }
}

/// The numbers of all wires, MACs or keys, from those of the first ones and of the given values: each step gives that of its
/// wire, and a wire that no step sets has 0.
pub(crate) fn follow(program: &FieldProgram, one: Fe, given: &[Fe], begun: Vec<Fe>) -> Vec<Fe>
    requires begun { length begun.items ≡ program.now.wires }
    requires given { length given.now ≡ program.now.givens }
    ensures whole { length result.items ≡ program.now.wires }
    ensures carried { (public : List ℕ) → AreFirstWires one program.now public given.now begun.items
        → Carries one program.now public given.now result.items }
{
    let mut wires = begun;
    for k in 0..program.steps() {
        let step = program.step(k);
        let number = step_number(&step, one, &wires, taken_number(&step, given));
        wires[step.out() as usize] = number;
    }
    wires
}
