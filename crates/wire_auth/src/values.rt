// The values of all wires, from the public ones and the private inputs.
ghost use Rattle.std.specs.Prelude.{◌≡◌, ◌-◌, ◌<◌, ◌≤◌, ℕ, List, length, slice_get, Some, IfOk};
ghost use Rattle.zk_model.specs.Field.{IsElement};
ghost use Rattle.zk_model.specs.Program.{AreMade};
ghost use Rattle.field_program.specs.Counts.{unchecked};
ghost use Rattle.field_program.specs.Rules.{HasFactors};
ghost use Rattle.wire_auth.specs.Sides.{AreFirstWires, IsGivenTaken};
ghost use Rattle.wire_auth.specs.Values.{BitsMakeProducts, given_from, given_value};

use crate::carrying::{begun, known, step_number};
use field_program::{FieldProgram, Product, Step};
use mersenne_field::Fe;
use std::alloc::{AllocError, Global};

/// The value of a product: of the input that it checks, or of its two wires multiplied.
pub(crate) fn given_value(program: &FieldProgram, values: &[Fe], product: Product) -> Fe
    requires values { length values.now ≡ program.now.wires }
    requires product { slice_get program.now.products (product.c - unchecked program.now)
        ≡ Some product }
    ensures value { result ≡ given_value program.now values.now product }
    ensures element { IsElement result }
{
    let c = product.c as usize;
    if c < program.inputs() {
        known(values[program.public() + c])
    } else {
        known(values[product.a as usize] * values[product.b as usize])
    }
}

/// The given value that a step takes, and 0 where it takes none.
#[tactic(auto, using(crate::proofs::Making::given_of))]
fn taken_value(program: &FieldProgram, values: &[Fe], step: &Step) -> Fe
    requires values { length values.now ≡ program.now.wires }
    requires factors { HasFactors program.now step.now }
    ensures { IsGivenTaken (given_from program.now values.now) step.now result }
{
    let _products = program.products();
    match *step {
        Step::Mul { a, b, product, .. } | Step::XorFrom { a, b, product, .. } => {
            given_value(program, values, Product { a, b, c: product })
        }
        Step::Const { .. } | Step::Copy { .. } | Step::Not { .. } | Step::Add { .. } => Fe::ZERO,
    }
}

/// The values of all wires, from those of the first ones: each step gives that of its wire.
fn follow_values(program: &FieldProgram, begun: Vec<Fe>) -> Vec<Fe>
    requires { length begun.items ≡ program.now.wires }
    ensures { (public inputs : List ℕ) → length inputs ≡ program.now.inputs
        → AreFirstWires 1 program.now public inputs begun.items
        → AreMade program.now public inputs result.items (given_from program.now result.items) }
{
    let mut values = begun;
    for k in 0..program.steps() {
        let step = program.step(k);
        let taken = taken_value(program, &values, &step);
        let number = step_number(&step, Fe::ONE, &values, taken);
        values[step.out() as usize] = number;
    }
    values
}

/// The values of all wires that these public values and inputs make. A wire that no step sets has 0.
pub(crate) fn carry_values(
    alloc: Global,
    program: &FieldProgram,
    public: &[Fe],
    inputs: &[Fe],
) -> Result<Vec<Fe>, AllocError>
    requires public { length public.now ≡ program.now.public }
    requires inputs { length inputs.now ≡ program.now.inputs }
    ensures { IfOk result (λ values.
        AreMade program.now public.now inputs.now values.items (given_from program.now values.items)) }
{
    let begun = begun(alloc, program, public, Fe::ONE, inputs)?;
    Ok(follow_values(program, begun))
}

/// Inputs of a circuit that are bits make the products of the bits that it has on all its wires. It does nothing.
pub fn bits_make_products()
    ensures { BitsMakeProducts }
{}
