// The steps that a program keeps packed.
ghost use Rattle.std.specs.Prelude.{◌≡◌, ◌+◌, ◌<◌, ◌^◌, length};
ghost use Rattle.packed_gates.specs.PackedSteps.{IsRule};
ghost use Rattle.field_program.specs.Rules.{step_of};

use crate::step::Step;
use mersenne_field::Fe;
use packed_gates::{Factors, PackedStep, Tables};

/// The step that a rule says, whose given value comes behind those of so many inputs.
#[inline(always)]
pub(crate) fn step_of(rule: PackedStep, inputs: u32, tables: &Tables) -> Step
    requires within { IsRule tables.now rule }
    requires fits { inputs + length tables.now.factors.items < 2 ^ 32 }
    ensures { result ≡ step_of inputs tables.now rule }
{
    match rule {
        PackedStep::Bit { out, value } => Step::Const {
            out,
            value: Fe::from_bit(value),
        },
        PackedStep::Copy { out, a } => Step::Copy { out, a },
        PackedStep::Not { out, a } => Step::Not { out, a },
        PackedStep::Mul { out, product } => {
            let Factors { a, b } = tables.factors[product as usize];
            let product = inputs + product;
            Step::Mul { out, a, b, product }
        }
        PackedStep::XorFrom { out, product } => {
            let Factors { a, b } = tables.factors[product as usize];
            let product = inputs + product;
            Step::XorFrom { out, a, b, product }
        }
        PackedStep::Sum { out, sum } => {
            let Factors { a, b } = tables.sums[sum as usize];
            Step::Add { out, a, b }
        }
        PackedStep::Const { out, constant } => {
            let value = tables.constants[constant as usize];
            Step::Const { out, value }
        }
        PackedStep::Assert { .. } => unreachable!(),
    }
}
