// Steps and the factors of products, as circuits and programs keep them.
ghost use Rattle.std.specs.Prelude.{◌≡◌, length};
ghost use Rattle.packed_gates.specs.PackedSteps.{IsGateRule, gate_factors, gate_of, gate_rule};

use mersenne_field::Fe;
use zk_model::GateRow;

/// The wires whose numbers a product has for factors.
#[derive(Clone, Copy, Debug, PartialEq, Eq)]
pub struct Factors {
    pub a: u32,
    pub b: u32,
}

/// What rules name by number: the factors of products, the wires whose numbers a sum adds, and constants.
#[derive(Debug, Drop)]
pub struct Tables {
    pub factors: Vec<Factors>,
    pub sums: Vec<Factors>,
    pub constants: Vec<Fe>,
}

/// A gate, as the step that it is of a program, in 12 bytes: one that takes a product reads the wires that are its factors. Products,
/// sums and constants are numbered from 0 in the order of their gates. An assertion of an arithmetic circuit is a rule of its gates, but of
/// no program.
#[derive(Clone, Copy, Debug, PartialEq, Eq)]
pub enum PackedStep {
    Bit { out: u32, value: bool },
    Copy { out: u32, a: u32 },
    Not { out: u32, a: u32 },
    Mul { out: u32, product: u32 },
    XorFrom { out: u32, product: u32 },
    Sum { out: u32, sum: u32 },
    Const { out: u32, constant: u32 },
    Assert { a: u32 },
}

/// The rule of a gate whose product, if it has one, has this number.
#[inline(always)]
pub(crate) fn gate_rule(gate: GateRow, number: u32) -> PackedStep
    ensures { result ≡ gate_rule number gate }
{
    match gate {
        GateRow::And { out, .. } => PackedStep::Mul {
            out,
            product: number,
        },
        GateRow::Xor { out, .. } => PackedStep::XorFrom {
            out,
            product: number,
        },
        GateRow::Inv { a, out } => PackedStep::Not { out, a },
        GateRow::Eqw { a, out } => PackedStep::Copy { out, a },
        GateRow::Eq { value, out } => PackedStep::Bit { out, value },
    }
}

/// The gate that a rule says, where these are the factors of the products.
#[inline(always)]
pub(crate) fn gate_of(rule: PackedStep, factors: &[Factors]) -> GateRow
    requires { IsGateRule (length factors.now) rule }
    ensures { result ≡ gate_of factors.now rule }
{
    match rule {
        PackedStep::Bit { out, value } => GateRow::Eq { value, out },
        PackedStep::Copy { out, a } => GateRow::Eqw { a, out },
        PackedStep::Not { out, a } => GateRow::Inv { a, out },
        PackedStep::Mul { out, product } => {
            let Factors { a, b } = factors[product as usize];
            GateRow::And { a, b, out }
        }
        PackedStep::XorFrom { out, product } => {
            let Factors { a, b } = factors[product as usize];
            GateRow::Xor { a, b, out }
        }
        PackedStep::Sum { .. } | PackedStep::Const { .. } | PackedStep::Assert { .. } =>
            unreachable!(),
    }
}
