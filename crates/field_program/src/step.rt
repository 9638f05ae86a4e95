// The steps of a program.
ghost use Rattle.std.specs.Prelude.{◌≡◌};
ghost use Rattle.field_program.specs.Steps.{step_equation, value_taken};

use mersenne_field::Fe;

/// How the number of a wire comes from those of earlier wires and of the given values. `product` is the number of the
/// given value, and of the correlation that authenticates it; it is the product of the wires `a` and `b`.
#[derive(Clone, Copy, Debug, PartialEq, Eq)]
pub enum Step {
    /// The constant.
    Const {
        out: u32,
        value: Fe,
    },
    /// The number of `a`.
    Copy {
        out: u32,
        a: u32,
    },
    /// 1 less that of `a`.
    Not {
        out: u32,
        a: u32,
    },
    /// The sum of those of `a` and `b`.
    Add {
        out: u32,
        a: u32,
        b: u32,
    },
    /// The given value.
    Mul {
        out: u32,
        a: u32,
        b: u32,
        product: u32,
    },
    /// The sum of those of `a` and `b`, less twice the given value.
    XorFrom {
        out: u32,
        a: u32,
        b: u32,
        product: u32,
    },
}

impl Step {
    /// The number of the given value that it takes, if it takes one.
    pub fn value_taken(&self) -> Option<u32>
        ensures { result ≡ value_taken self.now }
    {
        match *self {
            Step::Mul { product, .. } | Step::XorFrom { product, .. } => Some(product),
            Step::Const { .. } | Step::Copy { .. } | Step::Not { .. } | Step::Add { .. } => None,
        }
    }

    /// The wire that it sets.
    pub fn out(self) -> u32
        ensures { result ≡ (step_equation self).out }
    {
        match self {
            Step::Const { out, .. }
            | Step::Copy { out, .. }
            | Step::Not { out, .. }
            | Step::Add { out, .. }
            | Step::Mul { out, .. }
            | Step::XorFrom { out, .. } => out,
        }
    }
}
