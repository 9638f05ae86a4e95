// What a walk carries from step to step: of each wire one number, or its value and its MAC side by side.
ghost use Rattle.std.specs.Prelude.{◌≡◌, ℕ};
ghost use Rattle.wire_auth.specs.Walks.{Part};

use crate::carrying::known;
use mersenne_field::{Fe, Pair};

/// What a walk carries of each wire. Steps make the same of each part.
pub(crate) trait Carried: Copy {
    ghost use Rattle.std.specs.Prelude.{◌≡◌, ℕ};
    ghost use Rattle.zk_model.specs.Field.{IsElement, ◌+ₚ◌, ◌-ₚ◌, ◌*ₚ◌};
    ghost use Rattle.wire_auth.specs.Walks.{Part};

    /// The number of a part.
    ghost part: { Part → Self → ℕ };

    /// What slots have before they are taken.
    fn nothing() -> Self;

    /// Itself: each part is an element.
    fn known(self) -> Self
        ensures unchanged { result ≡ self }
        ensures elements { (which : Part) → IsElement (part which self) };

    /// Each part times a constant.
    fn times(self, value: Fe) -> Self
        ensures { (which : Part) → part which result ≡ value *ₚ part which self };

    /// The sum of each part.
    fn plus(self, other: Self) -> Self
        ensures { (which : Part) → part which result ≡ part which self +ₚ part which other };

    /// The difference of each part.
    fn less(self, other: Self) -> Self
        ensures { (which : Part) → part which result ≡ part which self -ₚ part which other };

    /// A word of it, by which it is read ahead of its use.
    fn word(self) -> u64;
}

impl Carried for Fe {
    ghost part = { λ which number. number };

    #[inline(always)]
    fn nothing() -> Self {
        Fe::ZERO
    }

    #[inline(always)]
    fn known(self) -> Self {
        known(self)
    }

    #[inline(always)]
    fn times(self, value: Fe) -> Self {
        value * self
    }

    #[inline(always)]
    fn plus(self, other: Self) -> Self {
        self + other
    }

    #[inline(always)]
    fn less(self, other: Self) -> Self {
        self - other
    }

    #[inline(always)]
    fn word(self) -> u64 {
        self.value()
    }
}

impl Carried for Pair {
    ghost use Rattle.wire_auth.specs.Walks.{part_of_pair};

    ghost part = { part_of_pair };

    #[inline(always)]
    fn nothing() -> Self {
        Pair {
            x: Fe::ZERO,
            m: Fe::ZERO,
        }
    }

    #[inline(always)]
    fn known(self) -> Self {
        let _value = known(self.x);
        let _mac = known(self.m);
        self
    }

    #[inline(always)]
    fn times(self, value: Fe) -> Self {
        Pair {
            x: value * self.x,
            m: value * self.m,
        }
    }

    #[inline(always)]
    fn plus(self, other: Self) -> Self {
        Pair {
            x: self.x + other.x,
            m: self.m + other.m,
        }
    }

    #[inline(always)]
    fn less(self, other: Self) -> Self {
        Pair {
            x: self.x - other.x,
            m: self.m - other.m,
        }
    }

    #[inline(always)]
    fn word(self) -> u64 {
        self.m.value()
    }
}
