// A term of a polynomial.
ghost use Rattle.std.specs.Prelude.{◌≡◌, ◌≤◌, ◌<◌, ◌%◌, ◌∷◌, ◌++◌, [], length, slice_index};
ghost use Rattle.zk_model.specs.Field.{prime};
ghost use Rattle.poly_model.specs.Constraints.{term_value};
ghost use Rattle.poly_model.specs.declared.limits.TheConstants.{MAX_FACTORS};

use crate::limits::MAX_FACTORS;
use mersenne_field::Fe;
use std::marker::Model;

/// A coefficient times at most eight values, which are named by their numbers, from 0. A value whose number stands twice is squared,
/// and so on.
#[derive(Debug, Drop)]
pub struct Term {
    coefficient: Fe,
    factors: [u16; MAX_FACTORS],
    count: usize,
}

impl Model for Term {
    ghost use Rattle.std.specs.Prelude.{◌≤◌, take};
    ghost use Rattle.poly_model.specs.Constraints as model;
    ghost use Rattle.poly_model.specs.declared.limits.TheConstants.{MAX_FACTORS};

    ghost Value = { model.Term };

    ghost view = { λ t. record { coefficient = t.coefficient; factors = take t.count t.factors } };

    ghost invariant = { λ t. t.count ≤ MAX_FACTORS };
}

/// The value of this number, or 0 where there is none.
pub(crate) fn value_at(values: &[Fe], number: u16) -> Fe
    ensures { result ≡ slice_index values.now number }
{
    match values.get(number as usize) {
        Some(value) => *value,
        None => Fe::ZERO,
    }
}

impl Term {
    /// A coefficient without factors.
    pub fn new(coefficient: Fe) -> Term
        ensures { result ≡ record { coefficient = coefficient; factors = [] } }
    {
        Term {
            coefficient,
            factors: [0; MAX_FACTORS],
            count: 0,
        }
    }

    /// Has one factor more.
    pub fn push(&mut self, number: u16)
        requires room { length self.old.factors < MAX_FACTORS }
        ensures { self.new ≡ record self.old { factors = self.old.factors ++ number ∷ [] } }
    {
        self.factors[self.count] = number;
        self.count += 1;
    }

    /// The coefficient.
    pub fn coefficient(&self) -> Fe
        ensures { result ≡ self.now.coefficient }
    {
        self.coefficient
    }

    /// The numbers of the factors, in order.
    pub fn factors(&self) -> &[u16]
        ensures value { result.now ≡ self.now.factors }
        ensures few { length result.now ≤ MAX_FACTORS }
    {
        &self.factors[..self.count]
    }

    /// The coefficient times the values of the factors. A factor whose number is beyond the values is 0.
    pub fn value(&self, values: &[Fe]) -> Fe
        ensures { result ≡ term_value values.now self.now % prime }
    {
        let mut product = self.coefficient();
        let _element = product.value();
        for number in self.factors() {
            product = product * value_at(values, *number);
        }
        product
    }
}
