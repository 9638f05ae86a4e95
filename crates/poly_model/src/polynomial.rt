// A polynomial of numbered values.
ghost use Rattle.std.specs.Prelude.{◌≡◌};
ghost use Rattle.poly_model.specs.Constraints.{polynomial_value};

use crate::term::Term;
use mersenne_field::Fe;
use std::marker::Model;

/// A sum of terms.
#[derive(Debug, Drop)]
pub struct Polynomial {
    terms: Vec<Term>,
}

impl Model for Polynomial {
    ghost use Rattle.std.specs.Prelude.{List};
    ghost use Rattle.poly_model.specs.Constraints as model;

    ghost Value = { List model.Term };

    ghost view = { λ p. p.terms.items };
}

impl Polynomial {
    /// The sum of these terms.
    pub fn new(terms: Vec<Term>) -> Polynomial
        ensures { result ≡ terms.items }
    {
        Polynomial { terms }
    }

    /// The terms, in order.
    pub fn terms(&self) -> &[Term]
        ensures { result.now ≡ self.now }
    {
        &self.terms
    }

    /// What it is at these values: the sum of what its terms are. A factor whose number is beyond the values is 0.
    pub fn value(&self, values: &[Fe]) -> Fe
        ensures { result ≡ polynomial_value values.now self.now }
    {
        let mut sum = Fe::ZERO;
        for term in &self.terms {
            sum = sum + term.value(values);
        }
        sum
    }
}
