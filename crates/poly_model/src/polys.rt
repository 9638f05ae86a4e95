// A list of constraints.
ghost use Rattle.std.specs.Prelude.{◌≡◌, ◌≤◌, ◌<◌, ◌^◌, ◌∷◌, ◌++◌, [], All, max, map, fold, length, IfOk, IfErr};
ghost use Rattle.poly_model.specs.Constraints.{degree, degree_of};
ghost use Rattle.poly_model.specs.declared.limits.TheConstants.{MAX_CONSTRAINTS, MAX_FACTORS};

use crate::polynomial::Polynomial;
use crate::term::Term;
use std::alloc::{AllocError, Global};
use std::marker::Model;

/// Polynomials of so many values, each of which is to be 0. Their degree, the greatest number of factors of a term and at least 2,
/// is kept beside them.
#[derive(Debug, Drop)]
pub struct Polys {
    variables: u32,
    degree: usize,
    polynomials: Vec<Polynomial>,
}

impl Model for Polys {
    ghost use Rattle.std.specs.Prelude.{◌≡◌, ◌≤◌, length};
    ghost use Rattle.poly_model.specs.Constraints as model;
    ghost use Rattle.poly_model.specs.Constraints.{degree_of};
    ghost use Rattle.poly_model.specs.declared.limits.TheConstants.{MAX_CONSTRAINTS, MAX_FACTORS};

    ghost Value = { model.Constraints };

    ghost view = { λ p. record { variables = p.variables; polynomials = p.polynomials.items } };

    ghost invariant = { λ p. (p.degree ≡ degree_of p.polynomials.items) × (p.degree ≤ MAX_FACTORS)
        × (length p.polynomials.items ≤ MAX_CONSTRAINTS) };
}

/// The greatest of a number and of the terms' numbers of factors.
fn most_factors(least: usize, terms: &[Term]) -> usize
    requires small { least ≤ MAX_FACTORS }
    ensures value { result ≡ fold max least (map (λ term. length term.factors) terms.now) }
    ensures small { result ≤ MAX_FACTORS }
{
    let mut most = least;
    for term in terms {
        most = most.max(term.factors().len());
    }
    most
}

impl Polys {
    /// No constraint yet, over so many values.
    pub fn new(alloc: Global, variables: u32) -> Polys
        ensures { result ≡ record { variables = variables; polynomials = [] } }
    {
        Polys {
            variables,
            degree: 2,
            polynomials: Vec::new(alloc),
        }
    }

    /// Has one constraint more.
    ///
    /// # Errors
    ///
    /// Only where memory runs out; then the list is as it was.
    pub fn push(&mut self, polynomial: Polynomial) -> Result<(), AllocError>
        requires room { length self.old.polynomials < MAX_CONSTRAINTS }
        ensures pushed { IfOk result (λ _. self.new
            ≡ record self.old { polynomials = self.old.polynomials ++ polynomial ∷ [] }) }
        ensures kept { IfErr result (λ _. self.new ≡ self.old) }
    {
        let degree = most_factors(self.degree, polynomial.terms());
        self.polynomials.push(polynomial)?;
        self.degree = degree;
        Ok(())
    }

    /// How many values there are.
    pub fn variables(&self) -> u32
        ensures { result ≡ self.now.variables }
    {
        self.variables
    }

    /// The greatest number of factors of a term, and at least 2. A term whose coefficient is 0 counts too.
    pub fn degree(&self) -> usize
        ensures value { result ≡ degree self.now }
        ensures least { 2 ≤ result }
        ensures most { result ≤ MAX_FACTORS }
        ensures few { All (All (λ term. length term.factors ≤ result)) self.now.polynomials }
    {
        self.degree
    }

    /// The constraints, in order.
    pub fn polynomials(&self) -> &[Polynomial]
        ensures value { result.now ≡ self.now.polynomials }
        ensures few { length result.now ≤ MAX_CONSTRAINTS }
    {
        &self.polynomials
    }
}
