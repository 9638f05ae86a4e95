// Polynomials in the key, of degree 8 at most: arrays of their coefficients, the constant first.
ghost use Rattle.std.specs.Prelude.{◌≡◌, ◌≤◌, ◌+◌, ◌-◌, ◌%◌, ◌^◌, ℕ, List, All, length, replicate};
ghost use Rattle.zk_model.specs.Field.{prime};
ghost use Rattle.zk_model.specs.Mac.{pair_at};
ghost use Rattle.poly_model.specs.ConstraintCheck.{added, scaled, times_pair, monomial};
ghost use Rattle.poly_model.specs.ConstraintCheck.{term_polynomial, constraint_polynomial, weighted_polynomial};
ghost use Rattle.poly_model.specs.Constraints.{degree};
ghost use Rattle.poly_check.specs.Filled.{Fills};

use mersenne_field::{Fe, Pair};
use poly_model::{Polynomial, Polys, Term};

/// As many coefficients as a polynomial of degree 8 has.
pub(crate) type KeyPolynomial = [Fe; 9];

/// No coefficient but 0.
const NOTHING: KeyPolynomial = [Fe::ZERO; 9];

/// Times m + x * key.
fn times(polynomial: KeyPolynomial, pair: Pair) -> KeyPolynomial
    ensures { (cs : List ℕ) → length cs ≤ 8 → Fills cs polynomial → Fills (times_pair cs pair) result }
{
    let Pair { x, m } = pair;
    let [a, b, c, d, e, f, g, h, i] = polynomial;
    [
        m * a,
        m * b + x * a,
        m * c + x * b,
        m * d + x * c,
        m * e + x * d,
        m * f + x * e,
        m * g + x * f,
        m * h + x * g,
        m * i + x * h,
    ]
}

/// Coefficient by coefficient.
fn plus(some: KeyPolynomial, others: KeyPolynomial) -> KeyPolynomial
    ensures { (cs ds : List ℕ) → length cs ≡ length ds → Fills cs some → Fills ds others
        → Fills (added cs ds) result }
{
    let [a, b, c, d, e, f, g, h, i] = some;
    let [j, k, l, m, n, o, p, q, r] = others;
    [
        a + j,
        b + k,
        c + l,
        d + m,
        e + n,
        f + o,
        g + p,
        h + q,
        i + r,
    ]
}

/// Times a number.
fn scaled(weight: Fe, polynomial: KeyPolynomial) -> KeyPolynomial
    ensures { (cs : List ℕ) → Fills cs polynomial → Fills (scaled weight cs) result }
{
    let [a, b, c, d, e, f, g, h, i] = polynomial;
    [
        weight * a,
        weight * b,
        weight * c,
        weight * d,
        weight * e,
        weight * f,
        weight * g,
        weight * h,
        weight * i,
    ]
}

/// A number times the key to a power.
fn monomial(coefficient: Fe, power: usize) -> KeyPolynomial
    requires within { power ≤ 8 }
    ensures { Fills (monomial coefficient power) result }
{
    let mut polynomial = NOTHING;
    polynomial[power] = coefficient;
    polynomial
}

/// The pair of this number, or one of zeros.
fn pair_at(pairs: &[Pair], number: u16) -> Pair
    ensures { result ≡ pair_at pairs.now number }
{
    match pairs.get(number as usize) {
        Some(pair) => *pair,
        None => Pair {
            x: Fe::ZERO,
            m: Fe::ZERO,
        },
    }
}

/// A term with m + x * key in place of each value, times the key to the power that it lacks of the degree.
fn term_polynomial(degree: usize, pairs: &[Pair], term: &Term) -> KeyPolynomial
    requires few { length term.now.factors ≤ degree }
    requires small { degree ≤ 8 }
    ensures { Fills (term_polynomial degree pairs.now term.now) result }
{
    let factors = term.factors();
    let mut polynomial = monomial(term.coefficient(), degree - factors.len());
    for number in factors {
        polynomial = times(polynomial, pair_at(pairs, *number));
    }
    polynomial
}

/// All terms of a constraint.
fn constraint_polynomial(degree: usize, pairs: &[Pair], constraint: &Polynomial) -> KeyPolynomial
    requires few { All (λ term. length term.factors ≤ degree) constraint.now }
    requires small { degree ≤ 8 }
    ensures { Fills (constraint_polynomial degree pairs.now constraint.now) result }
{
    let terms = constraint.terms();
    let mut total = NOTHING;
    for term in terms {
        total = plus(total, term_polynomial(degree, pairs, term));
    }
    total
}

/// All constraints, the first times the challenge, the second times its square, and so on.
pub(crate) fn weighted_polynomial(polys: &Polys, pairs: &[Pair], challenge: Fe) -> KeyPolynomial
    ensures { Fills (weighted_polynomial (degree polys.now) pairs.now challenge 1 polys.now.polynomials)
        result }
{
    let degree = polys.degree();
    let constraints = polys.polynomials();
    let mut weight = Fe::ONE;
    let mut total = NOTHING;
    for constraint in constraints {
        weight = weight * challenge;
        total = plus(
            total,
            scaled(weight, constraint_polynomial(degree, pairs, constraint)),
        );
    }
    total
}
