// What values show whose sums met the test.
ghost use Rattle.std.specs.Prelude.{◌≡◌, ◌+◌, ◌∷◌, ℕ, map, zip, length, IfOk};
ghost use Rattle.zk_model.specs.Field.{IsElement, ◌-ₚ◌};
ghost use Rattle.zk_model.specs.Mac.{values_of};
ghost use Rattle.poly_model.specs.Constraints.{degree};
ghost use Rattle.poly_model.specs.ConstraintCheck.{error_polynomial, HoldsOver};
ghost use Rattle.poly_check.specs.Found.{ShowsValues};

use crate::sums::poly_sums;
use mersenne_field::{Fe, Pair};
use poly_horner::{horner, is_zero_poly};
use poly_model::Polys;
use std::alloc::{AllocError, Global};

/// What a prover's values show whose sums met the test with some key. A polynomial is the list of its coefficients, the
/// constant first.
#[derive(Debug, PartialEq, Eq, Drop)]
pub enum PolyFinding {
    /// Every constraint is met.
    Values,
    /// The errors, of which the challenge is a root: 0, and then what each constraint is at the values.
    ChallengeRoot { polynomial: Vec<Fe> },
    /// A polynomial of which the verifier's key is a root: what should have been sent less what was, and the errors' value at the
    /// challenge.
    KeyRoot { polynomial: Vec<Fe> },
}

/// The values of pairs.
fn values_of(alloc: Global, pairs: &[Pair]) -> Result<Vec<Fe>, AllocError>
    ensures { IfOk result (λ values. values.items ≡ values_of pairs.now) }
{
    pairs.iter().map(|pair| pair.x).collect(alloc)
}

/// 0, and then what each constraint is at the values.
fn errors_of(alloc: Global, polys: &Polys, values: &[Fe]) -> Result<Vec<Fe>, AllocError>
    ensures { IfOk result (λ errors. errors.items ≡ error_polynomial polys.now values.now) }
{
    let constraints = polys.polynomials();
    let mut errors = Vec::with_capacity(alloc, constraints.len() + 1)?;
    errors.push(Fe::ZERO)?;
    for constraint in constraints {
        errors.push(constraint.value(values))?;
    }
    Ok(errors)
}

/// What should have been sent less what was.
fn differences(alloc: Global, should: &[Fe], sent: &[Fe]) -> Result<Vec<Fe>, AllocError>
    ensures { IfOk result (λ differences. differences.items
        ≡ map (λ q. q.0 -ₚ q.1) (zip should.now sent.now)) }
{
    should.iter().zip(sent).map(|(a, b)| *a - *b).collect(alloc)
}

/// What a prover's values show whose sums met the test with some key: that they meet every constraint; or a polynomial that
/// is not zero, of which the challenge is a root, or each key with which the test is met.
///
/// # Errors
///
/// Only where memory runs out.
pub fn poly_finding(
    alloc: Global,
    polys: &Polys,
    pairs: &[Pair],
    challenge: Fe,
    masks: &[Pair],
    sums: &[Fe],
) -> Result<PolyFinding, AllocError>
    requires masks { length masks.now + 1 ≡ degree polys.now }
    requires sums { length sums.now ≡ degree polys.now }
    requires met { (key : ℕ) × IsElement key
        × HoldsOver polys.now pairs.now challenge masks.now sums.now key }
    ensures { IfOk result (ShowsValues polys.now pairs.now challenge masks.now sums.now) }
{
    let values = values_of(alloc, pairs)?;
    let errors = errors_of(alloc, polys, &values)?;
    if is_zero_poly(&errors) {
        return Ok(PolyFinding::Values);
    }
    let value = horner(&errors, challenge);
    if value == Fe::ZERO {
        return Ok(PolyFinding::ChallengeRoot { polynomial: errors });
    }
    let honest = poly_sums(alloc, polys, pairs, challenge, masks)?;
    let mut polynomial = differences(alloc, &honest, sums)?;
    polynomial.push(value)?;
    Ok(PolyFinding::KeyRoot { polynomial })
}
