// The test of a prover's sums.
ghost use Rattle.std.specs.Prelude.{◌≡◌, ◌≤◌, ◌-◌, ◌*◌, ◌%◌, ◌^◌, All, length, IfOk, IfErr};
ghost use Rattle.zk_model.specs.Field.{prime};
ghost use Rattle.poly_model.specs.Constraints.{term_value};
ghost use Rattle.poly_model.specs.ConstraintCheck.{key_part, left_side, right_side, Holds};

use mersenne_field::Fe;
use poly_horner::{horner, power};
use poly_model::{Polynomial, Polys, Term};
use thiserror::Error;

/// The equation of the constraints fails: both sides. All constraints are one section, whose number is 0.
#[derive(Clone, Copy, Debug, PartialEq, Eq, Error)]
#[error("the equation of section {section} fails")]
pub struct Differs {
    pub section: u32,
    pub left: Fe,
    pub right: Fe,
}

/// A term over keys, times the key to the power that it lacks of the degree.
fn lifted(degree: usize, key: Fe, keys: &[Fe], term: &Term) -> Fe
    requires few { length term.now.factors ≤ degree }
    requires small { degree ≤ 8 }
    ensures { result ≡ (term_value keys.now term.now * key ^ (degree - length term.now.factors)) % prime }
{
    let lacking = degree - term.factors().len();
    term.value(keys) * power(key, lacking as u32)
}

/// What the verifier has of a constraint.
fn key_part(degree: usize, key: Fe, keys: &[Fe], constraint: &Polynomial) -> Fe
    requires few { All (λ term. length term.factors ≤ degree) constraint.now }
    requires small { degree ≤ 8 }
    ensures { result ≡ key_part degree key keys.now constraint.now }
{
    let terms = constraint.terms();
    let mut sum = Fe::ZERO;
    for term in terms {
        sum = sum + lifted(degree, key, keys, term);
    }
    sum
}

/// The left side, from the keys.
fn left_side(polys: &Polys, keys: &[Fe], key: Fe, challenge: Fe, mask_keys: &[Fe]) -> Fe
    ensures { result ≡ left_side polys.now keys.now key challenge mask_keys.now }
{
    let degree = polys.degree();
    let constraints = polys.polynomials();
    let mut weight = Fe::ONE;
    let mut left = Fe::ZERO;
    for constraint in constraints {
        weight = weight * challenge;
        left = left + key_part(degree, key, keys, constraint) * weight;
    }
    left + horner(mask_keys, key)
}

/// Tests the equation: its left side, from the keys of the values and of the masks, is the value at the key of the sums that
/// were sent, the coefficient of the key to the 0 first. It takes no memory.
///
/// # Errors
///
/// Exactly where the equation fails: both sides.
pub fn poly_verify(
    polys: &Polys,
    keys: &[Fe],
    key: Fe,
    challenge: Fe,
    mask_keys: &[Fe],
    sums: &[Fe],
) -> Result<(), Differs>
    ensures holds { IfOk result (λ _. Holds polys.now keys.now key challenge mask_keys.now sums.now) }
    ensures differs { IfErr result (λ d. (¬ Holds polys.now keys.now key challenge mask_keys.now sums.now)
        × (d ≡ record {
          section = 0;
          left = left_side polys.now keys.now key challenge mask_keys.now;
          right = right_side key sums.now;
        })) }
{
    let left = left_side(polys, keys, key, challenge, mask_keys);
    let right = horner(sums, key);
    if left != right {
        return Err(Differs {
            section: 0,
            left,
            right,
        });
    }
    Ok(())
}
