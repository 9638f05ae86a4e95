// What an honest prover sends.
ghost use Rattle.std.specs.Prelude.{◌≡◌, ◌+◌, length, IfOk};
ghost use Rattle.poly_model.specs.Constraints.{degree};
ghost use Rattle.poly_model.specs.ConstraintCheck.{honest_sums};

use crate::key_polynomial::weighted_polynomial;
use mersenne_field::{Fe, Pair};
use poly_model::Polys;
use std::alloc::{AllocError, Global};

/// As many sums as the constraints' degree: the coefficients of the powers of the key below it, the constant first, of all
/// constraints under the challenge and of the masks. There is one mask fewer.
///
/// # Errors
///
/// Only where memory runs out.
pub fn poly_sums(
    alloc: Global,
    polys: &Polys,
    pairs: &[Pair],
    challenge: Fe,
    masks: &[Pair],
) -> Result<Vec<Fe>, AllocError>
    requires masks { length masks.now + 1 ≡ degree polys.now }
    ensures sums { IfOk result (λ sums. sums.items ≡ honest_sums polys.now pairs.now challenge masks.now) }
    ensures count { IfOk result (λ sums. length sums.items ≡ degree polys.now) }
{
    let degree = polys.degree();
    let whole = weighted_polynomial(polys, pairs, challenge);
    let mut sums = Vec::with_capacity(alloc, degree)?;
    let mut before = Fe::ZERO;
    for (l, mask) in masks.iter().enumerate() {
        sums.push(whole[l] + (mask.m + before))?;
        before = mask.x;
    }
    sums.push(whole[masks.len()] + before)?;
    Ok(sums)
}
