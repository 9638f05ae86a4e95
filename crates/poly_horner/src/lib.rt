//! Polynomials over the field modulo 2^61 - 1. A polynomial is the slice of its coefficients, the constant first. Nothing
//! here is refused, and nothing takes memory.
//!
//! `horner` is the value at a point, `power` a power, `is_zero_poly` whether all coefficients are 0, `degree` the last place
//! that is not 0.
//!
//!     let is_root = horner(&errors, challenge) == Fe::ZERO && !is_zero_poly(&errors);
#![tactic(auto)]

ghost use Rattle.std.specs.Prelude.{◌≡◌, ◌%◌, ◌^◌, ◌↔◌, IsTrue, IsNone, IfSome};
ghost use Rattle.zk_model.specs.Field.{prime};
ghost use Rattle.zk_model.specs.Polynomial.{value_at, IsZero, IsDegree};

use mersenne_field::Fe;

/// The value of a polynomial at a point: the sum of coefficient i times the point to the i, by Horner's rule (Knuth, The
/// Art of Computer Programming, volume 2, 4.6.4). Of no coefficients it is 0.
pub fn horner(coefficients: &[Fe], point: Fe) -> Fe
    ensures { result ≡ value_at coefficients.now point }
{
    let mut value = Fe::ZERO;
    for coefficient in coefficients.iter().rev() {
        value = *coefficient + value * point;
    }
    value
}

/// An element to the power of a whole number, by squaring (Knuth, The Art of Computer Programming, volume 2, 4.6.3). To the
/// power of 0 it is 1, also where the element is 0.
pub fn power(base: Fe, exponent: u32) -> Fe
    ensures { result ≡ base ^ exponent % prime }
{
    let mut product = Fe::ONE;
    let mut square = base;
    let mut rest = exponent;
    while rest > 0 {
        if rest % 2 == 1 {
            product = product * square;
        }
        square = square * square;
        rest /= 2;
    }
    product
}

/// Whether every coefficient is 0, as where there is none.
pub fn is_zero_poly(coefficients: &[Fe]) -> bool
    ensures { IsTrue result ↔ IsZero coefficients.now }
{
    coefficients.iter().all(|a| *a == Fe::ZERO)
}

/// The place of the last coefficient that is not 0, and none exactly where every coefficient is 0.
pub fn degree(coefficients: &[Fe]) -> Option<usize>
    ensures zero { IsNone result ↔ IsZero coefficients.now }
    ensures degree { IfSome result (IsDegree coefficients.now) }
{
    let mut end = coefficients.len();
    while end > 0 && coefficients[end - 1] == Fe::ZERO {
        end -= 1;
    }
    end.checked_sub(1)
}
