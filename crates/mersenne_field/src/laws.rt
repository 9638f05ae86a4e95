// Laws of the field's definitions.
ghost use Rattle.mersenne_field.specs.Laws.{PrimeIsPrime, ZeroProduct, IsRing};

/// 2^61 - 1 is a prime (Lucas and Lehmer's test of Mersenne numbers).
#[tactic(auto, using(crate::proofs::Prime::prime_is_prime))]
pub fn prime_is_prime()
    ensures { PrimeIsPrime }
{}

/// A product modulo the prime is 0 only where a factor is.
#[tactic(auto, using(crate::proofs::Prime::zero_product))]
pub fn zero_product()
    ensures { ZeroProduct }
{}

/// Sums and products modulo the prime are those of a commutative ring.
#[tactic(auto, using(crate::proofs::FieldLaws::is_ring))]
pub fn is_ring()
    ensures { IsRing }
{}
