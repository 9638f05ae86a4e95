//! Arithmetic in the field of the integers modulo the prime 2^61 - 1, and authenticated values over it.
//!
//! `Fe` is an element, `Pair` a value with its MAC. `laws` says that the prime is prime, that a product is 0 only where a
//! factor is, and that the elements are a ring.
//!
//!     let key = pair.m + pair.x * global_key;
//!     let read = Fe::from_le(&bytes)?; // none at the prime or more
#![tactic(auto)]

pub mod laws;

ghost use Rattle.std.specs.Prelude.{◌≡◌, ◌*◌, ◌%◌, ◌<◌, ◌↔◌, IsSome, IfSome};
ghost use Rattle.std.specs.Int.{w64, from_le_bytes};
ghost use Rattle.zk_model.specs.Bits.{from_bit};
ghost use Rattle.zk_model.specs.Field.{prime, IsElement, ◌+ₚ◌, ◌-ₚ◌, ◌*ₚ◌, from_word};
ghost use Rattle.zk_model.specs.Bytes.{element_bytes};

use std::marker::Model;
use std::ops::{Add, Mul, Neg, Sub};

/// The number of elements of the field, the Mersenne prime 2^61 - 1.
const PRIME: u64 = (1 << 61) - 1;

/// An element of the field. Contracts see it as a whole number below the prime.
#[derive(Clone, Copy, PartialEq, Eq, Debug)]
pub struct Fe {
    word: u64,
}

impl Model for Fe {
    ghost use Rattle.std.specs.Prelude.{ℕ};
    ghost use Rattle.zk_model.specs.Field.{IsElement};

    ghost Value = { ℕ };

    ghost view = { λ a. a.word };

    ghost invariant = { λ a. IsElement a.word };

    ghost inverse = { λ n. record { word = n } };
}

impl Fe {
    pub const ZERO: Fe = Fe { word: 0 };

    pub const ONE: Fe = Fe { word: 1 };

    /// The number that the element stands for.
    pub fn value(self) -> u64
        ensures value { result ≡ self }
        ensures below { IsElement result }
    {
        self.word
    }

    /// The sum, modulo the prime.
    pub fn add(self, other: Fe) -> Fe
        ensures { result ≡ self +ₚ other }
    {
        Fe {
            word: reduced(self.word + other.word),
        }
    }

    /// The difference, modulo the prime.
    pub fn sub(self, other: Fe) -> Fe
        ensures { result ≡ self -ₚ other }
    {
        Fe {
            word: reduced(self.word + (PRIME - other.word)),
        }
    }

    /// The element whose sum with this one is zero.
    pub fn neg(self) -> Fe
        ensures { result ≡ 0 -ₚ self }
    {
        Fe {
            word: reduced(PRIME - self.word),
        }
    }

    /// The product, modulo the prime. Since 2^61 leaves the remainder 1, the high bits of the whole
    /// product are added to its low 61 bits.
    pub fn mul(self, other: Fe) -> Fe
        ensures { result ≡ self *ₚ other }
    {
        let product = self.word as u128 * other.word as u128;
        let low = (product & PRIME as u128) as u64;
        let high = (product >> 61) as u64;
        Fe {
            word: reduced(high + low),
        }
    }

    /// The element of a bit: one or zero.
    pub fn from_bit(bit: bool) -> Fe
        ensures { result ≡ from_bit bit }
    {
        if bit { Fe::ONE } else { Fe::ZERO }
    }

    /// The element of a 64-bit word: its low 61 bits, modulo the prime.
    pub fn from_word(word: u64) -> Fe
        ensures { result ≡ from_word word }
    {
        Fe {
            word: reduced(word & PRIME),
        }
    }

    /// The element as 8 bytes, the low one first.
    pub fn to_le(self) -> [u8; 8]
        ensures bytes { result ≡ element_bytes self }
        ensures element { IsElement self }
    {
        self.word.to_le_bytes()
    }

    /// The element of 8 bytes, the low one first, and none where they spell the prime or more. So an
    /// element has one spelling.
    pub fn from_le(bytes: &[u8; 8]) -> Option<Fe>
        ensures below { IsSome result ↔ IsElement (from_le_bytes w64 bytes.now) }
        ensures value { IfSome result (λ a. a ≡ from_le_bytes w64 bytes.now) }
        ensures spelling { IfSome result (λ a. element_bytes a ≡ bytes.now) }
    {
        let word = u64::from_le_bytes(*bytes);
        if word < PRIME {
            Some(Fe { word })
        } else {
            None
        }
    }
}

/// A number below twice the prime, modulo the prime.
fn reduced(number: u64) -> u64
    requires { number < 2 * prime }
    ensures { result ≡ number % prime }
{
    if number >= PRIME {
        number - PRIME
    } else {
        number
    }
}

impl Add for Fe {
    type Output = Fe;

    ghost add_gives = { λ a b r. r ≡ a +ₚ b };

    fn add(self, other: Fe) -> Fe {
        Fe::add(self, other)
    }
}

impl Sub for Fe {
    type Output = Fe;

    ghost sub_gives = { λ a b r. r ≡ a -ₚ b };

    fn sub(self, other: Fe) -> Fe {
        Fe::sub(self, other)
    }
}

impl Mul for Fe {
    type Output = Fe;

    ghost mul_gives = { λ a b r. r ≡ a *ₚ b };

    fn mul(self, other: Fe) -> Fe {
        Fe::mul(self, other)
    }
}

impl Neg for Fe {
    type Output = Fe;

    ghost neg_gives = { λ a r. r ≡ 0 -ₚ a };

    fn neg(self) -> Fe {
        Fe::neg(self)
    }
}

/// A value and its MAC: what a prover holds of an authenticated value.
#[derive(Clone, Copy, PartialEq, Eq, Debug)]
pub struct Pair {
    pub x: Fe,
    pub m: Fe,
}

impl Model for Pair {
    ghost use Rattle.zk_model.specs.Mac as mac;

    ghost Value = { mac.Pair };

    ghost view = { λ pair. record { x = pair.x; m = pair.m } };

    ghost inverse = { λ pair. record { x = pair.x; m = pair.m } };
}
