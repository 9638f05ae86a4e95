// The sums of parts of a list of products, on either side, and what either side has of a product.
ghost use Rattle.std.specs.Prelude.{◌≡◌, ◌++◌, ◌∷◌, ℕ, List, []};
ghost use Rattle.zk_model.specs.Check as model;
ghost use Rattle.zk_model.specs.Check.{honest_sums, section_left, constant_part, linear_part, key_part};
ghost use Rattle.mult_check.specs.Parts.{AreSumsOf, IsSumOf};

use crate::sections::Held;
use mersenne_field::{Fe, Pair};
use std::marker::Model;
use wire_auth::{KeyTriple, ProverWires, Triple, VerifierWires};

/// The sums over some of a list's items, at either end: over `T`, what the end has of a product.
pub(crate) trait Sums<T>: Copy + Send + Sync {
    ghost use Rattle.std.specs.Prelude.{List, [], ◌∷◌, ◌++◌};

    /// Sums over these items, for what a part over no item was made for.
    ghost Over: { Self → List T → Self → Type 0 };

    /// With the next item.
    fn with_next(self, item: T) -> Self
        ensures { (none : Self) (before : List T) → Over none before self
            → Over none (before ++ item ∷ []) result };

    /// With the next items, in order.
    fn with(self, items: &[T]) -> Self
        ensures { (none : Self) (before : List T) → Over none before self
            → Over none (before ++ items.now) result };

    /// With those of a later part.
    fn and(self, later: Self) -> Self
        ensures { (none : Self) (first rest : List T) → Over none first self → Over none rest later
            → Over none (first ++ rest) result };
}

/// The prover's two sums over some of a list's products, and the power of the challenge that the last of them has. With the
/// i-th product times the i-th power of the challenge, from the first on, the one sum adds up `a.m * b.m`, and the other
/// `a.x * b.m + b.x * a.m - c.m` (Yang, Sarkar, Weng and Wang, QuickSilver, ACM CCS 2021). It takes no memory.
#[derive(Clone, Copy, Debug)]
pub struct ProverPart {
    challenge: Fe,
    power: Fe,
    constant: Fe,
    linear: Fe,
}

impl Model for ProverPart {
    ghost use Rattle.mult_check.specs.Parts as parts;

    ghost Value = { parts.PairSums };

    ghost view = { λ p. record {
      challenge = p.challenge;
      power = p.power;
      constant = p.constant;
      linear = p.linear;
    } };

    ghost inverse = { λ p. record {
      challenge = p.challenge;
      power = p.power;
      constant = p.constant;
      linear = p.linear;
    } };
}

/// What the prover knows of a product without the key.
#[inline(always)]
fn constant_part(triple: Triple) -> Fe
    ensures { result ≡ constant_part triple }
{
    triple.a.m * triple.b.m
}

/// What it knows of the key to the 1.
#[inline(always)]
fn linear_part(triple: Triple) -> Fe
    ensures { result ≡ linear_part triple }
{
    let Triple { a, b, c } = triple;
    a.x * b.m + b.x * a.m - c.m
}

impl ProverPart {
    /// Over no product.
    pub fn new(challenge: Fe) -> Self
        ensures { AreSumsOf challenge [] result }
    {
        ProverPart {
            challenge,
            power: Fe::ONE,
            constant: Fe::ZERO,
            linear: Fe::ZERO,
        }
    }

    /// Adds the next product.
    pub fn push(&mut self, triple: Triple)
        ensures { (challenge : ℕ) (before : List model.Triple) → AreSumsOf challenge before self.old
            → AreSumsOf challenge (before ++ triple ∷ []) self.new }
    {
        self.power = self.power * self.challenge;
        self.constant = self.constant + constant_part(triple) * self.power;
        self.linear = self.linear + linear_part(triple) * self.power;
    }

    /// Adds the next products, in order.
    pub fn extend(&mut self, triples: &[Triple])
        ensures { (challenge : ℕ) (before : List model.Triple) → AreSumsOf challenge before self.old
            → AreSumsOf challenge (before ++ triples.now) self.new }
    {
        for triple in triples {
            self.push(*triple);
        }
    }

    /// The sums over this part's products and those of a later part, for the same challenge.
    pub fn join(self, later: ProverPart) -> Self
        ensures { (challenge : ℕ) (first rest : List model.Triple) → AreSumsOf challenge first self
            → AreSumsOf challenge rest later → AreSumsOf challenge (first ++ rest) result }
    {
        ProverPart {
            challenge: self.challenge,
            power: self.power * later.power,
            constant: self.constant + later.constant * self.power,
            linear: self.linear + later.linear * self.power,
        }
    }

    /// U and V, under a mask.
    pub fn masked(self, mask: Pair) -> (Fe, Fe)
        ensures { (challenge : ℕ) (triples : List model.Triple) → AreSumsOf challenge triples self
            → result ≡ honest_sums challenge triples mask }
    {
        (self.constant + mask.m, self.linear + mask.x)
    }
}

/// The verifier's sum over some of a list's products, and the power of the challenge that the last of them has: `a * b - c * key`
/// of each product's keys times its power of the challenge, added up (as above). It takes no memory.
#[derive(Clone, Copy, Debug)]
pub struct VerifierPart {
    challenge: Fe,
    key: Fe,
    power: Fe,
    sum: Fe,
}

impl Model for VerifierPart {
    ghost use Rattle.mult_check.specs.Parts as parts;

    ghost Value = { parts.KeySum };

    ghost view = { λ p. record {
      challenge = p.challenge;
      key = p.key;
      power = p.power;
      sum = p.sum;
    } };

    ghost inverse = { λ p. record {
      challenge = p.challenge;
      key = p.key;
      power = p.power;
      sum = p.sum;
    } };
}

/// What the keys tell of a product.
#[inline(always)]
fn key_part(key: Fe, triple: KeyTriple) -> Fe
    ensures { result ≡ key_part key triple }
{
    triple.a * triple.b - triple.c * key
}

impl VerifierPart {
    /// Over no product.
    pub fn new(challenge: Fe, key: Fe) -> Self
        ensures { IsSumOf key challenge [] result }
    {
        VerifierPart {
            challenge,
            key,
            power: Fe::ONE,
            sum: Fe::ZERO,
        }
    }

    /// Adds the next product.
    pub fn push(&mut self, triple: KeyTriple)
        ensures { (key challenge : ℕ) (before : List model.KeyTriple) → IsSumOf key challenge before self.old
            → IsSumOf key challenge (before ++ triple ∷ []) self.new }
    {
        self.power = self.power * self.challenge;
        self.sum = self.sum + key_part(self.key, triple) * self.power;
    }

    /// Adds the next products, in order.
    pub fn extend(&mut self, triples: &[KeyTriple])
        ensures { (key challenge : ℕ) (before : List model.KeyTriple) → IsSumOf key challenge before self.old
            → IsSumOf key challenge (before ++ triples.now) self.new }
    {
        for triple in triples {
            self.push(*triple);
        }
    }

    /// The sum over this part's products and those of a later part, for the same challenge and key.
    pub fn join(self, later: VerifierPart) -> Self
        ensures { (key challenge : ℕ) (first rest : List model.KeyTriple) → IsSumOf key challenge first self
            → IsSumOf key challenge rest later → IsSumOf key challenge (first ++ rest) result }
    {
        VerifierPart {
            challenge: self.challenge,
            key: self.key,
            power: self.power * later.power,
            sum: self.sum + later.sum * self.power,
        }
    }

    /// The left side of the check, from the key of a mask.
    pub fn masked(self, mask: Fe) -> Fe
        ensures { (key challenge : ℕ) (triples : List model.KeyTriple) → IsSumOf key challenge triples self
            → result ≡ section_left key challenge triples mask }
    {
        self.sum + mask
    }
}

impl Sums<Triple> for ProverPart {
    ghost use Rattle.mult_check.specs.Parts.{AreSumsOf};

    ghost Over = { λ none triples part. AreSumsOf none.challenge triples part };

    fn with_next(mut self, triple: Triple) -> Self {
        self.push(triple);
        self
    }

    fn with(mut self, triples: &[Triple]) -> Self {
        self.extend(triples);
        self
    }

    fn and(self, later: ProverPart) -> Self {
        self.join(later)
    }
}

impl Sums<KeyTriple> for VerifierPart {
    ghost use Rattle.mult_check.specs.Parts.{IsSumOf};

    ghost Over = { λ none triples part. IsSumOf none.key none.challenge triples part };

    fn with_next(mut self, triple: KeyTriple) -> Self {
        self.push(triple);
        self
    }

    fn with(mut self, triples: &[KeyTriple]) -> Self {
        self.extend(triples);
        self
    }

    fn and(self, later: VerifierPart) -> Self {
        self.join(later)
    }
}

impl<'a> Held<Triple> for ProverWires<'a> {
    ghost use Rattle.zk_model.specs.Check.{product_triple};

    ghost products = { λ wires. wires.program.products };

    ghost of = { λ wires product. product_triple wires.pairs product };

    fn count(&self) -> usize {
        self.program().products()
    }

    fn item(&self, i: usize) -> Triple {
        self.triple(i)
    }
}

impl<'a> Held<KeyTriple> for VerifierWires<'a> {
    ghost use Rattle.zk_model.specs.Check.{key_triple};

    ghost products = { λ wires. wires.program.products };

    ghost of = { λ wires product. key_triple wires.keys product };

    fn count(&self) -> usize {
        self.program().products()
    }

    fn item(&self, i: usize) -> KeyTriple {
        self.triple(i)
    }
}

/// U and V of a section under a mask, for the challenge: the mask's MAC joins U, and its value V. One pass, no memory.
pub fn section_sums(triples: &[Triple], challenge: Fe, mask: Pair) -> (Fe, Fe)
    ensures { result ≡ honest_sums challenge triples.now mask }
{
    let mut part = ProverPart::new(challenge);
    part.extend(triples);
    part.masked(mask)
}

/// The left side of the check of a section, from its keys and that of its mask. One pass, no memory.
pub fn section_left(triples: &[KeyTriple], challenge: Fe, mask: Fe, key: Fe) -> Fe
    ensures { result ≡ section_left key challenge triples.now mask }
{
    let mut part = VerifierPart::new(challenge, key);
    part.extend(triples);
    part.masked(mask)
}
