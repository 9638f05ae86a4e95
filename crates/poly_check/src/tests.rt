// The constraint that the square of the one value is 9, over worked values: the key 5, the challenge 2, a mask of the value 4.
ghost use Rattle.std.specs.Prelude.{◌≡◌};
ghost use Rattle.zk_model.specs.Mac.{fitting_key};

use super::*;
use mersenne_field::{Fe, Pair};
use poly_model::{Polynomial, Polys, Term};
use std::alloc::Global;
use std::test::Fail;

/// The constraint.
fn nine(alloc: Global) -> Result<Polys, Fail> {
    let mut square = Term::new(Fe::ONE);
    square.push(0);
    square.push(0);
    let less_nine = Term::new(Fe::from_word(2_305_843_009_213_693_942));
    let mut terms = Vec::new(alloc);
    terms.push(square)?;
    terms.push(less_nine)?;
    let mut polys = Polys::new(alloc, 1);
    polys.push(Polynomial::new(terms))?;
    Ok(polys)
}

/// A pair of small numbers.
fn small_pair(x: u64, m: u64) -> Pair {
    Pair {
        x: Fe::from_word(x),
        m: Fe::from_word(m),
    }
}

/// The mask.
fn mask() -> Pair {
    small_pair(4, 9)
}

/// Small sums.
fn small_sums(first: u64, second: u64) -> [Fe; 2] {
    [Fe::from_word(first), Fe::from_word(second)]
}

/// The key that fits a pair.
fn key_of(key: Fe, pair: Pair) -> Fe
    ensures { result ≡ fitting_key key pair }
{
    pair.m + pair.x * key
}

/// What an honest prover sends who has this value and MAC.
fn sums_of(alloc: Global, pair: Pair) -> Result<Vec<Fe>, Fail> {
    let polys = nine(alloc)?;
    if polys.degree() != 2 {
        return Err(Fail::new("another degree"));
    }
    let sums = poly_sums(alloc, &polys, &[pair], Fe::from_word(2), &[mask()])?;
    Ok(sums)
}

/// What is found of this value and MAC, where these sums meet the test.
fn found(alloc: Global, pair: Pair, sums: &[Fe]) -> Result<PolyFinding, Fail> {
    let polys = nine(alloc)?;
    let key = Fe::from_word(5);
    let challenge = Fe::from_word(2);
    let mask = mask();
    let keys = [key_of(key, pair)];
    let mask_keys = [key_of(key, mask)];
    if polys.degree() != 2 || sums.len() != 2 {
        return Err(Fail::new("another degree"));
    }
    if poly_verify(&polys, &keys, key, challenge, &mask_keys, sums).is_err() {
        return Err(Fail::new("the equation fails"));
    }
    let finding = poly_finding(alloc, &polys, &[pair], challenge, &[mask], sums)?;
    Ok(finding)
}

#[test]
fn three_meets_it(rt: HostRuntime) -> Result<(), Fail> {
    let three = small_pair(3, 10);
    let sums = sums_of(rt.alloc(), three)?;
    assert!(rt; sums.as_slice() == small_sums(209, 124).as_slice());
    assert!(rt; found(rt.alloc(), three, &sums)? == PolyFinding::Values);
    Ok(())
}

#[test]
fn four_is_found_where_the_key_is_hit(rt: HostRuntime) -> Result<(), Fail> {
    let finding = found(rt.alloc(), small_pair(4, 10), &small_sums(559, 164))?;
    let root = [2_305_843_009_213_693_601, 0, 14];
    match finding {
        PolyFinding::KeyRoot { polynomial } => {
            let words: Vec<u64> = polynomial.iter().map(|a| a.value()).collect(rt.alloc())?;
            assert!(rt; words.as_slice() == root.as_slice());
            Ok(())
        }
        _ => Err(Fail::new("another finding")),
    }
}

#[test]
fn sides_differ(rt: HostRuntime) -> Result<(), Fail> {
    let polys = nine(rt.alloc())?;
    let keys = [Fe::from_word(25)];
    let mask_keys = [Fe::from_word(29)];
    let sums = small_sums(209, 125);
    let key = Fe::from_word(5);
    let answer = poly_verify(&polys, &keys, key, Fe::from_word(2), &mask_keys, &sums);
    let differs = Differs {
        section: 0,
        left: Fe::from_word(829),
        right: Fe::from_word(834),
    };
    assert!(rt; answer == Err(differs));
    Ok(())
}
