// Both checks in two parts: the left sides of their equations, which wait for nothing that a prover sends behind its corrections, and their
// comparison with the right sides.
ghost use Rattle.std.specs.Prelude.{◌≡◌, ◌≤◌, ◌<◌, ◌^◌, [], length, IfOk, IfErr, OnOk};
ghost use Rattle.zk_model.specs.Check.{AllOpeningsHold, AllSectionsHold, ProductCheck};
ghost use Rattle.zk_model.specs.Program.{section_count};
ghost use Rattle.wire_auth.specs.Sides.{VerifierSide};
ghost use Rattle.mult_check.specs.Checks.{OpensFirst, SectionDiffersFirst, all_left_sides, opened_keys, opening_check, product_check};

use crate::openings::{OpeningDiffers, check_opening};
use crate::parts::VerifierPart;
use crate::sections::{Differs, meets};
use crate::walked::section_along;
use mersenne_field::Fe;
use std::alloc::{AllocError, Global};
use wire_auth::VerifierWalk;

/// The left side of the equation of every section of g products, of a walk that has given no product yet. It has then given all.
///
/// # Errors
///
/// Only where memory runs out.
pub fn left_sides_along(
    alloc: Global,
    walk: &mut VerifierWalk<'_>,
    g: u64,
    challenge: Fe,
    mask_keys: &[Fe],
    key: Fe,
) -> Result<Vec<Fe>, AllocError>
    requires fresh { walk.old.met ≡ 0 }
    requires at_least_one { 1 ≤ g }
    requires masks { length mask_keys.now ≡ section_count walk.old.side.program g }
    ensures side { walk.new.side ≡ walk.old.side }
    ensures met { OnOk result (length walk.old.side.program.products ≤ walk.new.met) }
    ensures left_sides { IfOk result (λ v. v.items
        ≡ all_left_sides (product_check walk.old.side g challenge mask_keys.now key [])) }
{
    let _products = walk.products();
    let none = VerifierPart::new(challenge, key);
    let mut left_sides = Vec::with_capacity(alloc, mask_keys.len())?;
    for (s, mask) in mask_keys.iter().enumerate() {
        let part = section_along(walk, g as usize, s, none);
        left_sides.push(part.masked(*mask))?;
    }
    Ok(left_sides)
}

/// Tests the equation of every section, one after another, by its left side, as `check` does. It takes no memory.
///
/// # Errors
///
/// Exactly where an equation fails: the first section whose sides differ, with both.
pub fn check_left_sides(left_sides: &[Fe], key: Fe, sums: &[(Fe, Fe)]) -> Result<(), Differs>
    requires sums { length sums.now ≡ length left_sides.now }
    requires few { length left_sides.now < 2 ^ 32 }
    ensures holds { IfOk result (λ _. (check : ProductCheck) → left_sides.now ≡ all_left_sides check
        → check.key ≡ key → check.sums ≡ sums.now → AllSectionsHold check) }
    ensures differs { IfErr result (λ d. (check : ProductCheck) → left_sides.now ≡ all_left_sides check
        → check.key ≡ key → check.sums ≡ sums.now → SectionDiffersFirst check d) }
{
    for (s, left) in left_sides.iter().enumerate() {
        meets(s as u32, *left, sums[s], key)?;
    }
    Ok(())
}

/// The keys of the opened wires, of a walk that has given its last product: the left sides of their equations.
///
/// # Errors
///
/// Only where memory runs out.
pub fn opened_keys_along(alloc: Global, walk: &VerifierWalk<'_>) -> Result<Vec<Fe>, AllocError>
    requires done { length walk.now.side.program.products ≤ walk.now.met }
    ensures { IfOk result (λ keys. keys.items ≡ opened_keys walk.now.side) }
{
    let opened = walk.program().opened();
    let mut keys = Vec::with_capacity(alloc, opened.len())?;
    for o in 0..opened.len() {
        keys.push(walk.output(o))?;
    }
    Ok(keys)
}

/// Tests the equation of every opened wire, one after another, by its key, as `check_openings` does. It takes no memory.
///
/// # Errors
///
/// As `check_openings`.
pub fn check_opened_keys(
    keys: &[Fe],
    key: Fe,
    macs: &[Fe],
    claims: &[Fe],
) -> Result<(), OpeningDiffers>
    requires macs { length macs.now ≡ length keys.now }
    requires claims { length claims.now ≡ length keys.now }
    requires few { length keys.now < 2 ^ 32 }
    ensures holds { IfOk result (λ _. (side : VerifierSide) → keys.now ≡ opened_keys side
        → AllOpeningsHold (opening_check side key macs.now claims.now)) }
    ensures differs { IfErr result (λ d. (side : VerifierSide) → keys.now ≡ opened_keys side
        → OpensFirst (opening_check side key macs.now claims.now) d) }
{
    for (o, mac) in macs.iter().enumerate() {
        check_opening(o as u32, keys[o], *mac, claims[o], key)?;
    }
    Ok(())
}
