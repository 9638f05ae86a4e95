// All sections of a program's products.
ghost use Rattle.std.specs.Prelude.{◌≡◌, ◌≢◌, ◌<◌, ◌≤◌, ◌*◌, ◌+◌, ◌-◌, [], length, map, min, take, drop, IfOk, IfErr};
ghost use Rattle.zk_model.specs.Program.{part_count, section_count};
ghost use Rattle.zk_model.specs.Check.{section_of, section_right, all_sums, AllSectionsHold};
ghost use Rattle.mult_check.specs.Checks.{product_check, SectionDiffersFirst};

use crate::parts::{ProverPart, Sums, VerifierPart};
use mersenne_field::{Fe, Pair};
use std::alloc::{AllocError, Global};
use thiserror::Error;
use wire_auth::{KeyTriple, ProverWires, Triple, VerifierWires};

/// The equation of a section fails: its number, from 0 on, and both sides.
#[derive(Clone, Copy, Debug, PartialEq, Eq, Error)]
#[error("the equation of section {section} fails")]
pub struct Differs {
    pub section: u32,
    pub left: Fe,
    pub right: Fe,
}

/// How many products are summed at a time. Their wires, which lie anywhere, are read first, and nothing else is done
/// meanwhile: so many of these reads are under way at once.
const BLOCK: usize = 64;

/// Room for a block, before it is filled.
const BLANK_PAIR: Pair = Pair {
    x: Fe::ZERO,
    m: Fe::ZERO,
};

const BLANK: Triple = Triple {
    a: BLANK_PAIR,
    b: BLANK_PAIR,
    c: BLANK_PAIR,
};

const BLANK_KEYS: KeyTriple = KeyTriple {
    a: Fe::ZERO,
    b: Fe::ZERO,
    c: Fe::ZERO,
};

/// All wires of a program, at either end, which has a `T` of each product.
pub(crate) trait Held<T> {
    ghost use Rattle.std.specs.Prelude.{◌≡◌, ◌<◌, List, length, Some, slice_get};
    ghost use Rattle.zk_model.specs.declared.Product.{Product};

    ghost products: { Self → List Product };

    /// What it has of a product.
    ghost of: { Self → Product → T };

    /// How many products there are.
    fn count(&self) -> usize
        ensures { result ≡ length (products self.now) };

    /// What it has of product i.
    fn item(&self, i: usize) -> T
        requires { i < length (products self.now) }
        ensures { (product : Product) → slice_get (products self.now) i ≡ Some product
            → result ≡ of self.now product };
}

/// Reads what there is of the products from `first` on, as many as there is room for.
fn read_block<T: Copy, W: Held<T>>(wires: &W, first: usize, items: &mut [T])
    requires { first + length items.old ≤ length (W.products wires.now) }
    ensures items { items.new
        ≡ map (W.of wires.now) (take (length items.old) (drop first (W.products wires.now))) }
    ensures count { length items.new ≡ length items.old }
{
    let _count = wires.count();
    for i in 0..items.len() {
        items[i] = wires.item(first + i);
    }
}

/// The sums over the products from `first` up to `end`, from those over none. The block is room to work in.
fn part_between<T: Copy, P: Sums<T>, W: Held<T>>(
    wires: &W,
    first: usize,
    end: usize,
    none: P,
    block: &mut [T],
) -> P
    requires some { 0 < length block.old }
    requires none { P.Over none [] none }
    requires order { first ≤ end }
    requires within { end ≤ length (W.products wires.now) }
    ensures { P.Over none
        (map (W.of wires.now) (take (end - first) (drop first (W.products wires.now)))) result }
{
    let mut part = none;
    let mut at = first;
    while at < end {
        let count = block.len().min(end - at);
        let items = &mut block[..count];
        read_block(wires, at, items);
        part = part.with(items);
        at += count;
    }
    part
}

/// Where section s begins and ends, for sections of this many of all products.
pub(crate) fn section_bounds(products: usize, g: usize, s: usize) -> (usize, usize)
    requires at_least_one { 1 ≤ g }
    requires there { s < part_count products g }
    ensures first { result.0 ≡ s * g }
    ensures end { result.1 ≡ min (s * g + g) products }
    ensures order { result.0 ≤ result.1 }
{
    let first = s * g;
    (first, first + g.min(products - first))
}

/// The sums over section s, from those over none. The block is room to work in.
fn section_part<T: Copy, P: Sums<T>, W: Held<T>>(
    wires: &W,
    g: usize,
    s: usize,
    none: P,
    block: &mut [T],
) -> P
    requires some { 0 < length block.old }
    requires none { P.Over none [] none }
    requires at_least_one { 1 ≤ g }
    requires there { s < part_count (length (W.products wires.now)) g }
    ensures { P.Over none (map (W.of wires.now) (section_of g s (W.products wires.now))) result }
{
    let (first, end) = section_bounds(wires.count(), g, s);
    part_between(wires, first, end, none, block)
}

/// Tests the equation of a section of this left side, from the sums that were sent.
///
/// # Errors
///
/// Exactly where it fails: both sides.
pub(crate) fn meets(section: u32, left: Fe, sums: (Fe, Fe), key: Fe) -> Result<(), Differs>
    ensures holds { IfOk result (λ _. left ≡ section_right key sums) }
    ensures differs { IfErr result (λ d. (left ≢ section_right key sums)
        × (d ≡ record { section = section; left = left; right = section_right key sums })) }
{
    let (u, v) = sums;
    let right = u + v * key;
    if left != right {
        return Err(Differs {
            section,
            left,
            right,
        });
    }
    Ok(())
}

/// U and V of every section of g products under its mask, for the challenge (Yang, Sarkar, Weng and Wang, QuickSilver, ACM
/// CCS 2021). There are as many masks as sections, and a pair of sums for each.
///
/// # Errors
///
/// Only where memory runs out.
pub fn prover_sums(
    alloc: Global,
    wires: &ProverWires<'_>,
    g: u64,
    challenge: Fe,
    masks: &[Pair],
) -> Result<Vec<(Fe, Fe)>, AllocError>
    requires at_least_one { 1 ≤ g }
    requires masks { length masks.now ≡ section_count wires.now.program g }
    ensures sums { IfOk result (λ v. v.items
        ≡ all_sums wires.now.program g challenge wires.now.pairs masks.now) }
    ensures one_each { IfOk result (λ v. length v.items ≡ length masks.now) }
{
    let none = ProverPart::new(challenge);
    let mut block = [BLANK; BLOCK];
    let mut sums = Vec::with_capacity(alloc, masks.len())?;
    for (s, mask) in masks.iter().enumerate() {
        let part = section_part(wires, g as usize, s, none, &mut block);
        sums.push(part.masked(*mask))?;
    }
    Ok(sums)
}

/// Tests the equation of every section of g products, one after another: its left side, from the keys, is U + V * key of the
/// sums that were sent (Yang, Sarkar, Weng and Wang, QuickSilver, ACM CCS 2021). There are as many keys of masks, and pairs
/// of sums, as sections. It takes no memory.
///
/// # Errors
///
/// Exactly where an equation fails: the first section whose sides differ, with both.
pub fn check(
    wires: &VerifierWires<'_>,
    g: u64,
    challenge: Fe,
    mask_keys: &[Fe],
    key: Fe,
    sums: &[(Fe, Fe)],
) -> Result<(), Differs>
    requires at_least_one { 1 ≤ g }
    requires masks { length mask_keys.now ≡ section_count wires.now.program g }
    requires sums { length sums.now ≡ length mask_keys.now }
    ensures holds { IfOk result (λ _.
        AllSectionsHold (product_check wires.now g challenge mask_keys.now key sums.now)) }
    ensures differs { IfErr result (λ d.
        SectionDiffersFirst (product_check wires.now g challenge mask_keys.now key sums.now) d) }
{
    let _products = wires.program().products();
    let none = VerifierPart::new(challenge, key);
    let mut block = [BLANK_KEYS; BLOCK];
    for (s, mask) in mask_keys.iter().enumerate() {
        let part = section_part(wires, g as usize, s, none, &mut block);
        meets(s as u32, part.masked(*mask), sums[s], key)?;
    }
    Ok(())
}
