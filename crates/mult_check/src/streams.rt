// Sums along the walks of both ends: by so many workers, which hold no more than a block of products, or on the caller's own thread, which
// holds none.
ghost use Rattle.std.specs.Prelude.{◌≡◌, ◌≤◌, length, IfOk, IfErr, OnOk};
ghost use Rattle.zk_model.specs.Check.{all_sums, AllSectionsHold};
ghost use Rattle.zk_model.specs.Program.{section_count};
ghost use Rattle.mult_check.specs.Checks.{sent_check, SectionDiffersFirst};
ghost use Rattle.mult_check.specs.declared.sections.Differs.{Differs};
ghost use Rattle.mult_check.specs.declared.fault.StreamFault.TheVariants as stream;

use crate::fault::StreamFault;
use crate::parts::{ProverPart, VerifierPart};
use crate::sections::{Differs, meets};
use crate::sent::SentSums;
use crate::walked::{Walk, next_section, section_along};
use mersenne_field::{Fe, Pair};
use std::alloc::{AllocError, Global};
use std::thread::Threads;
use wire_auth::{KeyTriple, ProverWalk, Triple, VerifierWalk};

impl<'a> Walk<Triple> for ProverWalk<'a> {
    ghost use Rattle.std.specs.Prelude.{◌≡◌, map};
    ghost use Rattle.std.proofs.Common.{refl, ap, ◌∙◌};
    ghost use Rattle.zk_model.specs.Check.{product_triple};

    ghost all = { λ walk. map (product_triple walk.side.pairs) walk.side.program.products };

    ghost met = { λ walk. walk.met };

    ghost Keeps = { λ first last. last.side ≡ first.side };

    fn count(&self) -> usize {
        self.products()
    }

    fn give(&mut self) -> Option<Triple> {
        self.next()
    }

    ghost kept_none = { λ walk. refl };

    ghost kept_both = { λ first then last far more. more ∙ far };

    ghost kept_all = { λ first last kept.
        ap (λ side. map (product_triple side.pairs) side.program.products) kept };
}

impl<'a> Walk<KeyTriple> for VerifierWalk<'a> {
    ghost use Rattle.std.specs.Prelude.{◌≡◌, map};
    ghost use Rattle.std.proofs.Common.{refl, ap, ◌∙◌};
    ghost use Rattle.zk_model.specs.Check.{key_triple};

    ghost all = { λ walk. map (key_triple walk.side.keys) walk.side.program.products };

    ghost met = { λ walk. walk.met };

    ghost Keeps = { λ first last. last.side ≡ first.side };

    fn count(&self) -> usize {
        self.products()
    }

    fn give(&mut self) -> Option<KeyTriple> {
        self.next()
    }

    ghost kept_none = { λ walk. refl };

    ghost kept_both = { λ first then last far more. more ∙ far };

    ghost kept_all = { λ first last kept.
        ap (λ side. map (key_triple side.keys) side.program.products) kept };
}

/// U and V of every section of g products under its mask, for the challenge, as `prover_sums` gives them, of a walk that has given no
/// product yet. It has then given all. No more than a block of products is held at once, and so many workers sum each block.
///
/// # Errors
///
/// Only where memory runs out.
pub fn stream_sums<R: Threads + Sync>(
    rt: &R,
    alloc: Global,
    walk: &mut ProverWalk<'_>,
    g: u64,
    challenge: Fe,
    masks: &[Pair],
    workers: u32,
) -> Result<Vec<(Fe, Fe)>, AllocError>
    requires some { 1 ≤ workers }
    requires fresh { walk.old.met ≡ 0 }
    requires at_least_one { 1 ≤ g }
    requires masks { length masks.now ≡ section_count walk.old.side.program g }
    ensures side { walk.new.side ≡ walk.old.side }
    ensures met { OnOk result (length walk.old.side.program.products ≤ walk.new.met) }
    ensures sums { IfOk result (λ v. v.items
        ≡ all_sums walk.old.side.program g challenge walk.old.side.pairs masks.now) }
    ensures one_each { IfOk result (λ v. length v.items ≡ length masks.now) }
{
    let none = ProverPart::new(challenge);
    let mut block = Vec::new(alloc);
    let mut sums = Vec::with_capacity(alloc, masks.len())?;
    for (s, mask) in masks.iter().enumerate() {
        let part = next_section(rt, alloc, walk, g as usize, s, &mut block, none, workers)?;
        sums.push(part.masked(*mask))?;
    }
    Ok(sums)
}

/// Tests the equation of every section of g products, one after another, as `check` does, of a walk that has given no product yet.
/// Where all hold it has then given all. No more than a block of products is held at once, and so many workers sum each block.
///
/// # Errors
///
/// The first section whose sides differ, with both, exactly where there is one; and where memory runs out.
pub fn stream_check<R: Threads + Sync>(
    rt: &R,
    alloc: Global,
    walk: &mut VerifierWalk<'_>,
    sent: &SentSums<'_>,
    workers: u32,
) -> Result<(), StreamFault>
    requires some { 1 ≤ workers }
    requires fresh { walk.old.met ≡ 0 }
    requires at_least_one { 1 ≤ sent.now.section_length }
    requires masks { length sent.now.mask_keys.now
        ≡ section_count walk.old.side.program sent.now.section_length }
    requires sums { length sent.now.sums.now ≡ length sent.now.mask_keys.now }
    ensures side { walk.new.side ≡ walk.old.side }
    ensures met { OnOk result (length walk.old.side.program.products ≤ walk.new.met) }
    ensures holds { IfOk result (λ _. AllSectionsHold (sent_check walk.old.side sent.now)) }
    ensures differs { IfErr result (λ e. (d : Differs) → e ≡ stream.Differs d
        → SectionDiffersFirst (sent_check walk.old.side sent.now) d) }
{
    let _products = walk.products();
    let none = VerifierPart::new(sent.challenge, sent.key);
    let g = sent.section_length as usize;
    let mut block = Vec::new(alloc);
    for (s, mask) in sent.mask_keys.iter().enumerate() {
        let part = next_section(rt, alloc, walk, g, s, &mut block, none, workers)?;
        meets(s as u32, part.masked(*mask), sent.sums[s], sent.key)?;
    }
    Ok(())
}

/// U and V of every section of g products under its mask, for the challenge, as `stream_sums` gives them.
///
/// # Errors
///
/// Only where memory runs out.
pub fn sums_along(
    alloc: Global,
    walk: &mut ProverWalk<'_>,
    g: u64,
    challenge: Fe,
    masks: &[Pair],
) -> Result<Vec<(Fe, Fe)>, AllocError>
    requires fresh { walk.old.met ≡ 0 }
    requires at_least_one { 1 ≤ g }
    requires masks { length masks.now ≡ section_count walk.old.side.program g }
    ensures side { walk.new.side ≡ walk.old.side }
    ensures met { OnOk result (length walk.old.side.program.products ≤ walk.new.met) }
    ensures sums { IfOk result (λ v. v.items
        ≡ all_sums walk.old.side.program g challenge walk.old.side.pairs masks.now) }
    ensures one_each { IfOk result (λ v. length v.items ≡ length masks.now) }
{
    let none = ProverPart::new(challenge);
    let mut sums = Vec::with_capacity(alloc, masks.len())?;
    for (s, mask) in masks.iter().enumerate() {
        let part = section_along(walk, g as usize, s, none);
        sums.push(part.masked(*mask))?;
    }
    Ok(sums)
}

/// Tests the equation of every section of g products, one after another, as `stream_check` does. It takes no memory.
///
/// # Errors
///
/// Exactly where an equation fails: the first section whose sides differ, with both.
pub fn check_along(walk: &mut VerifierWalk<'_>, sent: &SentSums<'_>) -> Result<(), Differs>
    requires fresh { walk.old.met ≡ 0 }
    requires at_least_one { 1 ≤ sent.now.section_length }
    requires masks { length sent.now.mask_keys.now
        ≡ section_count walk.old.side.program sent.now.section_length }
    requires sums { length sent.now.sums.now ≡ length sent.now.mask_keys.now }
    ensures side { walk.new.side ≡ walk.old.side }
    ensures met { OnOk result (length walk.old.side.program.products ≤ walk.new.met) }
    ensures holds { IfOk result (λ _. AllSectionsHold (sent_check walk.old.side sent.now)) }
    ensures differs { IfErr result (SectionDiffersFirst (sent_check walk.old.side sent.now)) }
{
    let _products = walk.products();
    let none = VerifierPart::new(sent.challenge, sent.key);
    let g = sent.section_length as usize;
    for (s, mask) in sent.mask_keys.iter().enumerate() {
        let part = section_along(walk, g, s, none);
        meets(s as u32, part.masked(*mask), sent.sums[s], sent.key)?;
    }
    Ok(())
}
