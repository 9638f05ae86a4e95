// The places of a session about a claim.
ghost use Rattle.std.specs.Prelude.{◌≡◌, ◌++◌, ◌∷◌, ◌+◌, ◌-◌, ◌≤◌, ◌^◌, [], map, All, IfOk, OnOk};
ghost use Rattle.std.specs.List.{range_with_len};
ghost use Rattle.zk_model.specs.Files.{AreParams};
ghost use Rattle.zk_model.specs.declared.Expect.TheVariants as expect;
ghost use Rattle.zk_model.specs.declared.limits.TheConstants.{MAX_UNITS};
ghost use Rattle.proof_frames.specs.Readings.{IsShortPlace};
ghost use Rattle.session_script.specs.Scripts.{weight};
ghost use Rattle.session_claim.specs.Script as script;
ghost use Rattle.session_claim.specs.Script.{claim_places, rounds_places};

use crate::claim::Claim;
use proof_frames::Grant;
use std::alloc::{AllocError, Global};
use std::collections::VecDeque;
use zk_model::{Expect, Kind, Params};

/// Adds a place.
fn add(places: &mut VecDeque<Expect>, place: Expect) -> Result<(), AllocError>
    ensures { OnOk result (places.new.items ≡ places.old.items ++ place ∷ []) }
{
    places.push_back(place)?;
    Ok(())
}

/// Adds places.
fn add_all(places: &mut VecDeque<Expect>, more: &[Expect]) -> Result<(), AllocError>
    ensures { OnOk result (places.new.items ≡ places.old.items ++ more.now) }
{
    for place in more {
        add(places, *place)?;
    }
    Ok(())
}

/// Adds an ask for each unit.
fn add_asks(
    places: &mut VecDeque<Expect>,
    height: usize,
    trees: usize,
    count: u32,
) -> Result<(), AllocError>
    ensures { OnOk result (places.new.items ≡ places.old.items
        ++ map (λ i. expect.Ask height trees (count - i)) (range_with_len 0 count)) }
{
    for i in 0..count {
        let units_left = (count - i) as usize;
        add(
            places,
            Expect::Ask {
                height,
                trees,
                units_left,
            },
        )?;
    }
    Ok(())
}

/// Adds a reply for each unit.
fn add_replies(
    places: &mut VecDeque<Expect>,
    height: usize,
    trees: usize,
    count: u32,
) -> Result<(), AllocError>
    ensures { OnOk result (places.new.items ≡ places.old.items
        ++ map (λ i. expect.Reply height trees (count - i)) (range_with_len 0 count)) }
{
    for i in 0..count {
        let units_left = (count - i) as usize;
        add(
            places,
            Expect::Reply {
                height,
                trees,
                units_left,
            },
        )?;
    }
    Ok(())
}

/// Adds the places of all rounds.
fn add_rounds(
    places: &mut VecDeque<Expect>,
    params: &Params,
    grant: Grant,
) -> Result<(), AllocError>
    ensures { OnOk result (places.new.items ≡ places.old.items ++ rounds_places params.now grant) }
{
    match params.kind {
        Kind::Direct => Ok(()),
        Kind::Extended => {
            let height = usize::from(params.height);
            let trees = params.trees as usize;
            add_asks(places, height, trees, grant.count)?;
            add_replies(places, height, trees, grant.count)?;
            Ok(())
        }
    }
}

/// Adds the places after all rounds.
fn add_claim<C: Claim>(
    alloc: Global,
    places: &mut VecDeque<Expect>,
    claim: &C,
    section: u32,
) -> Result<(), AllocError>
    requires some { 1 ≤ section }
    ensures places { OnOk result (places.new.items ≡ places.old.items ++ claim_places (C.claim claim.now) section) }
    ensures short { OnOk result (All IsShortPlace (claim_places (C.claim claim.now) section)) }
    ensures few { OnOk result (weight (claim_places (C.claim claim.now) section) ≤ 2 ^ 20 + 3) }
{
    claim.has_places();
    let count = claim.givens();
    add(places, Expect::Corrections { count })?;
    add(places, Expect::Challenge)?;
    let answers = claim.answers(alloc, section)?;
    add_all(places, &answers)?;
    add(places, claim.verdict_place())?;
    Ok(())
}

/// The places that a grant of at most 4,096 units leaves.
///
/// # Errors
///
/// Only where memory runs out.
pub fn claim_behind<C: Claim>(
    alloc: Global,
    params: &Params,
    claim: &C,
    grant: Grant,
) -> Result<VecDeque<Expect>, AllocError>
    requires params { AreParams params.now }
    requires some { 1 ≤ grant.section_length }
    requires few { grant.count ≤ MAX_UNITS }
    ensures places { IfOk result (λ places. places.items ≡ script.claim_behind params.now (C.claim claim.now) grant) }
    ensures short { IfOk result (λ places. All IsShortPlace places.items) }
    ensures few { IfOk result (λ places. weight places.items ≤ 2 ^ 24) }
{
    let mut places = VecDeque::new(alloc);
    add_rounds(&mut places, params, grant)?;
    add_claim(alloc, &mut places, claim, grant.section)?;
    Ok(places)
}

/// The first places of a session.
///
/// # Errors
///
/// Only where memory runs out.
pub fn first_places<C: Claim>(alloc: Global, claim: &C) -> Result<VecDeque<Expect>, AllocError>
    ensures places { IfOk result (λ places. places.items ≡ script.first_places (C.claim claim.now)) }
    ensures short { IfOk result (λ places. All IsShortPlace places.items) }
{
    let mut places = VecDeque::new(alloc);
    add(&mut places, claim.hello_place())?;
    add(&mut places, Expect::Grant)?;
    Ok(places)
}
