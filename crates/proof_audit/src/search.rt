// The first section with an error, and the first opened wire that is not as claimed.
ghost use Rattle.std.specs.Prelude.{◌≡◌, ◌+◌, ◌<◌, ◌≤◌, ◌^◌, ℕ, List, drop, length, slice_index, slice_index_or, IfNone, IfOk, IfSome};
ghost use Rattle.zk_model.specs.Check.{opened_pairs, section_triples, IsFirstFailure};
ghost use Rattle.zk_model.specs.Mac.{Pair as model, pair_at};
ghost use Rattle.zk_model.specs.Polynomial.{IsZero};
ghost use Rattle.zk_model.specs.Program.{section_count};
ghost use Rattle.check_findings.specs.Findings.{ShowsSection, ShowsOpening};
ghost use Rattle.proof_audit.specs.SeenWires.{SeenSide};
ghost use Rattle.proof_audit.specs.Searches.{SectionsMeet, OpeningsMeet, NoErrorsBefore, AreAsClaimedBefore, ShowsSectionAt, ShowsWrongSection, ShowsFirstSection, ShowsFirstOpening, errors_at};

use crate::seen::SeenWires;
use crate::session::Session;
use check_findings::{Finding, opening_finding, section_finding};
use mersenne_field::{Fe, Pair};
use std::alloc::{AllocError, Global};

/// What a section shows, with the section's number.
fn numbered(shown: Finding, section: u32) -> Finding
    ensures { (side : SeenSide) → (pairs : List model) → (s : Session) → ShowsSection s.challenge
        (section_triples side.program s.grant.section_length side.pairs section)
        (pair_at (drop side.program.givens pairs) section) (slice_index_or s.sums.items section (0, 0)) shown
        → ShowsSectionAt section side pairs s result }
{
    match shown {
        Finding::ChallengeRoot { polynomial, .. } => Finding::ChallengeRoot {
            section,
            polynomial,
        },
        other => other,
    }
}

/// What section s shows, if it has an error.
///
/// # Errors
///
/// Only where memory runs out.
fn wrong_section(
    alloc: Global,
    wires: &SeenWires<'_>,
    pairs: &[Pair],
    session: &Session,
    s: usize,
) -> Result<Option<Finding>, AllocError>
    requires some { 1 ≤ session.now.grant.section_length }
    requires there { s < section_count wires.now.program session.now.grant.section_length }
    requires pairs { wires.now.program.givens
        + section_count wires.now.program session.now.grant.section_length ≤ length pairs.now }
    requires sums { length session.now.sums.items
        ≡ section_count wires.now.program session.now.grant.section_length }
    requires few { section_count wires.now.program session.now.grant.section_length < 2 ^ 32 }
    requires met { SectionsMeet wires.now pairs.now session.now }
    ensures none { IfOk result (λ shown. IfNone shown (IsZero (errors_at wires.now session.now s))) }
    ensures some { IfOk result (λ shown. IfSome shown (ShowsWrongSection s wires.now pairs.now session.now)) }
{
    let g = u64::from(session.grant.section);
    if wires.is_right(g, s) {
        return Ok(None);
    }
    let givens = wires.program().givens();
    let triples = wires.section(alloc, g, s)?;
    let (u, v) = session.sums[s];
    let mask = pairs[givens + s];
    let shown = section_finding(alloc, &triples, mask, session.challenge, u, v)?;
    Ok(shown.map(|finding| numbered(finding, s as u32)))
}

/// What the first section with an error shows, if one has any.
///
/// # Errors
///
/// Only where memory runs out.
pub(crate) fn first_wrong_section(
    alloc: Global,
    wires: &SeenWires<'_>,
    pairs: &[Pair],
    session: &Session,
) -> Result<Option<Finding>, AllocError>
    requires some { 1 ≤ session.now.grant.section_length }
    requires pairs { wires.now.program.givens
        + section_count wires.now.program session.now.grant.section_length ≤ length pairs.now }
    requires sums { length session.now.sums.items
        ≡ section_count wires.now.program session.now.grant.section_length }
    requires few { section_count wires.now.program session.now.grant.section_length < 2 ^ 32 }
    requires met { SectionsMeet wires.now pairs.now session.now }
    ensures none { IfOk result (λ shown. IfNone shown (NoErrorsBefore wires.now session.now
        (section_count wires.now.program session.now.grant.section_length))) }
    ensures some { IfOk result (λ shown. IfSome shown (ShowsFirstSection wires.now pairs.now session.now)) }
{
    let sections = wires.program().sections(u64::from(session.grant.section));
    for s in 0..sections as usize {
        if let Some(finding) = wrong_section(alloc, wires, pairs, session, s)? {
            return Ok(Some(finding));
        }
    }
    Ok(None)
}

/// What the first opened wire shows that is not as claimed, if there is one.
///
/// # Errors
///
/// Only where memory runs out.
pub(crate) fn first_wrong_output(
    alloc: Global,
    wires: &SeenWires<'_>,
    session: &Session,
    claims: &[Fe],
) -> Result<Option<Finding>, AllocError>
    requires openings { length session.now.openings.items ≡ length wires.now.program.opened }
    requires claims { length claims.now ≡ length wires.now.program.opened }
    requires met { OpeningsMeet wires.now session.now.openings.items claims.now }
    ensures none { IfOk result (λ shown. IfNone shown (AreAsClaimedBefore wires.now claims.now
        (length wires.now.program.opened))) }
    ensures some { IfOk result (λ shown. IfSome shown (ShowsFirstOpening wires.now claims.now session.now)) }
{
    for (o, claimed) in claims.iter().enumerate() {
        let output = wires.output(o);
        let shown = opening_finding(alloc, output, session.openings[o], *claimed)?;
        if let Some(finding) = shown {
            return Ok(Some(finding));
        }
    }
    Ok(None)
}
