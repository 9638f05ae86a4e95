// What a verifier finds of the answers of a prover.
ghost use Rattle.std.specs.Prelude.{◌≡◌, ◌+◌, ◌≤◌, ◌∷◌, [], length, map, take, drop, IfOk};
ghost use Rattle.zk_model.specs.Frames as model;
ghost use Rattle.zk_model.specs.Program.{correlations_needed, section_count};
ghost use Rattle.proof_frames.specs.Frames.{frame_value};
ghost use Rattle.mult_check.specs.Checks.{opening_check, sent_check};
ghost use Rattle.session_core.specs.Judgements.{Judges};
ghost use Rattle.circuit_session.specs.Statements.{IsJudgedBy, macs_in, sums_in};

use mersenne_field::Fe;
use mult_check::{SentSums, check_along, openings_along};
use proof_frames::Frame;
use session_core::{Judgement, Statement};
use std::alloc::{AllocError, Global};
use wire_auth::VerifierWalk;

/// The sums that were answered.
pub(crate) fn answered_sums(answers: &[Frame]) -> &[(Fe, Fe)]
    ensures { result.now ≡ sums_in (map frame_value answers.now) }
{
    match answers.first() {
        Some(Frame::Sums(both)) => both,
        _ => &[],
    }
}

/// The MACs that were answered.
pub(crate) fn answered_macs(answers: &[Frame]) -> &[Fe]
    ensures { result.now ≡ macs_in (map frame_value answers.now) }
{
    match answers.get(1) {
        Some(Frame::Openings(macs)) => macs,
        _ => &[],
    }
}

/// As many keys as there are sections, after those of the given values: the keys of the masks.
fn mask_keys_of(keys: &[Fe], givens: usize, sections: usize) -> &[Fe]
    requires { givens + sections ≤ length keys.now }
    ensures masks { result.now ≡ take sections (drop givens keys.now) }
    ensures count { length result.now ≡ sections }
{
    &keys[givens..givens + sections]
}

/// What the checks of all sections and of all opened wires say, along a walk that has given no product yet: the first section whose sums
/// do not meet its keys, else the first opened wire whose MAC does not open to the claim, else that all is well.
fn judgement_of(
    walk: &mut VerifierWalk<'_>,
    sent: &SentSums<'_>,
    macs: &[Fe],
    claims: &[Fe],
) -> Judgement
    requires fresh { walk.old.met ≡ 0 }
    requires at_least_one { 1 ≤ sent.now.section_length }
    requires masks { length sent.now.mask_keys.now
        ≡ section_count walk.old.side.program sent.now.section_length }
    requires sums { length sent.now.sums.now ≡ length sent.now.mask_keys.now }
    requires macs { length macs.now ≡ length walk.old.side.program.opened }
    requires claims { length claims.now ≡ length walk.old.side.program.opened }
    ensures { Judges (sent_check walk.old.side sent.now)
        (opening_check walk.old.side sent.now.key macs.now claims.now) result }
{
    if let Err(differs) = check_along(walk, sent) {
        return Judgement::RejectedSum {
            section: differs.section,
            left: differs.left,
            right: differs.right,
        };
    }
    match openings_along(walk, sent.key, macs, claims) {
        Err(differs) => Judgement::RejectedOpening {
            output: differs.output,
            left: differs.left,
            right: differs.right,
        },
        Ok(()) => Judgement::Accepted,
    }
}

/// What a verifier finds of a statement, by its key, the keys of all correlations, the length of sections, a correction for each given
/// value, the challenge, sums for each section, and a MAC for each opened wire.
///
/// # Errors
///
/// Only where memory runs out.
pub(crate) fn judge_answers(
    alloc: Global,
    statement: &Statement<'_>,
    key: Fe,
    keys: &[Fe],
    section: u32,
    corrections: &[Fe],
    challenge: Fe,
    sums: &[(Fe, Fe)],
    macs: &[Fe],
) -> Result<Judgement, AllocError>
    requires some { 1 ≤ section }
    requires enough { correlations_needed statement.now.program section ≤ length keys.now }
    requires corrections { length corrections.now ≡ statement.now.program.givens }
    requires sums { length sums.now ≡ section_count statement.now.program section }
    requires macs { length macs.now ≡ length statement.now.program.opened }
    ensures { IfOk result (IsJudgedBy statement.now key keys.now (record {
      section_length = section;
      corrections = corrections.now;
      challenge = challenge;
      answers = model.sums sums.now ∷ model.openings macs.now ∷ [];
    })) }
{
    let program = statement.program();
    let claims = statement.claims();
    let givens = program.givens();
    let section_length = u64::from(section);
    let sections = program.sections(section_length) as usize;
    let mask_keys = mask_keys_of(keys, givens, sections);
    let plan = statement.plan();
    let public = statement.public();
    let mut walk = VerifierWalk::new(alloc, program, plan, public, keys, key, corrections)?;
    let sent = SentSums {
        section_length,
        challenge,
        mask_keys,
        key,
        sums,
    };
    let judgement = judgement_of(&mut walk, &sent, macs, claims);
    Ok(judgement)
}
