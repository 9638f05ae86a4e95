// A rehearsal of a session about a claim.
ghost use Rattle.std.specs.Prelude.{◌≡◌, ◌≤◌, All, map, IfOk, IfErr};
ghost use Rattle.dealer_files.specs.Dealing.{dealt_prover, dealt_verifier};
ghost use Rattle.zk_model.specs.declared.limits.TheConstants.{MAX_SECTION_LENGTH, MAX_UNITS};
ghost use Rattle.proof_frames.specs.Frames.{frame_value, IsShort};
ghost use Rattle.session_core.specs.Ends.{whole_grant};
ghost use Rattle.session_claim.specs.Claims.{claim_needs};
ghost use Rattle.session_rehearsal.specs.Rehearsals.{rehearsed_params, units_rehearsed};
ghost use Rattle.session_script.specs.Scripts.{log_of};
ghost use Rattle.claim_prover.specs.Telling.{knowledge_of};
ghost use Rattle.claim_rehearsal.specs.ClaimRehearsals.{ClaimRehearseCause, IsClaimRehearsal};
ghost use Rattle.claim_rehearsal.specs.Passed.{IsClaimPassed};

use crate::noting::note;
use crate::passing::{Passed, pass};
use crate::rehearsal::{ClaimRehearsal, ClaimRehearseFault};
use claim_prover::Witness;
use dealer_files::deal;
use proof_frames::Grant;
use session_core::units_for;
use session_rehearsal::rehearsed_params;
use std::alloc::{AllocError, Global};
use std::thread::Threads;
use zk_model::{Kind, MAX_UNITS};

/// All that passes in a session over this many units, which are dealt from the seed.
fn pass_dealt<R: Threads + Sync, W: Witness>(
    rt: &R,
    alloc: Global,
    witness: &W,
    kind: Kind,
    section: u32,
    units: u64,
    seed: &[u8; 32],
) -> Result<Passed, AllocError>
    requires at_least_one { 1 ≤ section }
    requires at_most { section ≤ MAX_SECTION_LENGTH }
    requires units { units ≡ units_rehearsed kind (claim_needs (W.claim witness.now) section) }
    requires units_most { units ≤ MAX_UNITS }
    ensures passed { IfOk result (λ p. IsClaimPassed
        (knowledge_of (W.claim witness.now) (W.said witness.now) (W.given witness.now) (W.replying witness.now))
        (dealt_prover (rehearsed_params kind units) seed.now) (dealt_verifier (rehearsed_params kind units) seed.now)
        (whole_grant units section) p.judgement (log_of (map frame_value p.frames.items))) }
    ensures short { IfOk result (λ p. All IsShort (map frame_value p.frames.items)) }
{
    let params = rehearsed_params(kind, units);
    let (prover, verifier) = deal(alloc, &params, seed)?;
    let grant = Grant {
        start: 0,
        count: units as u32,
        section,
    };
    let passed = pass(rt, alloc, witness, &prover, &verifier, grant)?;
    Ok(passed)
}

/// Rehearses a session about a claim by what a prover knows for it: the seed's files of this kind, as many units as the session takes, and both
/// ends over a log.
///
/// # Errors
///
/// `TooLarge` where the session takes more than 4,096 units; `NoMemory`.
pub fn rehearse_claim<R: Threads + Sync, W: Witness>(
    rt: &R,
    alloc: Global,
    witness: &W,
    kind: Kind,
    section: u32,
    seed: &[u8; 32],
) -> Result<ClaimRehearsal, ClaimRehearseFault>
    requires at_least_one { 1 ≤ section }
    requires at_most { section ≤ MAX_SECTION_LENGTH }
    ensures done { IfOk result (IsClaimRehearsal
        (knowledge_of (W.claim witness.now) (W.said witness.now) (W.given witness.now) (W.replying witness.now)) kind section seed.now) }
    ensures cause { IfErr result (ClaimRehearseCause (W.claim witness.now) kind section) }
{
    let need = witness.need(section);
    let units = units_for(&rehearsed_params(kind, 1), need);
    if units > MAX_UNITS {
        return Err(ClaimRehearseFault::TooLarge { need, units });
    }
    let Passed { frames, judgement } = pass_dealt(rt, alloc, witness, kind, section, units, seed)?;
    let log = note(alloc, &frames)?;
    Ok(ClaimRehearsal {
        need,
        units,
        judgement,
        log,
    })
}
