// A session about a claim, with its note.
ghost use Rattle.std.specs.Prelude.{◌≡◌, ◌≤◌, ℕ, None, Some, Err, IfSome, MatchOption};
ghost use Rattle.std.specs.Thread.{IsSync};
ghost use Rattle.zk_port.specs.Doors.{IsFreshLink};
ghost use Rattle.zk_model.specs.declared.limits.TheConstants.{MAX_UNITS};
ghost use Rattle.session_pool.specs.Notes.{granted_by};
ghost use Rattle.session_verifier.specs.Outcomes.{grant_fault};
ghost use Rattle.claim_verifier.specs.Hearing.{units_of};
ghost use Rattle.claim_service.specs.ClaimNotes.{IsClaimNote};

use crate::asked::{Noted, granted_in, number_in};
use crate::outcome::outcome_of;
use claim_verifier::verify_claim;
use dealer_files::VerifierFile;
use frame_link::Line;
use lease_store::Grantor;
use session_claim::Claim;
use session_laws::replies_are_in_range;
use session_verifier::SessionNote;
use std::alloc::Global;
use std::thread::Threads;
use zk_model::Side;
use zk_port::Link;

/// Leads a session about a claim over a fresh link, which is ended then, with units of one whose answer is kept.
fn lead_noted<'n, R: Threads + Sync, T: Grantor, C: Claim, L: Link>(
    rt: &R,
    alloc: Global,
    claim: &C,
    file: &VerifierFile,
    section: u32,
    noted: &mut Noted<'n, T>,
    link: L,
) -> SessionNote<L>
    requires shared { IsSync R.row }
    requires some { 1 ≤ section }
    requires few { units_of (C.claim claim.now) file.now section ≤ MAX_UNITS }
    requires fresh { IsFreshLink (L.state link) }
    requires unasked { noted.old.answer ≡ None }
    requires once { T.answer noted.old.grantor.now ≡ None }
    requires total { T.total noted.old.grantor.now ≡ file.now.params.total }
    requires may { T.may noted.old.grantor.now (units_of (C.claim claim.now) file.now section) }
    ensures note { IsClaimNote L.state (C.claim claim.now) file.now section noted.new.answer result }
    ensures refused { IfSome (grant_fault result.outcome) (λ fault. noted.new.answer ≡ Some (Err fault)) }
    ensures moved { MatchOption noted.new.answer (noted.new ≡ noted.old)
        (λ answer. (noted.new.grantor.ghost_name ≡ noted.old.grantor.ghost_name)
        × (T.answer noted.new.grantor.now ≡ Some answer)
        × T.moves noted.old.grantor.now (units_of (C.claim claim.now) file.now section) answer noted.new.grantor.now) }
{
    claim.has_places();
    replies_are_in_range();
    let _total = file.total();
    let mut line = Line::new(alloc, link, Side::Verifier);
    let end = verify_claim(rt, alloc, claim, file, section, noted, &mut line);
    let (link, log) = line.end();
    SessionNote {
        statement: number_in(noted.answer),
        granted: granted_in(noted.answer),
        outcome: outcome_of(end),
        log,
        link,
        tries: Vec::new(alloc),
    }
}

/// Leads a session about a claim over a fresh link, which is ended then, and notes what came of it.
pub(crate) fn lead_session<R: Threads + Sync, T: Grantor, C: Claim, L: Link>(
    rt: &R,
    alloc: Global,
    claim: &C,
    file: &VerifierFile,
    section: u32,
    grantor: &mut T,
    link: L,
) -> SessionNote<L>
    requires shared { IsSync R.row }
    requires some { 1 ≤ section }
    requires few { units_of (C.claim claim.now) file.now section ≤ MAX_UNITS }
    requires fresh { IsFreshLink (L.state link) }
    requires once { T.answer grantor.old ≡ None }
    requires total { T.total grantor.old ≡ file.now.params.total }
    requires may { (count : ℕ) → 1 ≤ count → count ≤ MAX_UNITS → T.may grantor.old count }
    ensures note { IsClaimNote L.state (C.claim claim.now) file.now section (T.answer grantor.new) result }
    ensures granted { result.granted ≡ granted_by (T.answer grantor.new) }
    ensures refused { IfSome (grant_fault result.outcome) (λ fault. T.answer grantor.new ≡ Some (Err fault)) }
    ensures moved { MatchOption (T.answer grantor.new) (grantor.new ≡ grantor.old)
        (λ answer. T.moves grantor.old (units_of (C.claim claim.now) file.now section) answer grantor.new) }
{
    let mut noted = Noted {
        grantor,
        answer: None,
    };
    let note = lead_noted(rt, alloc, claim, file, section, &mut noted, link);
    let Noted {
        grantor: _,
        answer: _,
    } = noted;
    note
}
