// A verifier's session about a claim, over a line.
ghost use Rattle.std.specs.Prelude.{◌≡◌, ◌⊎◌, ◌≤◌, None, Some, IfSome, IsTrue, MatchOption};
ghost use Rattle.std.specs.Thread.{IsSync};
ghost use Rattle.zk_model.specs.declared.Side.TheVariants.{Verifier};
ghost use Rattle.zk_model.specs.declared.limits.TheConstants.{MAX_UNITS};
ghost use Rattle.frame_link.specs.Lines.{snapshot_of};
ghost use Rattle.session_driver.specs.Runs.{IsFresh};
ghost use Rattle.session_script.specs.Scripts.{EndsAccepted};
ghost use Rattle.session_verifier.specs.Serving.{grants_of};
ghost use Rattle.session_claim.specs.Script.{claim_behind, first_places};
ghost use Rattle.session_core.specs.declared.judgement.Judgement.TheVariants.{Accepted};
ghost use Rattle.claim_verifier.specs.Hearing.{units_of};
ghost use Rattle.claim_verifier.specs.Sessions.{IsUnbegun, LeavesTold, VerifierLeaves};
ghost use Rattle.claim_verifier.specs.declared.verify.SessionEnd.TheVariants.{Judged};

use crate::fault::VoiceFault;
use crate::rounds::Rounds;
use crate::verifying::Verifying;
use dealer_files::VerifierFile;
use frame_link::{Line, LineFault};
use lease_store::Grantor;
use session_claim::{Claim, first_places};
use session_core::Judgement;
use session_driver::Outcome;
use session_laws::replies_are_in_range;
use session_script::{EndFault, Scripted, lead};
use std::alloc::Global;
use std::thread::Threads;
use zk_laws::{keys_fit, pairs_exist};
use zk_port::Link;

/// How a session ended.
#[derive(Drop)]
pub enum SessionEnd {
    /// It was judged so, and the verdict was sent.
    Judged { judgement: Judgement },
    /// A frame was refused, or not answered.
    Refused { fault: EndFault<VoiceFault> },
    /// A frame did not pass.
    Cut { fault: LineFault },
}

/// Leads a session about a claim by its script.
fn lead_claim<R: Threads + Sync, G: Grantor, C: Claim, L: Link>(
    rt: &R,
    alloc: Global,
    claim: &C,
    file: &VerifierFile,
    section: u32,
    grantor: &mut G,
    line: &mut Line<L>,
) -> SessionEnd
    requires shared { IsSync R.row }
    requires some { 1 ≤ section }
    requires few { units_of (C.claim claim.now) file.now section ≤ MAX_UNITS }
    requires once { G.answer grantor.old ≡ None }
    requires total { G.total grantor.old ≤ file.now.params.total }
    requires may { G.may grantor.old (units_of (C.claim claim.now) file.now section) }
    requires fresh { IsFresh line.old }
    requires side { line.old.side ≡ Verifier }
    ensures leaves { IsUnbegun grantor.old grantor.new result (snapshot_of line.old) (snapshot_of line.new)
        ⊎ VerifierLeaves (grants_of G.answer G.asked G.total G.may G.moves) (C.claim claim.now) file.now section grantor.old grantor.new result
        (snapshot_of line.old) (snapshot_of line.new) }
    ensures exact { EndsAccepted (claim_behind file.now.params (C.claim claim.now)) (first_places (C.claim claim.now)) line.new.log
        → result ≡ Judged Accepted }
    ensures side { line.new.side ≡ line.old.side }
    ensures open_still { IsTrue line.new.is_open }
{
    claim.is_sound();
    claim.has_places();
    replies_are_in_range();
    keys_fit();
    pairs_exist();
    let _total = file.total();
    let Ok(left) = first_places(alloc, claim) else {
        return SessionEnd::Cut {
            fault: LineFault::NoMemory,
        };
    };
    let voice = Verifying {
        claim,
        file,
        section,
        given: None,
        rounds: Rounds::Asking {
            asked: Vec::new(alloc),
        },
        corrections: Vec::new(alloc),
        answers: Vec::new(alloc),
        judged: None,
    };
    let mut end = Scripted { voice, left };
    match lead(rt, alloc, &mut end, grantor, line) {
        Outcome::Done => match end.voice.judged {
            Some(judgement) => SessionEnd::Judged { judgement },
            None => unreachable!(),
        },
        Outcome::Refused { fault } => SessionEnd::Refused { fault },
        Outcome::Cut { fault } => SessionEnd::Cut { fault },
    }
}

/// Leads a session about a claim with a peer that may send anything: meets its hello, has units leased, grants them, replies in kind
/// extended to the asks for all of them, challenges, and judges. The log of a session that ends accepted is of no other end. Units are asked for
/// once at most.
pub fn verify_claim<R: Threads + Sync, G: Grantor, C: Claim, L: Link>(
    rt: &R,
    alloc: Global,
    claim: &C,
    file: &VerifierFile,
    section: u32,
    grantor: &mut G,
    line: &mut Line<L>,
) -> SessionEnd
    requires shared { IsSync R.row }
    requires some { 1 ≤ section }
    requires few { units_of (C.claim claim.now) file.now section ≤ MAX_UNITS }
    requires once { G.answer grantor.old ≡ None }
    requires total { G.total grantor.old ≤ file.now.params.total }
    requires may { G.may grantor.old (units_of (C.claim claim.now) file.now section) }
    requires fresh { IsFresh line.old }
    requires side { line.old.side ≡ Verifier }
    ensures leaves { IsUnbegun grantor.old grantor.new result (snapshot_of line.old) (snapshot_of line.new)
        ⊎ VerifierLeaves (grants_of G.answer G.asked G.total G.may G.moves) (C.claim claim.now) file.now section grantor.old grantor.new result
        (snapshot_of line.old) (snapshot_of line.new) }
    ensures exact { EndsAccepted (claim_behind file.now.params (C.claim claim.now)) (first_places (C.claim claim.now)) line.new.log
        → result ≡ Judged Accepted }
    ensures moved { MatchOption (G.answer grantor.new) (grantor.new ≡ grantor.old)
        (λ answer. G.moves grantor.old (units_of (C.claim claim.now) file.now section) answer grantor.new) }
    ensures told { LeavesTold (C.claim claim.now) file.now section (G.answer grantor.new) result
        (snapshot_of line.old) (snapshot_of line.new) }
    ensures asked { IfSome (G.answer grantor.new)
        (λ answer. G.asked grantor.new ≡ Some (units_of (C.claim claim.now) file.now section)) }
    ensures side { line.new.side ≡ line.old.side }
    ensures open_still { IsTrue line.new.is_open }
{
    claim.has_places();
    replies_are_in_range();
    let _total = file.total();
    let end = lead_claim(rt, alloc, claim, file, section, grantor, line);
    end
}
