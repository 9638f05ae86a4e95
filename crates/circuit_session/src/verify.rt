// A verifier's session about a statement, over a line.
ghost use Rattle.std.specs.Prelude.{◌≡◌, ◌⊎◌, ◌≤◌, None, IsTrue};
ghost use Rattle.std.specs.Thread.{IsSync};
ghost use Rattle.zk_model.specs.declared.Side.TheVariants.{Verifier};
ghost use Rattle.zk_model.specs.declared.limits.TheConstants.{MAX_UNITS};
ghost use Rattle.frame_link.specs.Lines.{snapshot_of};
ghost use Rattle.session_core.specs.declared.judgement.Judgement.TheVariants.{Accepted};
ghost use Rattle.session_driver.specs.Runs.{IsFresh};
ghost use Rattle.session_script.specs.Scripts.{EndsAccepted};
ghost use Rattle.session_verifier.specs.Serving.{grants_of};
ghost use Rattle.session_claim.specs.Script.{claim_behind, first_places};
ghost use Rattle.claim_verifier.specs.Hearing.{units_of};
ghost use Rattle.claim_verifier.specs.Sessions.{IsUnbegun, VerifierLeaves};
ghost use Rattle.claim_verifier.specs.declared.verify.SessionEnd.TheVariants.{Judged};
ghost use Rattle.circuit_session.specs.Sessions.{IsStatementShown};
ghost use Rattle.circuit_session.specs.Statements.{statement_claim};

use crate::statement_claim::StatementClaim;
use claim_verifier::{SessionEnd, verify_claim};
use dealer_files::VerifierFile;
use frame_link::Line;
use lease_store::Grantor;
use session_core::Statement;
use std::alloc::Global;
use std::thread::Threads;
use zk_port::Link;

/// Leads a session about a statement with a peer that may send anything, as `verify_claim` does. It is accepted only where the checks hold
/// over the keys of the granted units; and then, for all pairs that these fit, some inputs make the program give the claims, or the
/// challenge or the key is a root of a named polynomial that is not zero.
pub fn verify_statement<R: Threads + Sync, G: Grantor, L: Link>(
    rt: &R,
    alloc: Global,
    statement: &Statement<'_>,
    file: &VerifierFile,
    section: u32,
    grantor: &mut G,
    line: &mut Line<L>,
) -> SessionEnd
    requires shared { IsSync R.row }
    requires some { 1 ≤ section }
    requires few { units_of (statement_claim statement.now) file.now section ≤ MAX_UNITS }
    requires once { G.answer grantor.old ≡ None }
    requires total { G.total grantor.old ≤ file.now.params.total }
    requires may { G.may grantor.old (units_of (statement_claim statement.now) file.now section) }
    requires fresh { IsFresh line.old }
    requires side { line.old.side ≡ Verifier }
    ensures leaves { IsUnbegun grantor.old grantor.new result (snapshot_of line.old) (snapshot_of line.new)
        ⊎ VerifierLeaves (grants_of G.answer G.asked G.total G.may G.moves) (statement_claim statement.now)
        file.now section grantor.old grantor.new result (snapshot_of line.old) (snapshot_of line.new) }
    ensures shown { result ≡ Judged Accepted
        → IsStatementShown (grants_of G.answer G.asked G.total G.may G.moves) statement.now file.now section
        grantor.old grantor.new (snapshot_of line.old) (snapshot_of line.new) }
    ensures exact { EndsAccepted (claim_behind file.now.params (statement_claim statement.now))
        (first_places (statement_claim statement.now)) line.new.log → result ≡ Judged Accepted }
    ensures side { line.new.side ≡ line.old.side }
    ensures open_still { IsTrue line.new.is_open }
{
    let claim = StatementClaim { statement };
    verify_claim(rt, alloc, &claim, file, section, grantor, line)
}
