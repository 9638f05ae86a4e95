// A session with all that its note says.
ghost use Rattle.std.specs.Prelude.{◌≡◌, ◌≤◌, ℕ, None, Some, Err, [], IfSome, MatchOption};
ghost use Rattle.session_core.specs.Jobs.{noted_job, units_of_job};
ghost use Rattle.zk_model.specs.declared.limits.TheConstants.{MAX_UNITS};
ghost use Rattle.zk_port.specs.Doors.{IsFreshLink};
ghost use Rattle.session_pool.specs.Notes.{granted_by};
ghost use Rattle.session_verifier.specs.Outcomes.{grant_fault};
ghost use Rattle.session_verifier.specs.Sessions.{IsAnsweredNote};

use crate::note::SessionNote;
use crate::verify::{are_stated, verify_session};
use lease_store::Grantor;
use session_core::VerifierJobs;
use std::alloc::Global;
use std::thread::Threads;
use zk_port::Link;

/// Leads a session over a fresh link, as `verify_session` does, whose note is one of a session in which the one who grants units answered so.
pub fn lead_session<H: Threads + Sync, L: Link, R: Grantor>(
    rt: &H,
    alloc: Global,
    jobs: &VerifierJobs<'_>,
    grantor: &mut R,
    link: L,
) -> SessionNote<L>
    requires fresh { IsFreshLink (L.state link) }
    requires once { R.answer grantor.old ≡ None }
    requires total { R.total grantor.old ≤ jobs.now.first.task.file.params.total }
    requires may { (count : ℕ) → 1 ≤ count → count ≤ MAX_UNITS → R.may grantor.old count }
    ensures note { IsAnsweredNote L.state jobs.now (R.answer grantor.new) result }
    ensures untried { result.tries.items ≡ [] }
    ensures granted { result.granted ≡ granted_by (R.answer grantor.new) }
    ensures refused { IfSome (grant_fault result.outcome) (λ fault. R.answer grantor.new ≡ Some (Err fault)) }
    ensures moved { MatchOption (R.answer grantor.new) (grantor.new ≡ grantor.old)
        (λ answer. R.moves grantor.old (units_of_job (noted_job jobs.now result.statement)) answer
        grantor.new) }
    ensures sized { (1 ≤ units_of_job (noted_job jobs.now result.statement))
        × (units_of_job (noted_job jobs.now result.statement) ≤ MAX_UNITS) }
{
    are_stated(jobs);
    let note = verify_session(rt, alloc, jobs, grantor, link);
    note
}
