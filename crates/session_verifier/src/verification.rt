// A verifier's sessions, as a pool leads them.
ghost use Rattle.std.specs.Prelude.{◌≡◌};

use crate::lead::lead_session;
use crate::log_desk::LogKeeper;
use crate::note::SessionNote;
use lease_store::Grantor;
use session_core::VerifierJobs;
use session_pool::Session;
use std::alloc::Global;
use std::thread::Threads;
use zk_port::Link;

/// A verifier's sessions, each about one of its statements, as a pool leads them: one is told of each that has ended, before its worker
/// takes another link.
#[derive(Drop)]
pub struct Verification<'a, K> {
    pub jobs: &'a VerifierJobs<'a>,
    pub keeper: &'a K,
}

impl<'a, K> Verification<'a, K> {
    /// The sessions about the statements of these jobs.
    pub fn new(jobs: &'a VerifierJobs<'a>, keeper: &'a K) -> Self
        ensures { result.jobs.now ≡ jobs.now }
    {
        Verification { jobs, keeper }
    }
}

impl<'a, L: Link + Drop, K: LogKeeper> Session<L> for Verification<'a, K> {
    ghost use Rattle.session_core.specs.Jobs.{noted_job, units_of_job};
    ghost use Rattle.session_verifier.specs.Outcomes.{grant_fault};
    ghost use Rattle.session_verifier.specs.Sessions.{IsAnsweredNote};

    type Note = SessionNote<L>;

    ghost size = { λ v note. units_of_job (noted_job v.jobs.now note.statement) };

    ghost id = { λ v. v.jobs.now.first.task.file.id };

    ghost total = { λ v. v.jobs.now.first.task.file.params.total };

    ghost is_note = { λ v answer note. IsAnsweredNote L.state v.jobs.now answer note };

    ghost granted = { λ note. note.granted };

    ghost refused = { λ note. grant_fault note.outcome };

    fn lead<R: Threads + Sync, T: Grantor>(
        &self,
        rt: &R,
        alloc: Global,
        grantor: &mut T,
        link: L,
    ) -> SessionNote<L> {
        let note = lead_session(rt, alloc, self.jobs, grantor, link);
        self.keeper.keep(alloc, &note);
        note
    }
}
