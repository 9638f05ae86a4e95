// A verifier's session over a link.
ghost use Rattle.std.specs.Prelude.{◌≡◌, ◌≤◌, ℕ, None, Some, [], length, false, IfSome, IsTrue, MatchOption};
ghost use Rattle.zk_model.specs.Transcript.{sent_by};
ghost use Rattle.zk_model.specs.declared.Side.TheVariants.{Prover, Verifier};
ghost use Rattle.zk_port.specs.Logs.{put_before};
ghost use Rattle.frame_link.specs.Lines.{snapshot};
ghost use Rattle.zk_model.specs.Check.{AllBelow};
ghost use Rattle.zk_model.specs.Statement.{IsStatement};
ghost use Rattle.session_core.specs.Jobs.{all_jobs, job_at, noted_job, units_of_job};
ghost use Rattle.zk_model.specs.declared.limits.TheConstants.{MAX_UNITS};
ghost use Rattle.session_pool.specs.Notes.{granted_by};
ghost use Rattle.session_verifier.specs.Notes.{AnswersLease, JudgesRightly, AcceptsExactly, IsShown, SendsRightly, KeepsKeys, EndsBecause, LeasesBehindHello, IsTold, CountsFaults, ReceivesFew, TakesStatement, CompletesForEach};
ghost use Rattle.session_verifier.specs.declared.note.VerifierOutcome.TheVariants.{Accepted};

use crate::note::SessionNote;
use crate::serve::serve;
use frame_link::Line;
use lease_store::Grantor;
use session_core::VerifierJobs;
use session_laws::{
    cut_is_not_accepted, honest_turn, honest_turn_ends, honest_whole_is_accepted,
    replies_are_in_range, served_session_exists, verdict_is_said,
};
use std::alloc::Global;
use std::thread::Threads;
use zk_laws::{extraction_holds, keys_fit};
use zk_model::Side;
use zk_port::Link;

/// Every job is about a statement.
pub(crate) fn are_stated(jobs: &VerifierJobs<'_>)
    ensures { AllBelow (length (all_jobs jobs.now))
        (λ n. IsStatement (job_at jobs.now n).task.statement) }
{
    for n in 0..jobs.count() {
        let _program = jobs.job(n).statement().program();
    }
}

/// Leads a session with a peer that may send anything: meets its hello, which may be for any of the verifier's statements, of which the
/// first is taken that it is for, leases the units that the session takes, grants them,
/// replies in kind extended to the asks for all of them, in several threads, challenges, and judges (Weng, Yang, Katz and Wang, Wolverine, IEEE S&P
/// 2021; Yang, Sarkar, Weng and Wang, QuickSilver, ACM CCS 2021). Each receive asks for no more bytes than the frame under way still
/// wants; each answer is sent by one send, and `end` is the last call of the link. A refusal is sent in the grant's place for a hello that differs, for units that are not leased,
/// and where memory is missing for the grant; its own room is kept first, and whether its send fails changes nothing.
pub fn verify_session<H: Threads + Sync, L: Link, R: Grantor>(
    rt: &H,
    alloc: Global,
    jobs: &VerifierJobs<'_>,
    grantor: &mut R,
    link: L,
) -> SessionNote<L>
    requires open { IsTrue (L.state link).is_open }
    requires once { R.answer grantor.old ≡ None }
    requires total { R.total grantor.old ≤ jobs.now.first.task.file.params.total }
    requires may { (count : ℕ) → 1 ≤ count → count ≤ MAX_UNITS → R.may grantor.old count }
    ensures total_kept { R.total grantor.new ≡ R.total grantor.old }
    ensures statement { TakesStatement jobs.now result.statement (R.answer grantor.new)
        result.outcome result.log }
    ensures sized { (1 ≤ units_of_job (noted_job jobs.now result.statement))
        × (units_of_job (noted_job jobs.now result.statement) ≤ MAX_UNITS) }
    ensures asked { IfSome (R.answer grantor.new)
        (λ _. R.asked grantor.new ≡ Some (units_of_job (noted_job jobs.now result.statement))) }
    ensures moved { MatchOption (R.answer grantor.new) (grantor.new ≡ grantor.old)
        (λ answer. R.moves grantor.old (units_of_job (noted_job jobs.now result.statement)) answer
        grantor.new) }
    ensures granted { result.granted ≡ granted_by (R.answer grantor.new) }
    ensures refused { AnswersLease (R.answer grantor.new) result.outcome }
    ensures verdict { JudgesRightly (noted_job jobs.now result.statement) result.granted
        result.outcome result.log }
    ensures accepted { AcceptsExactly (noted_job jobs.now result.statement) result.outcome result.log }
    ensures shown { result.outcome ≡ Accepted
        → IsShown (noted_job jobs.now result.statement) result.granted result.log }
    ensures sends { SendsRightly (noted_job jobs.now result.statement) result.granted
        result.outcome result.log }
    ensures related { KeepsKeys (noted_job jobs.now result.statement) result.log }
    ensures cause { EndsBecause (noted_job jobs.now result.statement) (R.answer grantor.new) result.outcome
        (snapshot Verifier [] (L.state link)) (snapshot Verifier result.log (L.state result.link)) }
    ensures leased { LeasesBehindHello (noted_job jobs.now result.statement) (R.answer grantor.new)
        result.log }
    ensures told { IsTold (noted_job jobs.now result.statement) result.granted result.outcome
        (snapshot Verifier [] (L.state link)) (snapshot Verifier result.log (L.state result.link)) }
    ensures came { (L.state link).to_come
        ≡ put_before (sent_by Prover result.log) (L.state result.link).to_come }
    ensures receives { ReceivesFew
        (snapshot Verifier [] (L.state link)) (snapshot Verifier result.log (L.state result.link)) }
    ensures complete { CompletesForEach jobs.now (R.answer grantor.new) result.outcome
        (snapshot Verifier [] (L.state link)) (snapshot Verifier result.log (L.state result.link)) }
    ensures faults { CountsFaults result.outcome
        (snapshot Verifier [] (L.state link)) (snapshot Verifier result.log (L.state result.link)) }
    ensures ended { (L.state result.link).is_open ≡ false }
    ensures untried { result.tries.items ≡ [] }
{
    honest_turn();
    honest_turn_ends();
    honest_whole_is_accepted();
    replies_are_in_range();
    served_session_exists();
    cut_is_not_accepted();
    verdict_is_said();
    extraction_holds();
    keys_fit();
    are_stated(jobs);
    let _few = jobs.count();
    let mut line = Line::new(alloc, link, Side::Verifier);
    let course = serve(rt, alloc, jobs, grantor, &mut line);
    let job = jobs.noted(course.taken);
    let _opened = job.statement().program().opened();
    let _total = job.file().total();
    let (link, log) = line.end();
    SessionNote {
        statement: course.taken,
        granted: course.granted,
        outcome: course.outcome,
        log,
        link,
        tries: Vec::new(alloc),
    }
}
