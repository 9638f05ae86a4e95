// A prover's session over a link.
ghost use Rattle.std.specs.Prelude.{◌≡◌, ◌≤◌, ◌+◌, None, true, false, [], length, IsSomeAnd, MatchOption};
ghost use Rattle.zk_model.specs.Transcript.{sent_by};
ghost use Rattle.zk_model.specs.declared.Side.TheVariants.{Prover, Verifier};
ghost use Rattle.zk_port.specs.Logs.{put_before};
ghost use Rattle.frame_link.specs.Lines.{snapshot};
ghost use Rattle.session_prover.specs.Notes.{HasClaimedUnits, IsOutcome, AnswersGrantPlace, AnswersVerdict, SendsHonestly, SendsOnceClaimed, SendsEach, IsRelated, IsLogged, CountsOutcome};
ghost use Rattle.session_prover.specs.Completing.{ProverCompletes};

use crate::claimant::Claimant;
use crate::note::ProverNote;
use crate::proving::prove;
use frame_link::Line;
use session_core::ProverJob;
use session_laws::honest_verdict;
use std::alloc::Global;
use std::thread::Threads;
use zk_model::Side;
use zk_port::Link;

/// Proves a job's statement to any verifier at the other end of a link (Weng, Yang, Katz and Wang, Wolverine, IEEE S&P 2021;
/// Yang, Sarkar, Weng and Wang, QuickSilver, ACM CCS 2021). It claims the units that the verifier grants before it sends
/// anything of them, and uses them for this session alone; in kind extended it then makes many correlations of the few that
/// each has, in several threads. Each answer is sent by one send, and a verdict that was read is the outcome. The stream is ended, whatever came of it.
pub fn prove_session<R: Threads + Sync, C: Claimant, L: Link>(
    rt: &R,
    alloc: Global,
    job: &ProverJob<'_>,
    claimant: &mut C,
    link: L,
) -> ProverNote<L>
    requires open { (L.state link).is_open ≡ true }
    requires unasked { C.answer claimant.old ≡ None }
    requires total { C.total claimant.old ≤ job.now.file.params.total }
    ensures granted { HasClaimedUnits job.now
        (record { asked = C.asked claimant.new; answer = C.answer claimant.new }) result.log result.granted }
    ensures moved { MatchOption (C.answer claimant.new) (claimant.new ≡ claimant.old)
        (λ answer. IsSomeAnd (C.asked claimant.new)
        (λ units. C.moves claimant.old units.0 units.1 answer claimant.new)) }
    ensures outcome { IsOutcome job.now
        (record { asked = C.asked claimant.new; answer = C.answer claimant.new }) result.log
        (snapshot Prover [] (L.state link)) (snapshot Prover result.log (L.state result.link))
        result.outcome }
    ensures answers { AnswersGrantPlace job.now
        (record { asked = C.asked claimant.new; answer = C.answer claimant.new }) result.outcome result.log }
    ensures verdict { AnswersVerdict job.now result.outcome result.log }
    ensures honest { SendsHonestly job.now result.log result.outcome }
    ensures claimed { SendsOnceClaimed job.now
        (record { asked = C.asked claimant.new; answer = C.answer claimant.new }) result.log }
    ensures related { IsRelated job.now result.log }
    ensures logged { IsLogged job.now
        (record { asked = C.asked claimant.new; answer = C.answer claimant.new }) result.outcome result.log
        (snapshot Prover [] (L.state link)) (snapshot Prover result.log (L.state result.link)) }
    ensures came { (L.state link).to_come
        ≡ put_before (sent_by Verifier result.log) (L.state result.link).to_come }
    ensures sends { SendsEach result.outcome result.log
        (snapshot Prover [] (L.state link)) (snapshot Prover result.log (L.state result.link)) }
    ensures receives { (L.state result.link).receives
        ≤ (L.state link).receives + length (sent_by Verifier result.log) + 1 }
    ensures faults { CountsOutcome result.outcome (L.state link).faults (L.state result.link).faults }
    ensures ended { (L.state result.link).is_open ≡ false }
    ensures complete { ProverCompletes job.now
        (record { asked = C.asked claimant.new; answer = C.answer claimant.new }) result.log
        (snapshot Prover [] (L.state link)) (snapshot Prover result.log (L.state result.link))
        result.outcome }
{
    honest_verdict();
    let _total = job.file().total();
    let _opened = job.statement().program().opened();
    let mut line = Line::new(alloc, link, Side::Prover);
    let course = prove(rt, alloc, job, claimant, &mut line);
    let (link, log) = line.end();
    ProverNote {
        granted: course.granted,
        outcome: course.outcome,
        log,
        link,
    }
}
