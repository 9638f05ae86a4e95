// A prover's session about a claim, over a line.
ghost use Rattle.std.specs.Prelude.{◌≡◌, ◌⊎◌, ◌∷◌, [], ◌≤◌, None, Some, Err, All, IfOk, IsSomeAnd, IsTrue, MatchOption};
ghost use Rattle.std.specs.Thread.{IsSync};
ghost use Rattle.zk_model.specs.declared.Expect.TheVariants as expect;
ghost use Rattle.zk_model.specs.declared.Side.TheVariants.{Prover};
ghost use Rattle.proof_frames.specs.Readings.{IsShortPlace};
ghost use Rattle.frame_link.specs.Lines.{snapshot_of};
ghost use Rattle.session_driver.specs.Runs.{IsFresh};
ghost use Rattle.session_prover.specs.Stages.{claimant_tells};
ghost use Rattle.session_script.specs.declared.fault.EndFault.TheVariants.{OfVoice};
ghost use Rattle.claim_store.specs.declared.ClaimFault.{ClaimFault};
ghost use Rattle.claim_prover.specs.Sessions.{IsUnbegun, LeavesTold, ProverLeaves};
ghost use Rattle.claim_prover.specs.declared.fault.ProvingFault.TheVariants as faults;
ghost use Rattle.claim_prover.specs.declared.prove.ProverEnd.TheVariants as ended;
ghost use Rattle.claim_prover.specs.Telling.{knowledge_of};

use crate::fault::ProvingFault;
use crate::proving::Proving;
use crate::witness::Witness;
use dealer_files::ProverFile;
use frame_link::{Line, LineFault};
use session_core::Correlations;
use session_driver::Outcome;
use session_laws::asks_are_in_range;
use session_prover::Claimant;
use session_script::{EndFault, Scripted, lead};
use std::alloc::{AllocError, Global};
use std::collections::VecDeque;
use std::thread::Threads;
use zk_model::Expect;
use zk_port::Link;

/// How a session ended.
#[derive(Drop)]
pub enum ProverEnd {
    /// This verdict was read.
    Said { code: u8, number: u32 },
    /// A frame was refused, or not answered.
    Refused { fault: EndFault<ProvingFault> },
    /// A frame did not pass.
    Cut { fault: LineFault },
}

/// The place after the hello.
fn grant_place(alloc: Global) -> Result<VecDeque<Expect>, AllocError>
    ensures places { IfOk result (λ places. places.items ≡ expect.Grant ∷ []) }
    ensures short { IfOk result (λ places. All IsShortPlace places.items) }
{
    let mut places = VecDeque::new(alloc);
    places.push_back(Expect::Grant)?;
    Ok(places)
}

/// Leads a session, from its hello to its verdict.
fn lead_claim<'a, R: Threads + Sync, O: Claimant, W: Witness, L: Link>(
    rt: &R,
    alloc: Global,
    witness: &'a W,
    file: &'a ProverFile,
    claimant: &mut O,
    line: &mut Line<L>,
) -> ProverEnd
    requires shared { IsSync R.row }
    requires once { O.answer claimant.old ≡ None }
    requires total { O.total claimant.old ≤ file.now.params.total }
    requires fresh { IsFresh line.old }
    requires side { line.old.side ≡ Prover }
    ensures leaves { IsUnbegun claimant.old claimant.new result (snapshot_of line.old) (snapshot_of line.new)
        ⊎ ProverLeaves (claimant_tells O.asked O.answer O.total O.moves)
        (knowledge_of (W.claim witness.now) (W.said witness.now) (W.given witness.now) (W.replying witness.now)) file.now claimant.old claimant.new
        result (snapshot_of line.old) (snapshot_of line.new) }
    ensures side { line.new.side ≡ line.old.side }
    ensures open_still { IsTrue line.new.is_open }
{
    asks_are_in_range();
    witness.has_places();
    let _total = file.total();
    let Ok(left) = grant_place(alloc) else {
        return ProverEnd::Cut {
            fault: LineFault::NoMemory,
        };
    };
    let voice = Proving {
        witness,
        file,
        given: None,
        asks: VecDeque::new(alloc),
        replies: Vec::new(alloc),
        pairs: Correlations::Made(Vec::new(alloc)),
        challenge: None,
        answers: VecDeque::new(alloc),
        verdict: None,
    };
    let mut end = Scripted { voice, left };
    match lead(rt, alloc, &mut end, claimant, line) {
        Outcome::Done => match end.voice.verdict {
            Some((code, number)) => ProverEnd::Said { code, number },
            None => unreachable!(),
        },
        Outcome::Refused { fault } => ProverEnd::Refused { fault },
        Outcome::Cut { fault } => ProverEnd::Cut { fault },
    }
}

/// Leads a session about a claim with a peer that may send anything: says its hello, has the units that it is granted claimed, asks for
/// them in kind extended, commits its values, answers the challenge, and reads the verdict.
pub fn prove_claim<'a, R: Threads + Sync, O: Claimant, W: Witness, L: Link>(
    rt: &R,
    alloc: Global,
    witness: &'a W,
    file: &'a ProverFile,
    claimant: &mut O,
    line: &mut Line<L>,
) -> ProverEnd
    requires shared { IsSync R.row }
    requires once { O.answer claimant.old ≡ None }
    requires total { O.total claimant.old ≤ file.now.params.total }
    requires fresh { IsFresh line.old }
    requires side { line.old.side ≡ Prover }
    ensures leaves { IsUnbegun claimant.old claimant.new result (snapshot_of line.old) (snapshot_of line.new)
        ⊎ ProverLeaves (claimant_tells O.asked O.answer O.total O.moves)
        (knowledge_of (W.claim witness.now) (W.said witness.now) (W.given witness.now) (W.replying witness.now)) file.now claimant.old claimant.new
        result (snapshot_of line.old) (snapshot_of line.new) }
    ensures told { O.asked claimant.old ≡ None
        → LeavesTold (knowledge_of (W.claim witness.now) (W.said witness.now) (W.given witness.now) (W.replying witness.now)) file.now
        (record { asked = O.asked claimant.new; answer = O.answer claimant.new }) result (snapshot_of line.old) (snapshot_of line.new) }
    ensures moved { MatchOption (O.answer claimant.new) (claimant.new ≡ claimant.old)
        (λ answer. IsSomeAnd (O.asked claimant.new)
        (λ units. O.moves claimant.old units.0 units.1 answer claimant.new)) }
    ensures refused { (cause : ClaimFault) → result ≡ ended.Refused (OfVoice (faults.Claim cause))
        → O.answer claimant.new ≡ Some (Err cause) }
    ensures refusal { (cause : ClaimFault) → O.answer claimant.new ≡ Some (Err cause)
        → result ≡ ended.Refused (OfVoice (faults.Claim cause)) }
    ensures side { line.new.side ≡ line.old.side }
    ensures open_still { IsTrue line.new.is_open }
{
    asks_are_in_range();
    witness.has_places();
    let _total = file.total();
    lead_claim(rt, alloc, witness, file, claimant, line)
}
