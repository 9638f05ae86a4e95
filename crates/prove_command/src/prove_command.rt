// `prove ADDRESS FILE CIRCUIT BITS OUTPUTS [--public BITS]` and `prove-arith ADDRESS FILE CIRCUIT VALUES OUTPUTS`
ghost use Rattle.std.specs.Prelude.{◌≡◌, ◌⊎◌, ℕ, List, IfOk, IfErr, IfSome, OnOk, length};
ghost use Rattle.zk_port.specs.Changes.{change};
ghost use Rattle.file_commands.specs.Journals.{IsJournalDisk, disk_change};
ghost use Rattle.prove_command.specs.ProveRuns.{BeginningStop, HoldsAsked, HoldsSession, LacksProof, Proves, ProveStop};
ghost use Rattle.prove_command.specs.ProveRuns.{HasWitness, IsProveName, IsWitnessName, WitnessStop};
ghost use Rattle.file_commands.specs.Stops.{connect_refusal, IsProverFileAt};
ghost use Rattle.file_commands.specs.Effects.{OnlyLoads, effects};

use crate::bits_witness::load_bits;
use crate::elements_witness::load_solution;
use crate::proof::{Proof, ProofNames};
use crate::proved_line::say_proved;
use crate::witness::Witness;
use arith_reader::texts_are_exact;
use bristol_reader::one_circuit;
use claim_store::claims_start_again;
use dealer_files::ProverFile;
use element_file::elements_are_exact;
use file_commands::{Refusal, load_prover, open_claims, say_stop};
use mersenne_field::Fe;
use session_core::{ProverJob, Statement};
use session_prover::{ProverNote, StoreClaimant, prove_session};
use std::alloc::Global;
use std::thread::Threads;
use zk_port::{Access, Disk, Door, PortFault, Shelf, Sink};

/// The claim that is named, with what proves it.
fn load_witness<R: Threads + Sync, F: Shelf>(
    rt: &R,
    alloc: Global,
    shelf: &mut F,
    names: &ProofNames,
) -> Result<Witness, Refusal>
    ensures witness { IfOk result (λ w.
        HasWitness (F.state shelf.old).told names.now w.claim w.inputs.items
        w.wires) }
    ensures inputs { IfOk result (λ w. length w.inputs.items ≡ w.claim.program.inputs) }
    ensures stop { IfErr result (WitnessStop names.now (change (F.state shelf.old) (F.state shelf.new))) }
    ensures kept { OnlyLoads (IsWitnessName names.now) (change (F.state shelf.old) (F.state shelf.new)) }
    ensures quiet { OnOk result (F.state shelf.new ≡ F.state shelf.old) }
{
    match names {
        ProofNames::Boolean(proof) => load_bits(rt, alloc, shelf, proof),
        ProofNames::Arithmetic(proof) => load_solution(rt, alloc, shelf, proof),
    }
}

/// What is named: the claim with what proves it, and the prover's file.
fn load_all<R: Threads + Sync, F: Shelf>(
    rt: &R,
    alloc: Global,
    shelf: &mut F,
    proof: &Proof,
) -> Result<(Witness, ProverFile), Refusal>
    ensures witness { IfOk result (λ r.
        HasWitness (F.state shelf.old).told proof.now.names r.0.claim r.0.inputs.items
        r.0.wires) }
    ensures inputs { IfOk result (λ r. length r.0.inputs.items ≡ r.0.claim.program.inputs) }
    ensures file { IfOk result (λ r. IsProverFileAt (F.state shelf.old).told proof.now.file r.1) }
    ensures stop { IfErr result (λ stop. LacksProof proof.now
        (change (F.state shelf.old) (F.state shelf.new)) stop) }
    ensures kept { OnlyLoads (IsProveName proof.now) (change (F.state shelf.old) (F.state shelf.new)) }
    ensures quiet { OnOk result (F.state shelf.new ≡ F.state shelf.old) }
{
    let names = proof.names();
    let witness = load_witness(rt, alloc, shelf, names)?;
    let name = proof.file();
    let file = load_prover(alloc, shelf, name)?;
    Ok((witness, file))
}

/// Why there is no link.
pub fn connect_stop(fault: PortFault) -> Refusal
    ensures { result ≡ connect_refusal fault }
{
    match fault {
        PortFault::Failed => Refusal::DoorFailed,
        PortFault::NoMemory => Refusal::NoMemory,
    }
}

/// Opens the file's journal, connects, and holds a session about a job with who listens at the address; and gives the disk back.
fn prove_job<R: Threads + Sync, D: Door, B: Disk>(
    rt: &R,
    alloc: Global,
    job: &ProverJob<'_>,
    proof: &Proof,
    journal: B,
    door: &mut D,
) -> Result<(ProverNote<D::Link>, B), (Refusal, B)>
    requires disk { IsJournalDisk (B.state journal) }
    ensures holds { IfOk result (λ r. HoldsSession D.Link.state proof.now job.now r.0
        (disk_change (B.state journal) (B.state r.1)) (change (D.state door.old) (D.state door.new))) }
    ensures stop { IfErr result (λ r. BeginningStop proof.now job.now
        (disk_change (B.state journal) (B.state r.1)) (change (D.state door.old) (D.state door.new)) r.0) }
{
    let name = proof.file();
    let file = job.file();
    let store = match open_claims(alloc, journal, name, Access::Own, file) {
        Ok(store) => store,
        Err(stopped) => return Err(stopped),
    };
    let address = proof.address();
    let timeout = proof.timeout();
    let link = match door.connect(alloc, address, timeout) {
        Ok(link) => link,
        Err(fault) => return Err((connect_stop(fault), store.close())),
    };
    let mut claimant = StoreClaimant::new(alloc, store);
    let note = prove_session(rt, alloc, job, &mut claimant, link);
    Ok((note, claimant.into_store().close()))
}

/// Proves what is named, or says why not.
fn prove_files<R: Threads + Sync, F: Shelf, D: Door, B: Disk>(
    rt: &R,
    alloc: Global,
    shelf: &mut F,
    proof: &Proof,
    journal: B,
    door: &mut D,
) -> Result<(ProverNote<D::Link>, B), (Refusal, B)>
    requires disk { IsJournalDisk (B.state journal) }
    ensures holds { IfOk result (λ r. HoldsAsked D.Link.state proof.now r.0 (F.state shelf.old).told
        (disk_change (B.state journal) (B.state r.1)) (change (D.state door.old) (D.state door.new))) }
    ensures stop { IfErr result (λ r. ProveStop proof.now
        (change (F.state shelf.old) (F.state shelf.new))
        (disk_change (B.state journal) (B.state r.1)) (change (D.state door.old) (D.state door.new)) r.0) }
    ensures kept { OnlyLoads (IsProveName proof.now) (change (F.state shelf.old) (F.state shelf.new)) }
    ensures quiet { OnOk result (F.state shelf.new ≡ F.state shelf.old) }
{
    let (witness, file) = match load_all(rt, alloc, shelf, proof) {
        Ok(loaded) => loaded,
        Err(refusal) => return Err((refusal, journal)),
    };
    let statement = witness.claim.statement();
    let job = ProverJob::with_wires(&statement, &file, &witness.inputs, &witness.wires);
    prove_job(rt, alloc, &job, proof, journal, door)
}

/// How a run ends: its status, the disk and the door that it was given, and what came of the session, exactly where the door connected.
#[derive(Drop)]
pub struct ProveEnd<B, D: Door> {
    pub status: u8,
    pub journal: B,
    pub door: D,
    pub note: Option<ProverNote<D::Link>>,
}

/// `prove ADDRESS FILE CIRCUIT BITS OUTPUTS [--public BITS]` and `prove-arith ADDRESS FILE CIRCUIT VALUES OUTPUTS`: proves to the verifier at
/// the address what the words name, with units that are claimed in the file's journal, says what came of it and hands it back, or says why
/// nothing is proved; with the status, the disk and the door.
pub fn run_prove<R, F, D, B, O>(
    rt: &R,
    alloc: Global,
    shelf: &mut F,
    journal: B,
    mut door: D,
    out: &mut O,
    proof: &Proof,
) -> ProveEnd<B, D>
where
    R: Threads + Sync,
    F: Shelf,
    D: Door + Drop,
    D::Link: Drop,
    B: Disk + Drop,
    O: Sink,
    requires disk { IsJournalDisk (B.state journal) }
    ensures proves { Proves D.Link.state proof.now result.note
        (disk_change (B.state journal) (B.state result.journal))
        (change (D.state door) (D.state result.door))
        (effects result.status
        (change (F.state shelf.old) (F.state shelf.new)) (change (O.state out.old) (O.state out.new))) }
{
    one_circuit();
    texts_are_exact();
    elements_are_exact();
    claims_start_again();
    match prove_files(rt, alloc, shelf, proof, journal, &mut door) {
        Ok((note, journal)) => {
            let count = journal.faults();
            let status = say_proved(alloc, out, note.granted, count, &note.outcome);
            ProveEnd {
                status,
                journal,
                door,
                note: Some(note),
            }
        }
        Err((refusal, journal)) => {
            let status = say_stop(alloc, out, refusal);
            ProveEnd {
                status,
                journal,
                door,
                note: None,
            }
        }
    }
}
