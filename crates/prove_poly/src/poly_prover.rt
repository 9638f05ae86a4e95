// `prove-poly ADDRESS FILE TEXT VALUES`
ghost use Rattle.std.specs.Prelude.{◌≡◌, ◌≤◌, ℕ, List, IfOk, IfErr, OnOk, length};
ghost use Rattle.zk_model.specs.Bytes.{AreBytes};
ghost use Rattle.zk_port.specs.Changes.{change};
ghost use Rattle.poly_model.specs.declared.limits.TheConstants.{MAX_VARIABLES};
ghost use Rattle.command_words.specs.Commands.{prove_poly_of};
ghost use Rattle.claim_prover.specs.Telling.{knowledge_of};
ghost use Rattle.file_commands.specs.Effects.{OnlyLoads, effects};
ghost use Rattle.file_commands.specs.Journals.{IsJournalDisk, disk_change};
ghost use Rattle.file_commands.specs.Stops.{IsProverFileAt};
ghost use Rattle.poly_files.specs.PolyFiles.{IsPolyWitness};
ghost use Rattle.prove_poly.specs.PolyProofs.{HoldsOver, HoldsPoly, IsPolyName, LacksPoly, NoSession, ProvePolyStop, ProvesPoly};

use crate::session::hold_session;
use claim_prover::Witness;
use command_words::ProvePolyAsk;
use dealer_files::ProverFile;
use file_commands::{Refusal, load_prover, open_claims, say_stop};
use poly_files::{PolyValues, load_poly_values};
use poly_session::PolyWitness;
use prove_command::{ProveEnd, connect_stop, say_proved};
use session_prover::{ProverNote, StoreClaimant};
use std::alloc::Global;
use std::thread::Threads;
use zk_port::{Access, Disk, Door, Shelf, Sink};

/// What is named: the constraints with values that meet all of them, and the prover's file.
fn load_all<F: Shelf>(
    alloc: Global,
    shelf: &mut F,
    ask: &ProvePolyAsk<String>,
) -> Result<(PolyValues, ProverFile), Refusal>
    ensures witness { IfOk result (λ r. IsPolyWitness (F.state shelf.old).told (prove_poly_of ask.now).text (prove_poly_of ask.now).values
        r.0.constraints.polys r.0.constraints.digest r.0.values.items) }
    ensures octets { IfOk result (λ r. AreBytes 32 r.0.constraints.digest) }
    ensures few { IfOk result (λ r. r.0.constraints.polys.variables ≤ MAX_VARIABLES) }
    ensures counted { IfOk result (λ r. length r.0.values.items ≡ r.0.constraints.polys.variables) }
    ensures file { IfOk result (λ r. IsProverFileAt (F.state shelf.old).told (prove_poly_of ask.now).file r.1) }
    ensures stop { IfErr result (LacksPoly (prove_poly_of ask.now) (change (F.state shelf.old) (F.state shelf.new))) }
    ensures kept { OnlyLoads (IsPolyName (prove_poly_of ask.now)) (change (F.state shelf.old) (F.state shelf.new)) }
    ensures quiet { OnOk result (F.state shelf.new ≡ F.state shelf.old) }
{
    let witness = load_poly_values(alloc, shelf, &ask.text, &ask.values)?;
    let file = load_prover(alloc, shelf, &ask.file)?;
    Ok((witness, file))
}

/// Opens the file's journal, connects, and holds a session with who listens at the address; and gives the disk back.
fn prove_witness<R: Threads + Sync, W: Witness, D: Door, B: Disk>(
    rt: &R,
    alloc: Global,
    witness: &W,
    file: &ProverFile,
    ask: &ProvePolyAsk<String>,
    journal: B,
    door: &mut D,
) -> Result<(ProverNote<D::Link>, B), (Refusal, B)>
    requires disk { IsJournalDisk (B.state journal) }
    ensures holds { IfOk result (λ r. HoldsOver D.Link.state (prove_poly_of ask.now)
        (knowledge_of (W.claim witness.now) (W.said witness.now) (W.given witness.now) (W.replying witness.now)) file.now r.0
        (disk_change (B.state journal) (B.state r.1)) (change (D.state door.old) (D.state door.new))) }
    ensures stop { IfErr result (λ r. NoSession (prove_poly_of ask.now) file.now
        (disk_change (B.state journal) (B.state r.1)) (change (D.state door.old) (D.state door.new)) r.0) }
{
    let store = match open_claims(alloc, journal, &ask.file, Access::Own, file) {
        Ok(store) => store,
        Err(stopped) => return Err(stopped),
    };
    let link = match door.connect(alloc, &ask.address, ask.timeout) {
        Ok(link) => link,
        Err(fault) => return Err((connect_stop(fault), store.close())),
    };
    let mut claimant = StoreClaimant::new(alloc, store);
    let note = hold_session(rt, alloc, witness, file, &mut claimant, link);
    Ok((note, claimant.into_store().close()))
}

/// Proves what is named, or says why not.
fn prove_files<R: Threads + Sync, F: Shelf, D: Door, B: Disk>(
    rt: &R,
    alloc: Global,
    shelf: &mut F,
    ask: &ProvePolyAsk<String>,
    journal: B,
    door: &mut D,
) -> Result<(ProverNote<D::Link>, B), (Refusal, B)>
    requires disk { IsJournalDisk (B.state journal) }
    ensures holds { IfOk result (λ r. HoldsPoly D.Link.state (prove_poly_of ask.now) r.0 (F.state shelf.old).told
        (disk_change (B.state journal) (B.state r.1)) (change (D.state door.old) (D.state door.new))) }
    ensures stop { IfErr result (λ r. ProvePolyStop (prove_poly_of ask.now)
        (change (F.state shelf.old) (F.state shelf.new))
        (disk_change (B.state journal) (B.state r.1)) (change (D.state door.old) (D.state door.new)) r.0) }
    ensures kept { OnlyLoads (IsPolyName (prove_poly_of ask.now)) (change (F.state shelf.old) (F.state shelf.new)) }
    ensures quiet { OnOk result (F.state shelf.new ≡ F.state shelf.old) }
{
    let (found, file) = match load_all(alloc, shelf, ask) {
        Ok(loaded) => loaded,
        Err(refusal) => return Err((refusal, journal)),
    };
    let witness = PolyWitness::new(
        &found.constraints.polys,
        found.constraints.digest,
        &found.values,
    );
    prove_witness(rt, alloc, &witness, &file, ask, journal, door)
}

/// `prove-poly ADDRESS FILE TEXT VALUES`: proves to the verifier at the address that the values of a file meet all constraints of a text,
/// with units that are claimed in the journal of the prover's file, says what came of it and hands it back, or says why nothing is proved;
/// with the status, the disk and the door. Nothing is sent and nothing is claimed unless the values meet all constraints.
pub fn run_prove_poly<R, F, D, B, O>(
    rt: &R,
    alloc: Global,
    shelf: &mut F,
    journal: B,
    mut door: D,
    out: &mut O,
    ask: &ProvePolyAsk<String>,
) -> ProveEnd<B, D>
where
    R: Threads + Sync,
    F: Shelf,
    D: Door + Drop,
    D::Link: Drop,
    B: Disk + Drop,
    O: Sink,
    requires disk { IsJournalDisk (B.state journal) }
    ensures proves { ProvesPoly D.Link.state (prove_poly_of ask.now) result.note
        (disk_change (B.state journal) (B.state result.journal))
        (change (D.state door) (D.state result.door))
        (effects result.status
        (change (F.state shelf.old) (F.state shelf.new)) (change (O.state out.old) (O.state out.new))) }
{
    match prove_files(rt, alloc, shelf, ask, journal, &mut door) {
        Ok((note, journal)) => {
            let count = journal.faults();
            let status = say_proved(alloc, out, note.granted, count, &note.outcome);
            ProveEnd {
                status,
                journal,
                door,
                note: Some(note),
            }
        }
        Err((refusal, journal)) => {
            let status = say_stop(alloc, out, refusal);
            ProveEnd {
                status,
                journal,
                door,
                note: None,
            }
        }
    }
}
