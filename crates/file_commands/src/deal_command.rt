// `deal NAME --units N [--trees T --height H --base K]`
ghost use Rattle.std.specs.Prelude.{◌≡◌, ◌⊎◌, ◌≤◌, ◌^◌, ◌++◌, IfOk, IfErr, OnOk, OnErr, string_bytes};
ghost use Rattle.std.specs.Option.{option_map};
ghost use Rattle.dealer_files.specs.Dealing.{dealt_prover};
ghost use Rattle.zk_model.specs.Files.{AreParams};
ghost use Rattle.zk_port.specs.Changes.{change};
ghost use Rattle.zk_port.specs.Files.{OthersStay, stored};
ghost use Rattle.command_words.specs.Words.{deal_ask};
ghost use Rattle.file_commands.specs.DealRuns.{Deals, IsDealName, StopsStoring, StoresDealt};
ghost use Rattle.file_commands.specs.DealRuns.{all_stored, content, dealt_stores, ending, file_lines, file_stores, kind_name};
ghost use Rattle.file_commands.specs.Effects.{CountsStay, NameFailed, OnlyStores, effects};
ghost use Rattle.file_commands.specs.Stops.{PrintsMade};
ghost use Rattle.file_commands.specs.declared.refusal.Refusal.TheVariants as stops;

use crate::refusal::Refusal;
use crate::saying::{say, say_memory, say_stop};
use dealer_files::{ProverFile, VerifierFile, deal};
use lease_journal::claim_slots;
use std::alloc::{AllocError, Global};
use twin_journal::{JournalKind, blank_twin, twin_ceiling_slots};
use zk_model::{Kind, Params};
use zk_port::{PortFault, Shelf, Sink};

/// The files that are stored.
#[derive(Clone, Copy, Debug, PartialEq, Eq)]
pub enum Stored {
    ProverFile,
    VerifierFile,
    ProverJournal,
    VerifierJournal,
}

impl Stored {
    /// How the name of the file ends.
    fn ending(self) -> &'static str
        ensures { result.now ≡ ending self }
    {
        match self {
            Stored::ProverFile => ".prover",
            Stored::VerifierFile => ".verifier",
            Stored::ProverJournal => ".prover.journal",
            Stored::VerifierJournal => ".verifier.journal",
        }
    }
}

/// The name of a file.
fn name_of(alloc: Global, name: &str, file: Stored) -> Result<String, AllocError>
    ensures { IfOk result (λ whole. string_bytes whole ≡ name.now ++ ending file) }
{
    let ending = file.ending();
    Ok(format!(in alloc; "{name}{ending}")?)
}

/// What is stored in this file.
fn content(
    alloc: Global,
    file: Stored,
    prover: &ProverFile,
    verifier: &VerifierFile,
) -> Result<Vec<u8>, AllocError>
    ensures { IfOk result (λ bytes. bytes.items ≡ content file prover.now verifier.now) }
{
    let total = prover.total();
    match file {
        Stored::ProverFile => prover.encode(alloc),
        Stored::VerifierFile => verifier.encode(alloc),
        Stored::ProverJournal => {
            blank_twin(
                alloc,
                JournalKind::Claims,
                &prover.id(),
                total,
                claim_slots(total),
            )
        }
        Stored::VerifierJournal => {
            blank_twin(
                alloc,
                JournalKind::Ceilings,
                &prover.id(),
                total,
                twin_ceiling_slots(total),
            )
        }
    }
}

/// Stores this file of the dealt ones under its name.
fn store_file<F: Shelf>(
    alloc: Global,
    shelf: &mut F,
    name: &str,
    file: Stored,
    prover: &ProverFile,
    verifier: &VerifierFile,
) -> Result<(), Refusal>
    ensures stored { OnOk result ((F.state shelf.new).told ≡ option_map
        (stored (name.now ++ ending file) (content file prover.now verifier.now)) (F.state shelf.old).told) }
    ensures quiet { OnOk result (CountsStay (change (F.state shelf.old) (F.state shelf.new))) }
    ensures others { OnErr result (OthersStay (name.now ++ ending file)
        (F.state shelf.old).told (F.state shelf.new).told) }
    ensures stop { IfErr result (λ stop. (stop ≡ stops.NoMemory) ⊎ ((stop ≡ stops.ShelfFailed)
        × NameFailed (name.now ++ ending file) (change (F.state shelf.old) (F.state shelf.new)))) }
    ensures kept { OnlyStores (IsDealName name.now)
        (change (F.state shelf.old) (F.state shelf.new)) }
{
    let bytes = content(alloc, file, prover, verifier)?;
    let whole = name_of(alloc, name, file)?;
    match shelf.store(alloc, &whole, &bytes) {
        Ok(()) => Ok(()),
        Err(PortFault::Failed) => Err(Refusal::ShelfFailed),
        Err(PortFault::NoMemory) => Err(Refusal::NoMemory),
    }
}

/// Stores both files and both journals.
fn store_dealt<F: Shelf>(
    alloc: Global,
    shelf: &mut F,
    name: &str,
    prover: &ProverFile,
    verifier: &VerifierFile,
) -> Result<(), Refusal>
    ensures stored { OnOk result ((F.state shelf.new).told ≡ option_map
        (all_stored (file_stores name.now prover.now verifier.now)) (F.state shelf.old).told) }
    ensures quiet { OnOk result (CountsStay (change (F.state shelf.old) (F.state shelf.new))) }
    ensures stop { IfErr result
        (StopsStoring (file_stores name.now prover.now verifier.now)
        (change (F.state shelf.old) (F.state shelf.new))) }
    ensures kept { OnlyStores (IsDealName name.now)
        (change (F.state shelf.old) (F.state shelf.new)) }
{
    store_file(alloc, shelf, name, Stored::ProverFile, prover, verifier)?;
    store_file(alloc, shelf, name, Stored::VerifierFile, prover, verifier)?;
    store_file(alloc, shelf, name, Stored::ProverJournal, prover, verifier)?;
    store_file(
        alloc,
        shelf,
        name,
        Stored::VerifierJournal,
        prover,
        verifier,
    )
}

/// The name of a kind.
fn kind_name(kind: Kind) -> &'static str
    ensures { result.now ≡ kind_name kind }
{
    match kind {
        Kind::Direct => "direct",
        Kind::Extended => "extended",
    }
}

/// The lines of the files that are stored.
fn write_dealt(alloc: Global, prover: &ProverFile) -> Result<String, AllocError>
    ensures { IfOk result (λ lines. string_bytes lines ≡ file_lines prover.now) }
{
    let id = prover.id();
    let id = hex::encode(alloc, id.as_slice())?;
    let total = prover.total();
    let kind = kind_name(prover.params().kind);
    Ok(format!(in alloc; "id {id}\nunits {total} {kind}\n")?)
}

/// Says what is stored, or that there is no memory for it, and answers the status.
fn say_dealt<O: Sink>(alloc: Global, out: &mut O, prover: &ProverFile) -> u8
    ensures { PrintsMade 0 (file_lines prover.now) result
        (change (O.state out.old) (O.state out.new)) }
{
    match write_dealt(alloc, prover) {
        Ok(lines) => say(alloc, out, lines.as_bytes(), 0),
        Err(_) => say_memory(alloc, out),
    }
}

/// Deals, and stores both files and both journals.
fn deal_files<F: Shelf>(
    alloc: Global,
    shelf: &mut F,
    name: &str,
    params: &Params,
    seed: &[u8; 32],
) -> Result<ProverFile, Refusal>
    requires { AreParams params.now }
    ensures prover { IfOk result (λ prover. prover ≡ dealt_prover params.now seed.now) }
    ensures stores { OnOk result (StoresDealt (deal_ask name.now params.now) seed.now
        (change (F.state shelf.old) (F.state shelf.new))) }
    ensures stop { IfErr result
        (StopsStoring (dealt_stores (deal_ask name.now params.now) seed.now)
        (change (F.state shelf.old) (F.state shelf.new))) }
    ensures kept { OnlyStores (IsDealName name.now)
        (change (F.state shelf.old) (F.state shelf.new)) }
{
    let (prover, verifier) = deal(alloc, params, seed)?;
    store_dealt(alloc, shelf, name, &prover, &verifier)?;
    Ok(prover)
}

/// `deal NAME --units N [--trees T --height H --base K]`: deals files for these numbers from the seed, stores them
/// under the name with their journals, says the id and the units, or why they are not stored, and answers the status.
pub fn run_deal<F: Shelf, O: Sink>(
    alloc: Global,
    shelf: &mut F,
    out: &mut O,
    name: &str,
    params: &Params,
    seed: &[u8; 32],
) -> u8
    requires { AreParams params.now }
    ensures { Deals (deal_ask name.now params.now) seed.now (effects result
        (change (F.state shelf.old) (F.state shelf.new)) (change (O.state out.old) (O.state out.new))) }
{
    match deal_files(alloc, shelf, name, params, seed) {
        Ok(prover) => say_dealt(alloc, out, &prover),
        Err(stop) => say_stop(alloc, out, stop),
    }
}
