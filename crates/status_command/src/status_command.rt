// `status FILE [CIRCUIT] [--node K]`
ghost use Rattle.std.specs.Prelude.{◌≡◌, IfOk, IfErr, OnOk};
ghost use Rattle.std.specs.Option.{option_map};
ghost use Rattle.zk_model.specs.Files.{AreParams};
ghost use Rattle.zk_port.specs.Changes.{change};
ghost use Rattle.command_words.specs.Words.{status_ask};
ghost use Rattle.file_commands.specs.Effects.{OnlyLoads, effects};
ghost use Rattle.file_commands.specs.Journals.{IsJournalDisk, disk_change};
ghost use Rattle.status_command.specs.StatusRuns.{HasStatus, IsDealing, IsStatusName, LacksFile, Reports, StatusStop};
ghost use Rattle.status_command.specs.StatusRuns.{TakesUnits, dealing_of, node_of, status_text};

use crate::dealing::{DealtFile, load_dealt};
use crate::session_size::{SessionSize, load_session, sessions_of};
use crate::status_text::{FileStatus, say_status};
use crate::used_units::read_used;
use bristol_reader::one_circuit;
use claim_store::claims_start_again;
use file_commands::{Refusal, say_stop};
use lease_store::ceilings_start_again;
use std::alloc::Global;
use zk_port::{Disk, Shelf, Sink};

/// The dealt file that is asked about, and the size of a session, if a circuit is named.
#[derive(Drop)]
struct AskedFiles {
    file: DealtFile,
    session: Option<SessionSize>,
}

/// The dealt file of this name, with a node a verifier's, and the size of a session about the circuit whose file is named, if one is.
fn load_asked<F: Shelf>(
    alloc: Global,
    shelf: &mut F,
    file: &str,
    circuit: Option<&str>,
    node: Option<u32>,
) -> Result<AskedFiles, Refusal>
    ensures file { IfOk result (λ asked.
        IsDealing (F.state shelf.old).told file.now node (dealing_of asked.file)) }
    ensures node { IfOk result (λ asked. node_of asked.file ≡ node) }
    ensures session { IfOk result (λ asked. TakesUnits (F.state shelf.old).told
        (option_map (λ p. p.now) circuit.entry) (dealing_of asked.file).params
        (option_map (λ s. s.units) asked.session)) }
    ensures stop { IfErr result (LacksFile (status_ask file.now (option_map (λ p. p.now) circuit.entry) node)
        (change (F.state shelf.old) (F.state shelf.new))) }
    ensures kept { OnlyLoads
        (IsStatusName (status_ask file.now (option_map (λ p. p.now) circuit.entry) node))
        (change (F.state shelf.old) (F.state shelf.new)) }
{
    let dealt = match load_dealt(alloc, shelf, file, node) {
        Ok(dealt) => dealt,
        Err(stop) => return Err(stop),
    };
    let dealing = dealt.dealing();
    match load_session(alloc, shelf, circuit, &dealing.params) {
        Ok(session) => Ok(AskedFiles {
            file: dealt,
            session,
        }),
        Err(stop) => Err(stop),
    }
}

/// What is to be said of the file of this name, or why nothing is; and the disk.
fn read_status<F: Shelf, B: Disk>(
    alloc: Global,
    shelf: &mut F,
    journal: B,
    file: &str,
    circuit: Option<&str>,
    node: Option<u32>,
) -> Result<(FileStatus, B), (Refusal, B)>
    requires disk { IsJournalDisk (B.state journal) }
    ensures status { IfOk result (λ r.
        HasStatus (status_ask file.now (option_map (λ p. p.now) circuit.entry) node) (F.state shelf.old).told
        (disk_change (B.state journal) (B.state r.1))
        (status_text r.0.node r.0.dealing r.0.used r.0.sessions)) }
    ensures stop { IfErr result (λ e.
        StatusStop (status_ask file.now (option_map (λ p. p.now) circuit.entry) node)
        (change (F.state shelf.old) (F.state shelf.new))
        (disk_change (B.state journal) (B.state e.1)) e.0) }
    ensures kept { OnlyLoads
        (IsStatusName (status_ask file.now (option_map (λ p. p.now) circuit.entry) node))
        (change (F.state shelf.old) (F.state shelf.new)) }
{
    let asked = match load_asked(alloc, shelf, file, circuit, node) {
        Ok(asked) => asked,
        Err(stop) => return Err((stop, journal)),
    };
    let dealing = asked.file.dealing();
    match read_used(alloc, journal, file, &asked.file) {
        Ok((used, journal)) => {
            let left = dealing.params.total - used;
            let sessions = sessions_of(asked.session, left);
            Ok((
                FileStatus {
                    dealing,
                    node,
                    used,
                    sessions,
                },
                journal,
            ))
        }
        Err(stopped) => Err(stopped),
    }
}

/// The status that a run answers, and the disk that it was given.
#[derive(Drop)]
pub struct StatusEnd<B> {
    pub status: u8,
    pub journal: B,
}

/// `status FILE [CIRCUIT] [--node K]`: says how much is left of a dealt file, as its journal says, and for how many sessions about a
/// circuit that is enough; or why not; with the status and the disk, on which nothing is written. With a node the file is a
/// verifier's, and what is left is what that node's journal of claims says.
pub fn run_status<F: Shelf, B: Disk, O: Sink>(
    alloc: Global,
    shelf: &mut F,
    journal: B,
    out: &mut O,
    file: &str,
    circuit: Option<&str>,
    node: Option<u32>,
) -> StatusEnd<B>
    requires disk { IsJournalDisk (B.state journal) }
    ensures { Reports (status_ask file.now (option_map (λ p. p.now) circuit.entry) node)
        (disk_change (B.state journal) (B.state result.journal)) (effects result.status
        (change (F.state shelf.old) (F.state shelf.new)) (change (O.state out.old) (O.state out.new))) }
{
    one_circuit();
    claims_start_again();
    ceilings_start_again();
    match read_status(alloc, shelf, journal, file, circuit, node) {
        Ok((found, journal)) => {
            let status = say_status(alloc, out, &found);
            StatusEnd { status, journal }
        }
        Err((stop, journal)) => {
            let status = say_stop(alloc, out, stop);
            StatusEnd { status, journal }
        }
    }
}
