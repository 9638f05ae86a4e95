// `migrate SIDE FILE`
ghost use Rattle.std.specs.Prelude.{◌≡◌, IfOk, IfErr, OnOk, string_bytes};
ghost use Rattle.zk_port.specs.Changes.{change};
ghost use Rattle.command_words.specs.Words.{migrate_ask};
ghost use Rattle.file_commands.specs.Effects.{IsName, OnlyLoads, effects};
ghost use Rattle.file_commands.specs.Journals.{IsJournalDisk, disk_change, own_journal};
ghost use Rattle.file_commands.specs.MigrateRuns.{HasMigrated, IsDealtAt, MigrateStop, Migrates};
ghost use Rattle.file_commands.specs.MigrateRuns.{MigratesJournal, MigrationStop, journal_kind, moved_line};
ghost use Rattle.file_commands.specs.Stops.{FileStop, PrintsMade};

use crate::dealt_file::{load_prover, load_verifier};
use crate::journal_file::{choose_journal, start_stop};
use crate::refusal::Refusal;
use crate::saying::{say, say_memory, say_stop};
use claim_store::StoreFault;
use journal_migration::{Moved, migrate, sound_is_migrated};
use std::alloc::{AllocError, Global};
use zk_model::{JournalKind, Side};
use zk_port::{Access, Disk, Shelf, Sink};

/// The id of a dealt file, and how many units it has.
#[derive(Clone, Copy)]
pub struct DealtUnits {
    pub id: [u8; 32],
    pub total: u64,
}

/// The kind of journal that a side keeps.
fn journal_kind(side: Side) -> JournalKind
    ensures { result ≡ journal_kind side }
{
    match side {
        Side::Prover => JournalKind::Claims,
        Side::Verifier => JournalKind::Ceilings,
    }
}

/// The id and the units of this side's dealt file of this name.
fn load_dealt<F: Shelf>(
    alloc: Global,
    shelf: &mut F,
    side: Side,
    name: &str,
) -> Result<DealtUnits, Refusal>
    ensures dealt { IfOk result (IsDealtAt side (F.state shelf.old).told name.now) }
    ensures stop { IfErr result
        (FileStop side name.now (change (F.state shelf.old) (F.state shelf.new))) }
    ensures kept { OnlyLoads (IsName name.now) (change (F.state shelf.old) (F.state shelf.new)) }
    ensures quiet { OnOk result (F.state shelf.new ≡ F.state shelf.old) }
{
    match side {
        Side::Prover => match load_prover(alloc, shelf, name) {
            Ok(file) => Ok(DealtUnits {
                id: file.id(),
                total: file.total(),
            }),
            Err(refusal) => Err(refusal),
        },
        Side::Verifier => match load_verifier(alloc, shelf, name) {
            Ok(file) => Ok(DealtUnits {
                id: file.id(),
                total: file.total(),
            }),
            Err(refusal) => Err(refusal),
        },
    }
}

/// Migrates the journal of a dealt file of this side and name.
fn migrate_journal<B: Disk>(
    alloc: Global,
    journal: &mut B,
    side: Side,
    name: &str,
    dealt: DealtUnits,
) -> Result<Moved, Refusal>
    requires disk { IsJournalDisk (B.state journal.old) }
    ensures migrates { IfOk result (MigratesJournal (own_journal name.now) (journal_kind side) dealt
        (disk_change (B.state journal.old) (B.state journal.new))) }
    ensures stop { IfErr result (MigrationStop (migrate_ask side name.now) dealt
        (disk_change (B.state journal.old) (B.state journal.new))) }
{
    if let Err(refusal) = choose_journal(alloc, journal, name, Access::Own) {
        return Err(refusal);
    }
    let kind = journal_kind(side);
    match migrate(alloc, journal, kind, &dealt.id, dealt.total) {
        Ok(moved) => Ok(moved),
        Err(StoreFault::NoMemory) => Err(Refusal::NoMemory),
        Err(StoreFault::Journal(fault)) => {
            let count = journal.faults();
            Err(start_stop(fault, count))
        }
    }
}

/// Migrates the journal of this side's dealt file of this name.
fn migrate_file<F: Shelf, B: Disk>(
    alloc: Global,
    shelf: &mut F,
    journal: &mut B,
    side: Side,
    name: &str,
) -> Result<Moved, Refusal>
    requires disk { IsJournalDisk (B.state journal.old) }
    ensures migrated { IfOk result (HasMigrated (migrate_ask side name.now) (F.state shelf.old).told
        (disk_change (B.state journal.old) (B.state journal.new))) }
    ensures stop { IfErr result (MigrateStop (migrate_ask side name.now)
        (change (F.state shelf.old) (F.state shelf.new))
        (disk_change (B.state journal.old) (B.state journal.new))) }
    ensures kept { OnlyLoads (IsName name.now) (change (F.state shelf.old) (F.state shelf.new)) }
{
    let dealt = match load_dealt(alloc, shelf, side, name) {
        Ok(dealt) => dealt,
        Err(refusal) => return Err(refusal),
    };
    migrate_journal(alloc, journal, side, name, dealt)
}

/// The line that says what a migration found.
fn write_moved(alloc: Global, moved: Moved) -> Result<String, AllocError>
    ensures { IfOk result (λ line. string_bytes line ≡ moved_line moved) }
{
    match moved {
        Moved::Done { used } => Ok(format!(in alloc; "migrated {used}\n")?),
        Moved::Already => String::from_str(alloc, "already migrated\n"),
    }
}

/// Says what a migration found, or that there is no memory for its line, and answers the status.
fn say_moved<O: Sink>(alloc: Global, out: &mut O, moved: Moved) -> u8
    ensures { PrintsMade 0 (moved_line moved) result
        (change (O.state out.old) (O.state out.new)) }
{
    match write_moved(alloc, moved) {
        Ok(line) => say(alloc, out, line.as_bytes(), 0),
        Err(_) => say_memory(alloc, out),
    }
}

/// `migrate SIDE FILE`: migrates the journal of this side's dealt file of this name, says how many slots of it are in use
/// or that it had been migrated before, or why it is not migrated, and answers the status.
pub fn run_migrate<F: Shelf, B: Disk, O: Sink>(
    alloc: Global,
    shelf: &mut F,
    journal: &mut B,
    out: &mut O,
    side: Side,
    name: &str,
) -> u8
    requires disk { IsJournalDisk (B.state journal.old) }
    ensures { Migrates (migrate_ask side name.now)
        (disk_change (B.state journal.old) (B.state journal.new)) (effects result
        (change (F.state shelf.old) (F.state shelf.new)) (change (O.state out.old) (O.state out.new))) }
{
    sound_is_migrated();
    match migrate_file(alloc, shelf, journal, side, name) {
        Ok(moved) => say_moved(alloc, out, moved),
        Err(stop) => say_stop(alloc, out, stop),
    }
}
