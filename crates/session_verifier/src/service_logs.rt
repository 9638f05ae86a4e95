// The logs of sessions that are kept.
ghost use Rattle.std.specs.Prelude.{◌≡◌, ◌<◌, ◌≤◌, ℕ, None, Some, IfOk, false, map, string_bytes};
ghost use Rattle.std.specs.Option.{option_map};
ghost use Rattle.zk_port.specs.Changes.{change};
ghost use Rattle.zk_port.specs.Shelves.{ShelfState};
ghost use Rattle.session_verifier.specs.ServiceLogs.{HaveApartNames, KeepsLogs, TriesLog, TriesLogs, log_bytes, log_name};

use crate::note::SessionNote;
use frame_link::Log;
use std::alloc::{AllocError, Global};
use zk_port::{LoadFault, PortFault, Shelf};

/// What became of the calls for logs: whether one failed, and whether memory was missing for one.
#[derive(Clone, Copy, Debug)]
pub struct LogFaults {
    pub failed: bool,
    pub lacked: bool,
}

impl LogFaults {
    /// Before any call.
    pub fn none() -> Self
        ensures failed { result.failed ≡ false }
        ensures lacked { result.lacked ≡ false }
    {
        LogFaults {
            failed: false,
            lacked: false,
        }
    }
}

/// The name of the log of a session that was granted units from this one on.
fn name_of(alloc: Global, prefix: &str, start: u64) -> Result<String, AllocError>
    ensures { IfOk result (λ name. string_bytes name ≡ log_name prefix.now start) }
{
    Ok(format!(in alloc; "{prefix}.{start}")?)
}

/// Stores these bytes under the name of a log.
fn store_bytes<F: Shelf>(
    alloc: Global,
    shelf: &mut F,
    name: &str,
    bytes: &[u8],
    faults: &mut LogFaults,
)
    ensures { TriesLog name.now bytes.now (change (F.state shelf.old) (F.state shelf.new))
        faults.old faults.new }
{
    match shelf.store(alloc, name, bytes) {
        Ok(()) => {}
        Err(PortFault::Failed) => faults.failed = true,
        Err(PortFault::NoMemory) => faults.lacked = true,
    }
}

/// Has these bytes stand under the name of a log: where others do, or none, they are stored.
fn settle_bytes<F: Shelf>(
    alloc: Global,
    shelf: &mut F,
    name: &str,
    bytes: &[u8],
    faults: &mut LogFaults,
)
    ensures { TriesLog name.now bytes.now (change (F.state shelf.old) (F.state shelf.new))
        faults.old faults.new }
{
    match shelf.load(alloc, name, bytes.len() as u64) {
        Ok(found) => {
            if found.as_slice() == bytes {
                return;
            }
        }
        Err(LoadFault::Failed) => faults.failed = true,
        Err(LoadFault::TooLong { .. } | LoadFault::NoMemory) => {}
    }
    store_bytes(alloc, shelf, name, bytes, faults);
}

/// Stores this log of a session that was granted units from this one on.
pub fn store_log<F: Shelf>(
    alloc: Global,
    shelf: &mut F,
    prefix: &str,
    start: u64,
    log: &Log,
    faults: &mut LogFaults,
)
    ensures { TriesLog (log_name prefix.now start) (log_bytes log.now)
        (change (F.state shelf.old) (F.state shelf.new)) faults.old faults.new }
{
    match name_of(alloc, prefix, start) {
        Ok(name) => store_bytes(alloc, shelf, &name, log.bytes(), faults),
        Err(AllocError) => faults.lacked = true,
    }
}

/// Has this log of a session that was granted units from this one on stand under its name.
fn settle_log<F: Shelf>(
    alloc: Global,
    shelf: &mut F,
    prefix: &str,
    start: u64,
    log: &Log,
    faults: &mut LogFaults,
)
    ensures { TriesLog (log_name prefix.now start) (log_bytes log.now)
        (change (F.state shelf.old) (F.state shelf.new)) faults.old faults.new }
{
    match name_of(alloc, prefix, start) {
        Ok(name) => settle_bytes(alloc, shelf, &name, log.bytes(), faults),
        Err(AllocError) => faults.lacked = true,
    }
}

/// Has the log of each session that was granted units stand under its name.
fn settle_each<F: Shelf, L>(
    alloc: Global,
    shelf: &mut F,
    prefix: &str,
    notes: &[SessionNote<L>],
    before: LogFaults,
) -> LogFaults
    requires apart { HaveApartNames (Some prefix.now) notes.now }
    ensures { (first : ShelfState)
        → TriesLogs (Some prefix.now) (change first (F.state shelf.old)) before.failed
        → KeepsLogs (Some prefix.now) notes.now (change first (F.state shelf.new)) result }
{
    let mut faults = before;
    for note in notes {
        if let Some(span) = note.granted {
            settle_log(alloc, shelf, prefix, span.start, &note.log, &mut faults);
        }
    }
    faults
}

/// Has the log of each session that was granted units stand under the prefix, a dot and its first unit, where there is a prefix. Each was
/// stored when its session ended, and is read now; where that failed, or other bytes stand there, it is stored again.
pub fn settle_logs<F: Shelf, L>(
    alloc: Global,
    shelf: &mut F,
    prefix: Option<&str>,
    notes: &[SessionNote<L>],
    before: LogFaults,
) -> LogFaults
    requires apart { HaveApartNames (option_map (λ p. p.now) prefix) notes.now }
    ensures { (first : ShelfState)
        → TriesLogs (option_map (λ p. p.now) prefix.entry) (change first (F.state shelf.old)) before.failed
        → KeepsLogs (option_map (λ p. p.now) prefix.entry) notes.now
        (change first (F.state shelf.new)) result }
{
    match prefix {
        Some(prefix) => settle_each(alloc, shelf, prefix, notes, before),
        None => before,
    }
}
