// What stands there before a session: dealt files, and a new journal of theirs.
ghost use Rattle.std.specs.Prelude.{◌≡◌, ◌≤◌, IfOk};
ghost use Rattle.lease_journal.specs.Twins.{twin_begin, twin_slots_at};
ghost use Rattle.twin_journal.specs.Starts.{AreTidy};
ghost use Rattle.file_commands.specs.Journals.{IsJournalDisk};

use crate::vectors::FILE_ID;
use memory_ports::{MemoryDoor, MemoryShelf, MemorySink, NoFault, ScriptedLink, SureDisk};
use std::alloc::{AllocError, Global};
use std::collections::BTreeMap;
use std::sync::Wait;
use std::test::Fail;
use std::thread::Threads;
use twin_journal::{JournalKind, blank_twin, blank_twin_is_new, said_is_tidy, twin_ceiling_slots};
use zk_cli::run_zk;
use zk_port::Disk;

pub type Files = MemoryShelf<NoFault>;

/// One AND gate of two inputs of one bit.
pub const AND: &str = "1 3\n2 1 1\n1 1\n\n2 1 0 1 2 AND\n";

/// The seed of all runs.
pub const SEED: [u8; 32] = [7; 32];

/// These words.
pub fn words_of(alloc: Global, texts: &[&str]) -> Result<Vec<String>, AllocError> {
    let mut words = Vec::new(alloc);
    for text in texts {
        words.push(String::from_str(alloc, text)?)?;
    }
    Ok(words)
}

/// A new journal of dealt files of so many units, with areas of as many slots as the verifier's has.
fn new_bytes(alloc: Global, kind: JournalKind, total: u64) -> Result<Vec<u8>, AllocError>
    requires { 1 ≤ total }
    ensures tidy { IfOk result (λ bytes. AreTidy bytes.items) }
    ensures begins { IfOk result (λ bytes. (either : JournalKind) → twin_begin either bytes.items ≡ 0) }
    ensures says { IfOk result (λ bytes. twin_slots_at 0 bytes.items ≤ 4096) }
{
    blank_twin_is_new();
    said_is_tidy();
    let slots = twin_ceiling_slots(total);
    let bytes = blank_twin(alloc, kind, &FILE_ID, total, slots)?;
    Ok(bytes)
}

/// Room for a journal of one area of 4,096 slots, and for the one that it is migrated to.
const ROOM: usize = 96 + 32 * 4096 + 64 + 64 * 4097;

/// A disk that never fails, with a new journal of dealt files of so many units.
pub fn new_journal(alloc: Global, kind: JournalKind, total: u64) -> Result<SureDisk, AllocError>
    requires { 1 ≤ total }
    ensures { IfOk result (λ disk. IsJournalDisk (⟦<SureDisk as Disk>⟧.state disk)) }
{
    let bytes = new_bytes(alloc, kind, total)?;
    let disk = SureDisk::new(bytes, ROOM)?;
    Ok(disk)
}

/// The files that `deal x --units TOTAL` gives, and the gate's text under `c`.
pub fn dealt<R: Threads + Wait + Sync>(rt: &R, alloc: Global, total: u64) -> Result<Files, Fail>
    requires { 1 ≤ total }
{
    let units = format!(in alloc; "{total}")?;
    let words = words_of(alloc, &["deal", "x", "--units", &units])?;
    let mut files = BTreeMap::new(alloc);
    files.insert(String::from_str(alloc, "c")?, AND.as_bytes().to_vec(alloc)?)?;
    let mut shelf = MemoryShelf::new(files, NoFault);
    let mut out = MemorySink::new(alloc, NoFault);
    let mut notices = MemorySink::new(alloc, NoFault);
    let door: MemoryDoor<ScriptedLink<NoFault>, NoFault> = MemoryDoor::new(alloc, NoFault);
    let disk = new_journal(alloc, JournalKind::Claims, total)?;
    let finish = run_zk(
        rt,
        alloc,
        &words,
        &mut shelf,
        disk,
        door,
        &SEED,
        &mut out,
        &mut notices,
    );
    if finish.status != 0 {
        return Err(Fail::new("not dealt"));
    }
    Ok(shelf)
}
