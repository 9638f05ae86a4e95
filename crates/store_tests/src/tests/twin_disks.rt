// New journals of two areas, and the disks in memory that they stand on.
ghost use Rattle.std.specs.Prelude.{◌≡◌, ◌≤◌, ◌+◌, ◌*◌, ℕ, List, Some, None, IfOk};
ghost use Rattle.lease_journal.specs.Twins.{twin_begin, twin_length, twin_slots_at};
ghost use Rattle.zk_model.specs.declared.JournalKind.TheVariants.{Claims};
ghost use Rattle.twin_journal.specs.Starts.{AreTidy, SaysTwinSlots};

use crate::tests::disks::{ID, failing};
use memory_ports::{FailAt, MemoryDisk, SureDisk};
use std::alloc::Global;
use std::test::Fail;
use twin_journal::{JournalKind, blank_twin, blank_twin_is_new, said_is_tidy};
use zk_port::Disk;

/// A new journal of claims.
pub fn new_twin(alloc: Global, total: u64, slots: u64) -> Result<Vec<u8>, Fail>
    requires { (1 ≤ slots) × (slots ≤ 4096) }
    ensures tidy { IfOk result (λ bytes. AreTidy bytes.items) }
    ensures begins { IfOk result (λ bytes. twin_begin Claims bytes.items ≡ 0) }
    ensures says { IfOk result (λ bytes. twin_slots_at 0 bytes.items ≡ slots) }
{
    blank_twin_is_new();
    said_is_tidy();
    let bytes = blank_twin(alloc, JournalKind::Claims, &ID, total, slots)?;
    Ok(bytes)
}

/// A disk that tells, with a new journal of claims.
pub fn telling_twin(alloc: Global, total: u64, slots: u64) -> Result<MemoryDisk<FailAt>, Fail>
    requires { (1 ≤ slots) × (slots ≤ 4096) }
    ensures room { IfOk result (λ disk. (⟦<MemoryDisk<FailAt> as Disk>⟧.state disk).room ≡ None) }
    ensures tidy { IfOk result (λ disk. (bytes : List ℕ)
        → (⟦<MemoryDisk<FailAt> as Disk>⟧.state disk).content ≡ Some bytes
        → AreTidy bytes) }
{
    let bytes = new_twin(alloc, total, slots)?;
    Ok(MemoryDisk::new(alloc, bytes, 0, 60, failing(alloc, &[])?)?)
}

/// A disk that never fails, with a new journal of claims.
pub fn sure_twin(alloc: Global, total: u64, slots: u64) -> Result<SureDisk, Fail>
    requires { (1 ≤ slots) × (slots ≤ 4096) }
    ensures room { IfOk result (λ disk. (size : ℕ) → (⟦<SureDisk as Disk>⟧.state disk).room ≡ Some size
        → (begin said : ℕ) → SaysTwinSlots Claims (⟦<SureDisk as Disk>⟧.state disk).content begin said
        → begin + twin_length said ≤ size) }
    ensures tidy { IfOk result (λ disk. (bytes : List ℕ)
        → (⟦<SureDisk as Disk>⟧.state disk).content ≡ Some bytes
        → AreTidy bytes) }
{
    let bytes = new_twin(alloc, total, slots)?;
    Ok(SureDisk::new(bytes, 128 + 64 * slots as usize)?)
}
