// New journals of ceilings, the disks in memory that they stand on, and stores that start there.
ghost use Rattle.std.specs.Prelude.{◌≡◌, ◌≤◌, ◌<◌, ◌^◌, ℕ, List, Some, None, length, All, IfOk};
ghost use Rattle.zk_port.specs.Disks.{Stays};
ghost use Rattle.lease_journal.specs.Twins.{twin_begin, twin_ceiling_slots, twin_slots_at};
ghost use Rattle.zk_model.specs.declared.JournalKind.TheVariants.{Ceilings};
ghost use Rattle.lease_store.specs.Ceilings.{HasCeilingHeader, HasCeilingRoom};
ghost use Rattle.twin_journal.specs.Starts.{AreTidy};
ghost use Rattle.lease_store.specs.Desks.{Begins};
ghost use Rattle.lease_store.specs.Leases.{IsPassAt};

use crate::tests::disks::ID;
use lease_store::{LeaseParts, blank_says_zero, ceilings_start_again};
use lease_words::Pass;
use memory_ports::SureDisk;
use std::alloc::Global;
use std::test::Fail;
use twin_journal::{JournalKind, blank_twin, blank_twin_is_new, twin_ceiling_slots};
use zk_port::Disk;

/// A new journal of ceilings for so many units.
pub fn new_ceilings(alloc: Global, total: u64) -> Result<Vec<u8>, Fail>
    requires { 1 ≤ total }
    ensures tidy { IfOk result (λ bytes. AreTidy bytes.items) }
    ensures begins { IfOk result (λ bytes. twin_begin Ceilings bytes.items ≡ 0) }
    ensures says { IfOk result (λ bytes. twin_slots_at 0 bytes.items ≡ twin_ceiling_slots total) }
{
    blank_twin_is_new();
    blank_says_zero();
    ceilings_start_again();
    let slots = twin_ceiling_slots(total);
    let bytes = blank_twin(alloc, JournalKind::Ceilings, &ID, total, slots)?;
    Ok(bytes)
}

/// A disk that never fails, with a new journal of ceilings for so many units.
pub fn sure_ceilings(alloc: Global, total: u64) -> Result<SureDisk, Fail>
    requires { 1 ≤ total }
    ensures room { IfOk result (λ disk. (size : ℕ) → (⟦<SureDisk as Disk>⟧.state disk).room ≡ Some size
        → HasCeilingRoom (⟦<SureDisk as Disk>⟧.state disk).content size) }
    ensures tidy { IfOk result (λ disk. (bytes : List ℕ)
        → (⟦<SureDisk as Disk>⟧.state disk).content ≡ Some bytes → AreTidy bytes) }
{
    let bytes = new_ceilings(alloc, total)?;
    Ok(SureDisk::new(bytes, 128 + 64 * twin_ceiling_slots(total) as usize)?)
}

/// A store of so many units with so many passes that starts on this disk.
pub fn started<B: Disk + Drop>(
    alloc: Global,
    disk: B,
    total: u64,
    passes: u32,
) -> Result<(LeaseParts<B>, Vec<Pass>), Fail>
    requires total { total ≤ 2 ^ 40 }
    requires passes { (1 ≤ passes) × (passes ≤ 1024) }
    requires room { (size : ℕ) → (B.state disk).room ≡ Some size
        → HasCeilingRoom (B.state disk).content size }
    requires tidy { (bytes : List ℕ) → (B.state disk).content ≡ Some bytes → AreTidy bytes }
    ensures own { IfOk result (λ r. All (IsPassAt r.0.table r.0.total) r.1.items) }
    ensures passes { IfOk result (λ r. r.0.passes ≡ passes) }
    ensures made { IfOk result (λ r. length r.1.items ≡ r.0.passes) }
    ensures some { IfOk result (λ r. 0 < length r.1.items) }
    ensures total { IfOk result (λ r. r.0.total ≡ total) }
    ensures header { IfOk result (λ r. (bytes : List ℕ) → (B.state r.0.disk).content ≡ Some bytes
        → HasCeilingHeader ID r.0.total bytes) }
    ensures begins { IfOk result (λ r. Begins (B.state r.0.disk) (B.state r.0.disk)) }
    ensures stays { IfOk result (λ r. Stays (B.state disk) (B.state r.0.disk)) }
{
    match LeaseParts::start(alloc, disk, &ID, total, passes) {
        Ok(started) => Ok(started),
        Err(_) => Err(Fail::new("a store does not start")),
    }
}
