// Claims over disks in memory.
ghost use Rattle.std.specs.Prelude.{◌≡◌, ◌≤◌, ℕ, List, Some, None, IfOk};
ghost use Rattle.zk_model.specs.declared.JournalKind.TheVariants.{Claims};
ghost use Rattle.twin_journal.specs.Starts.{AreTidy};

use crate::tests::disks::{ID, failing, quiet_disk};
use crate::tests::twin_disks::{new_twin, sure_twin, telling_twin};
use claim_store::{ClaimFault, ClaimStore};
use memory_ports::{MemoryDisk, SureDisk};
use std::alloc::Global;
use std::test::Fail;
use zk_model::Span;
use zk_port::{Disk, Failed};

fn span(start: u64, end: u64) -> Span {
    Span { start, end }
}

#[test]
fn a_close_makes_no_call_of_the_disk(rt: HostRuntime) -> Result<(), Fail> {
    let alloc: Global = rt.alloc();
    // After the seven calls of the start and the four of the claim the next one fails.
    let disk = quiet_disk(alloc, new_twin(alloc, 10, 2)?, &[12])?;
    let Ok(mut store) = ClaimStore::start(alloc, disk, &ID, 10) else {
        return Err(Fail::new("a store does not start"));
    };
    assert!(rt; store.claim(alloc, 0, 4) == Ok(span(0, 4)));
    let mut disk = store.close();
    assert!(rt; disk.faults() == 0);
    assert!(rt; disk.sync() == Err(Failed));
    Ok(())
}

/// The disk after a store that starts on this one, has these claims and claims two units from `start` on; a store may
/// start on it again.
fn claimed_on<B: Disk + Drop>(
    alloc: Global,
    disk: B,
    wanted: &[Span],
    start: u64,
) -> Result<B, Fail>
    requires start { start ≤ 10 }
    requires room { (B.state disk).room ≡ None }
    requires tidy { (bytes : List ℕ) → (B.state disk).content ≡ Some bytes
        → AreTidy bytes }
    ensures room { IfOk result (λ new. (B.state new).room ≡ None) }
    ensures tidy { IfOk result (λ new. (first : List ℕ) → (B.state disk).content ≡ Some first
        → (bytes : List ℕ) → (B.state new).content ≡ Some bytes
        → AreTidy bytes) }
    ensures images { IfOk result (λ new. (first : List ℕ) → (B.state disk).content ≡ Some first
        → (bytes : List ℕ) → (B.state new).content ≡ Some bytes
        → (image : List ℕ) → (B.state new).images image → AreTidy image) }
{
    let Ok(mut store) = ClaimStore::start(alloc, disk, &ID, 10) else {
        return Err(Fail::new("a store does not start"));
    };
    if store.claims() != wanted {
        return Err(Fail::new("other claims than those before"));
    }
    let Ok(_span) = store.claim(alloc, start, 2) else {
        return Err(Fail::new("free units are not claimed"));
    };
    Ok(store.close())
}

#[test]
fn a_store_starts_where_the_last_one_closed(rt: HostRuntime) -> Result<(), Fail> {
    let alloc: Global = rt.alloc();
    let disk = telling_twin(alloc, 10, 2)?;
    let disk = claimed_on(alloc, disk, &[], 0)?;
    let disk = claimed_on(alloc, disk, &[span(0, 2)], 4)?;
    let disk = claimed_on(alloc, disk, &[span(0, 2), span(4, 6)], 2)?;
    assert!(rt; disk.pending() == 0);
    // After a crash the same as after a close.
    let image = disk.image(alloc, &[])?;
    let disk = MemoryDisk::new(alloc, image, 0, 60, failing(alloc, &[])?)?;
    let disk = claimed_on(alloc, disk, &[span(0, 6)], 8)?;
    assert!(rt; disk.pending() == 0);
    Ok(())
}

/// A store over a disk that never fails.
fn sure_store(alloc: Global) -> Result<ClaimStore<SureDisk>, Fail> {
    let disk = sure_twin(alloc, 10_000, 4096)?;
    match ClaimStore::start(alloc, disk, &ID, 10_000) {
        Ok(store) => Ok(store),
        Err(_) => Err(Fail::new("a store does not start")),
    }
}

#[test]
fn each_slot_has_its_range(rt: HostRuntime) -> Result<(), Fail> {
    let alloc: Global = rt.alloc();
    let mut store = sure_store(alloc)?;
    for turn in 0..4096 {
        assert!(rt; store.claim(alloc, 2 * turn, 1) == Ok(span(2 * turn, 2 * turn + 1)));
    }
    assert!(rt; store.claims().len() == 4096);
    assert!(rt; store.claim(alloc, 9_999, 1) == Err(ClaimFault::Full { slots: 4096 }));
    // A unit between two ranges makes room for one.
    assert!(rt; store.claim(alloc, 1, 1) == Ok(span(1, 2)));
    assert!(rt; store.claims().len() == 4095);
    assert!(rt; store.claim(alloc, 9_999, 1) == Ok(span(9_999, 10_000)));
    Ok(())
}
