// How a ceiling comes into the journal.
ghost use Rattle.std.specs.Prelude.{◌≡◌, ◌+◌, ◌*◌, ◌^◌, ◌<◌, ◌≤◌, ℕ, List, IfSome, IfErr, OnOk, OnErr};
ghost use Rattle.zk_port.specs.Disks.{LeavesOnly};
ghost use Rattle.zk_port.specs.Images.{Only};
ghost use Rattle.lease_journal.specs.Twins.{SaysOldOrNew};
ghost use Rattle.lease_journal.specs.Keeps.{ChangesAt};
ghost use Rattle.twin_journal.specs.States.{IsKept};
ghost use Rattle.lease_store.specs.Desks.{CoverCause};
ghost use Rattle.lease_store.specs.Raising.{after_ceiling, are_all_used, raised_bodies, raised_generation};

use twin_journal::{JournalFault, OneBody, Twin};
use zk_port::Disk;

/// Puts a ceiling into the journal, or compacts the journal to it where all slots of the active area are in use.
///
/// # Errors
///
/// `Device` where a call of the disk failed: a crash may then leave the journal with the ceiling or without. `Broken`
/// where one failed before, which changes nothing.
pub fn store_ceiling<B: Disk>(journal: &mut Twin<B>, ceiling: u64) -> Result<(), JournalFault>
    requires { 1 ≤ journal.old.slots }
    ensures any_moment { (bytes : List ℕ) (bodies : List (ℕ × ℕ)) → IsKept B.state journal.old bodies bytes
        → journal.old.generation + 1 < 2 ^ 64
        → LeavesOnly (B.state journal.old.disk) (B.state journal.new.disk)
        (SaysOldOrNew journal.old.begin journal.old.slots journal.old.generation bodies
        (raised_generation (are_all_used journal.old) journal.old.generation)
        (raised_bodies (are_all_used journal.old) bodies (ceiling, 0))) }
    ensures read { (bytes : List ℕ) (bodies : List (ℕ × ℕ)) → IsKept B.state journal.old bodies bytes
        → journal.old.generation + 1 < 2 ^ 64 → IfSome (B.state journal.new.disk).content
        (SaysOldOrNew journal.old.begin journal.old.slots journal.old.generation bodies
        (raised_generation (are_all_used journal.old) journal.old.generation)
        (raised_bodies (are_all_used journal.old) bodies (ceiling, 0))) }
    ensures recovered { OnOk result ((bytes : List ℕ) (bodies : List (ℕ × ℕ))
        → IsKept B.state journal.old bodies bytes → journal.old.generation + 1 < 2 ^ 64
        → IfSome (B.state journal.new.disk).content
        (IsKept B.state journal.new (raised_bodies (are_all_used journal.old) bodies (ceiling, 0)))) }
    ensures durable { OnOk result
        (Only (B.state journal.new.disk).content (B.state journal.new.disk).images) }
    ensures state { OnOk result (journal.new
        ≡ after_ceiling (are_all_used journal.old) journal.old journal.new.disk ceiling) }
    ensures state_kept { OnErr result
        (journal.new ≡ record journal.old { disk = journal.new.disk; fault = journal.new.fault }) }
    ensures changes { ChangesAt (journal.old.begin + 64) (64 * (journal.old.slots + 1))
        (B.state journal.old.disk) (B.state journal.new.disk) }
    ensures faults { OnOk result ((B.state journal.new.disk).faults ≡ (B.state journal.old.disk).faults) }
    ensures faults_grow { (B.state journal.old.disk).faults ≤ (B.state journal.new.disk).faults }
    ensures cause { IfErr result (CoverCause journal.old.fault journal.new.fault
        (B.state journal.old.disk).faults (B.state journal.new.disk).faults) }
    ensures unserved { OnErr result
        (journal.new.fault ≡ journal.old.fault → journal.new.disk ≡ journal.old.disk) }
    ensures served { OnOk result (journal.old.fault ≡ 0) }
{
    if journal.used() == journal.slots() {
        return journal.compact(&mut OneBody::new(Some((ceiling, 0))));
    }
    journal.put(ceiling, 0)
}
