// How a claim is written into a journal.
ghost use Rattle.std.specs.Prelude.{◌≡◌, ◌<◌, ◌≤◌, ◌+◌, ◌*◌, ◌^◌, ℕ, List, length, IfSome, OnOk, OnErr};
ghost use Rattle.zk_port.specs.Counts.{Rose};
ghost use Rattle.zk_port.specs.Disks.{LeavesOnly};
ghost use Rattle.zk_port.specs.Images.{Only};
ghost use Rattle.lease_journal.specs.Twins.{HoldsTwin, SaysOldOrNew};
ghost use Rattle.zk_model.specs.declared.JournalKind.{JournalKind};
ghost use Rattle.lease_journal.specs.Keeps.{ChangesAt, Keeps};
ghost use Rattle.twin_journal.specs.States.{IsKept};
ghost use Rattle.claim_store.specs.Writes.{next_bodies, next_generation, next_used};

use crate::merged::Merged;
use twin_journal::{JournalFault, Twin};
use zk_model::Span;
use zk_port::Disk;

/// Writes a span into the journal: puts it where a slot is free, and else puts these ranges in place of all bodies.
pub fn write_span<B: Disk>(
    journal: &mut Twin<B>,
    ranges: &[Span],
    span: Span,
) -> Result<(), JournalFault>
    requires whole { journal.old.fault ≡ 0 }
    requires fits { journal.old.slots ≤ journal.old.used → length ranges.now ≤ journal.old.slots }
    ensures any_moment { (bytes : List ℕ) (bodies : List (ℕ × ℕ)) → IsKept B.state journal.old bodies bytes
        → journal.old.generation + 1 < 2 ^ 64
        → LeavesOnly (B.state journal.old.disk) (B.state journal.new.disk)
        (SaysOldOrNew journal.old.begin journal.old.slots journal.old.generation bodies
        (next_generation journal.old.used journal.old.slots journal.old.generation)
        (next_bodies journal.old.used journal.old.slots bodies span ranges.now)) }
    ensures read { (bytes : List ℕ) (bodies : List (ℕ × ℕ)) → IsKept B.state journal.old bodies bytes
        → journal.old.generation + 1 < 2 ^ 64 → IfSome (B.state journal.new.disk).content
        (SaysOldOrNew journal.old.begin journal.old.slots journal.old.generation bodies
        (next_generation journal.old.used journal.old.slots journal.old.generation)
        (next_bodies journal.old.used journal.old.slots bodies span ranges.now)) }
    ensures recovered { OnOk result ((bytes : List ℕ) (bodies : List (ℕ × ℕ))
        → IsKept B.state journal.old bodies bytes → journal.old.generation + 1 < 2 ^ 64
        → IfSome (B.state journal.new.disk).content (IsKept B.state journal.new
        (next_bodies journal.old.used journal.old.slots bodies span ranges.now))) }
    ensures durable { OnOk result
        (Only (B.state journal.new.disk).content (B.state journal.new.disk).images) }
    ensures generation { OnOk result (journal.old.generation + 1 < 2 ^ 64 → journal.new.generation
        ≡ next_generation journal.old.used journal.old.slots journal.old.generation) }
    ensures used { OnOk result (journal.new.used ≡ next_used journal.old.used journal.old.slots ranges.now) }
    ensures begin { journal.new.begin ≡ journal.old.begin }
    ensures slots { journal.new.slots ≡ journal.old.slots }
    ensures fault { OnOk result (journal.new.fault ≡ 0) }
    ensures used_kept { OnErr result (journal.new.used ≡ journal.old.used) }
    ensures cause { OnErr result (Rose (B.state journal.old.disk).faults (B.state journal.new.disk).faults
        × (journal.new.fault ≡ (B.state journal.new.disk).faults) × (0 < journal.new.fault)) }
    ensures changes { ChangesAt (journal.old.begin + 64) (64 * (journal.old.slots + 1))
        (B.state journal.old.disk) (B.state journal.new.disk) }
    ensures holds { (kind : JournalKind) (id : List ℕ) (total : ℕ)
        → Keeps (HoldsTwin kind id total journal.old.begin journal.old.slots)
        (B.state journal.old.disk) (B.state journal.new.disk) }
    ensures faults { OnOk result
        ((B.state journal.new.disk).faults ≡ (B.state journal.old.disk).faults) }
    ensures faults_grow { (B.state journal.old.disk).faults ≤ (B.state journal.new.disk).faults }
{
    if journal.used() < journal.slots() {
        return journal.put(span.start, span.end);
    }
    journal.compact(&mut Merged::new(ranges))
}
