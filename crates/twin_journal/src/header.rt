// The header of a journal of two areas: its first 64 bytes.
ghost use Rattle.std.specs.Prelude.{◌≡◌, ◌≤◌, ◌^◌, ℕ, List, Some, true, IfOk, IfErr};
ghost use Rattle.zk_port.specs.Disks.{Stays};
ghost use Rattle.lease_journal.specs.Twins.{HasTwinHeader, IsFirstTwinWrong, are_twin_slots, twin_code, twin_header, twin_slots_at};
ghost use Rattle.lease_journal.specs.Causes.{HasStartCause};
ghost use Rattle.lease_journal.specs.Headers.{NoHeaderCause};
ghost use Rattle.lease_journal.specs.declared.fault.StartFault.TheVariants as start;
ghost use Rattle.zk_model.specs.declared.limits.TheConstants.{MAX_SLOTS};

use crate::twin_ceiling_slots;
use lease_journal::header::{first_wrong, header_with, may_be_slots, read_whole};
use lease_journal::storing::word_at;
use lease_journal::{JournalName, StartFault};
use zk_model::JournalKind;
use zk_port::Disk;

/// The byte of a kind.
fn twin_code(kind: JournalKind) -> u8
    ensures { result ≡ twin_code kind }
{
    match kind {
        JournalKind::Claims => 2,
        JournalKind::Ceilings => 3,
    }
}

/// The first 64 bytes of a journal.
pub fn header_of(name: JournalName, slots: u64) -> [u8; 64]
    ensures { result ≡ twin_header name.kind name.id name.total slots }
{
    header_with(twin_code(name.kind), name, slots)
}

/// Reads the header of the journal that begins at this place, and says how many slots an area has.
pub fn read_header<B: Disk>(disk: &mut B, begin: u64, name: JournalName) -> Result<u64, StartFault>
    requires { begin ≤ 2 ^ 36 }
    ensures header { IfOk result (λ slots. (bytes : List ℕ) → (B.state disk.old).content ≡ Some bytes
        → (slots ≡ twin_slots_at begin bytes) × HasTwinHeader name.kind name.id name.total begin bytes) }
    ensures bounded { IfOk result (λ slots. slots ≤ MAX_SLOTS) }
    ensures fits { IfOk result (λ slots. are_twin_slots name.kind name.total slots ≡ true) }
    ensures cause { IfErr result (λ e. (bytes : List ℕ) → (B.state disk.old).content ≡ Some bytes
        → NoHeaderCause (IsFirstTwinWrong name.kind name.id name.total begin bytes) begin bytes e) }
    ensures unread { IfErr result (λ e. (bad : ℕ) → e ≡ start.BadBody bad → ⊥) }
    ensures stays { Stays (B.state disk.old) (B.state disk.new) }
    ensures count { HasStartCause (B.state disk.old).faults (B.state disk.new).faults result }
{
    let header = match read_whole(disk, begin) {
        Ok(header) => header,
        Err(fault) => return Err(fault),
    };
    let slots = word_at(&header, 24);
    let fits = may_be_slots(name.kind, twin_ceiling_slots(name.total), slots);
    if let Some(place) = first_wrong(&header, &header_of(name, 0), fits) {
        return Err(StartFault::BadHeader { place });
    }
    Ok(slots)
}
