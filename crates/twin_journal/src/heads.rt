// The heads of the areas, and which area is the active one.
ghost use Rattle.std.specs.Prelude.{◌≡◌, ◌≤◌, ◌+◌, ◌^◌, ℕ, List, length, Some, IfOk, IfErr};
ghost use Rattle.zk_port.specs.Disks.{Stays};
ghost use Rattle.lease_journal.specs.Twins.{twin_length};
ghost use Rattle.zk_model.specs.declared.limits.TheConstants.{MAX_SLOTS};
ghost use Rattle.lease_journal.specs.Causes.{HasStartCause};
ghost use Rattle.twin_journal.specs.Starts.{AreaCause, HeadSays, IsActiveFound, active_of};

use crate::OPEN;
use crate::places::head_at;
use lease_journal::StartFault;
use lease_journal::storing::word_at;
use zk_port::Disk;

/// What a head says: whether it is open, and its generation.
#[derive(Clone, Copy)]
struct Head {
    is_open: bool,
    generation: u64,
}

/// The active area: whether it is the second, its generation, and whether the other head is open.
#[derive(Clone, Copy)]
pub struct Active {
    pub second: bool,
    pub generation: u64,
    pub other_open: bool,
}

/// Reads the head at this place.
fn read_head<B: Disk>(disk: &mut B, at: u64) -> Result<Head, StartFault>
    requires { at ≤ 2 ^ 37 }
    ensures says { IfOk result (λ head. (bytes : List ℕ) → (B.state disk.old).content ≡ Some bytes
        → at + 32 ≤ length bytes → HeadSays at bytes head.is_open head.generation) }
    ensures device { IfErr result (λ e. e ≡ StartFault.Device) }
    ensures stays { Stays (B.state disk.old) (B.state disk.new) }
    ensures count { HasStartCause (B.state disk.old).faults (B.state disk.new).faults result }
{
    let mut head = [0; 32];
    disk.read(at, &mut head)?;
    Ok(Head {
        is_open: head[31] == OPEN,
        generation: word_at(&head, 0),
    })
}

/// Which of two areas is the active one: whether it is the second, or none.
fn active_of(first: Head, second: Head) -> Option<bool>
    ensures { result ≡ active_of first.is_open first.generation second.is_open second.generation }
{
    match (first.is_open, second.is_open) {
        (false, false) => None,
        (false, true) => Some(true),
        (true, false) => Some(false),
        (true, true) => Some(first.generation < second.generation),
    }
}

/// Reads both heads, and says which area is the active one.
pub fn read_active<B: Disk>(disk: &mut B, begin: u64, slots: u64) -> Result<Active, StartFault>
    requires low { begin ≤ 2 ^ 36 }
    requires bounded { slots ≤ MAX_SLOTS }
    ensures found { IfOk result (λ active. (bytes : List ℕ) → (B.state disk.old).content ≡ Some bytes
        → begin + twin_length slots ≤ length bytes
        → IsActiveFound begin slots bytes active.second active.generation active.other_open) }
    ensures cause { IfErr result (λ e. (bytes : List ℕ) → (B.state disk.old).content ≡ Some bytes
        → begin + twin_length slots ≤ length bytes → AreaCause begin slots bytes e) }
    ensures unread { IfErr result (λ e. (bad : ℕ) → e ≡ StartFault.BadBody bad → ⊥) }
    ensures stays { Stays (B.state disk.old) (B.state disk.new) }
    ensures count { HasStartCause (B.state disk.old).faults (B.state disk.new).faults result }
{
    let first = match read_head(disk, head_at(begin, slots, false)) {
        Ok(head) => head,
        Err(fault) => return Err(fault),
    };
    let second = match read_head(disk, head_at(begin, slots, true)) {
        Ok(head) => head,
        Err(fault) => return Err(fault),
    };
    let Some(is_second) = active_of(first, second) else {
        return Err(StartFault::BadHeader { place: 95 });
    };
    let (own, other) = if is_second {
        (second, first)
    } else {
        (first, second)
    };
    Ok(Active {
        second: is_second,
        generation: own.generation,
        other_open: other.is_open,
    })
}
