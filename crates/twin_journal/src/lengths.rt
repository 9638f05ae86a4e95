// How long a file is.
ghost use Rattle.std.specs.Prelude.{◌≡◌, ◌<◌, ◌≤◌, ◌+◌, ◌*◌, ◌^◌, ℕ, List, length, nat_lt, Some, IfOk, IfErr, OnOk};
ghost use Rattle.zk_port.specs.Disks.{Stays};
ghost use Rattle.lease_journal.specs.Twins.{twin_length};
ghost use Rattle.zk_model.specs.declared.limits.TheConstants.{MAX_SLOTS};
ghost use Rattle.lease_journal.specs.Causes.{HasStartCause};
ghost use Rattle.twin_journal.specs.Starts.{LengthCause};

use lease_journal::StartFault;
use zk_port::Disk;

/// Whether the file has a byte at this place.
fn has_byte<B: Disk>(disk: &mut B, place: u64) -> Result<bool, StartFault>
    requires { place ≤ 2 ^ 37 }
    ensures has { IfOk result (λ has. (bytes : List ℕ) → (B.state disk.old).content ≡ Some bytes
        → has ≡ nat_lt place (length bytes)) }
    ensures device { IfErr result (λ e. e ≡ StartFault.Device) }
    ensures stays { Stays (B.state disk.old) (B.state disk.new) }
    ensures count { HasStartCause (B.state disk.old).faults (B.state disk.new).faults result }
{
    let mut byte = [0; 1];
    let count = disk.read(place, &mut byte)?;
    Ok(count == 1)
}

/// Where a file ends, which is at one of the places from `least` to `most`.
fn end_between<B: Disk>(disk: &mut B, least: u64, most: u64) -> Result<u64, StartFault>
    requires order { least ≤ most }
    requires place { most ≤ 2 ^ 37 }
    ensures end { IfOk result (λ end. (bytes : List ℕ) → (B.state disk.old).content ≡ Some bytes
        → least ≤ length bytes → length bytes ≤ most → end ≡ length bytes) }
    ensures within { IfOk result (λ end. least ≤ end) }
    ensures device { IfErr result (λ e. e ≡ StartFault.Device) }
    ensures stays { Stays (B.state disk.old) (B.state disk.new) }
    ensures count { HasStartCause (B.state disk.old).faults (B.state disk.new).faults result }
{
    let mut low = least;
    let mut high = most;
    while low < high {
        let middle = low + (high - low) / 2;
        let has = match has_byte(disk, middle) {
            Ok(has) => has,
            Err(fault) => return Err(fault),
        };
        if has {
            low = middle + 1;
        } else {
            high = middle;
        }
    }
    Ok(low)
}

/// Tests that a journal with areas of so many slots, whose header is whole, has its full length.
pub fn check_length<B: Disk>(disk: &mut B, begin: u64, slots: u64) -> Result<(), StartFault>
    requires low { begin ≤ 2 ^ 36 }
    requires bounded { slots ≤ MAX_SLOTS }
    ensures full { OnOk result ((bytes : List ℕ) → (B.state disk.old).content ≡ Some bytes
        → begin + twin_length slots ≤ length bytes) }
    ensures cause { IfErr result (λ e. (bytes : List ℕ) → (B.state disk.old).content ≡ Some bytes
        → begin + 64 ≤ length bytes → LengthCause begin slots bytes e) }
    ensures unread { IfErr result (λ e. (bad : ℕ) → e ≡ StartFault.BadBody bad → ⊥) }
    ensures stays { Stays (B.state disk.old) (B.state disk.new) }
    ensures count { HasStartCause (B.state disk.old).faults (B.state disk.new).faults result }
{
    let need = 64 + 64 * (slots + 1);
    let last = begin + need - 1;
    let is_full = match has_byte(disk, last) {
        Ok(has) => has,
        Err(fault) => return Err(fault),
    };
    if is_full {
        return Ok(());
    }
    match end_between(disk, begin + 64, last) {
        Ok(end) => {
            let got = end - begin;
            Err(StartFault::Short { need, got })
        }
        Err(fault) => Err(fault),
    }
}
