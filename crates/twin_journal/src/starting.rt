// How a journal of two areas is opened.
ghost use Rattle.std.specs.Prelude.{◌≡◌, ◌<◌, ◌≤◌, ◌+◌, ◌-◌, ◌*◌, ◌^◌, ℕ, List, length, min, sum_by, Some, true, false, IfOk, IfErr, OnOk};
ghost use Rattle.zk_port.specs.Disks.{Stays};
ghost use Rattle.zk_port.specs.Images.{Only};
ghost use Rattle.lease_journal.specs.Journals.{first_bodies, last_body};
ghost use Rattle.lease_journal.specs.Twins.{HoldsTwin, TwinStands, are_twin_slots, claimed_units};
ghost use Rattle.zk_model.specs.declared.limits.TheConstants.{MAX_SLOTS};
ghost use Rattle.lease_journal.specs.Causes.{HasStartCause};
ghost use Rattle.lease_journal.specs.Scans.{HasRead};
ghost use Rattle.lease_journal.specs.declared.fault.StartFault.TheVariants as start;
ghost use Rattle.twin_journal.specs.Starts.{FileCause, IsActiveFound, IsTwinOpened, LocateCause, TwinStartCause};

use crate::beginning::find_begin;
use crate::header::read_header;
use crate::heads::{Active, read_active};
use crate::lengths::check_length;
use crate::places::head_at;
use lease_journal::area::{Scan, read_body, read_slots};
use lease_journal::{JournalName, StartFault};
use zk_model::JournalKind;
use zk_port::{Disk, Failed};

/// What stands on the disk before slots are read: how many of them an area has, and the active area.
#[derive(Clone, Copy)]
pub struct Located {
    pub slots: u64,
    pub active: Active,
}

/// What a journal says at its start.
#[derive(Clone, Copy)]
pub struct Opened {
    pub begin: u64,
    pub slots: u64,
    pub used: u64,
    pub last: (u64, u64),
    pub active: Active,
}

/// Reads the header, whether the file has its full length, and the heads.
fn locate<B: Disk>(disk: &mut B, begin: u64, name: JournalName) -> Result<Located, StartFault>
    requires { begin ≤ 2 ^ 36 }
    ensures stands { IfOk result (λ found. (bytes : List ℕ) → (B.state disk.old).content ≡ Some bytes
        → TwinStands name.kind name.id name.total begin found.slots bytes) }
    ensures found { IfOk result (λ found. (bytes : List ℕ) → (B.state disk.old).content ≡ Some bytes
        → IsActiveFound begin found.slots bytes found.active.second found.active.generation
        found.active.other_open) }
    ensures bounded { IfOk result (λ found. found.slots ≤ MAX_SLOTS) }
    ensures fits { IfOk result (λ found. are_twin_slots name.kind name.total found.slots ≡ true) }
    ensures cause { IfErr result (λ e. (bytes : List ℕ) → (B.state disk.old).content ≡ Some bytes
        → LocateCause name.kind name.id name.total begin bytes e) }
    ensures unread { IfErr result (λ e. (bad : ℕ) → e ≡ start.BadBody bad → ⊥) }
    ensures stays { Stays (B.state disk.old) (B.state disk.new) }
    ensures count { HasStartCause (B.state disk.old).faults (B.state disk.new).faults result }
{
    let slots = match read_header(disk, begin, name) {
        Ok(slots) => slots,
        Err(fault) => return Err(fault),
    };
    if let Err(fault) = check_length(disk, begin, slots) {
        return Err(fault);
    }
    match read_active(disk, begin, slots) {
        Ok(active) => Ok(Located { slots, active }),
        Err(fault) => Err(fault),
    }
}

/// How many units the claims in the first slots of an area have, each counted by itself, up to the end of the type.
fn claimed_in<B: Disk>(disk: &mut B, at: u64, used: u64) -> Result<u64, StartFault>
    requires place { at ≤ 2 ^ 40 }
    requires bounded { used ≤ MAX_SLOTS }
    ensures units { IfOk result (λ units. (bytes : List ℕ) → (B.state disk.old).content ≡ Some bytes
        → at + 32 * used ≤ length bytes
        → units ≡ min (2 ^ 64 - 1)
        (sum_by (λ (body : ℕ × ℕ). body.1 - body.0) (first_bodies at used bytes))) }
    ensures device { IfErr result (λ e. e ≡ start.Device) }
    ensures stays { Stays (B.state disk.old) (B.state disk.new) }
    ensures count { HasStartCause (B.state disk.old).faults (B.state disk.new).faults result }
{
    let mut units: u64 = 0;
    for slot in 0..used {
        let body = match read_body(disk, at, slot) {
            Ok(body) => body,
            Err(Failed) => return Err(StartFault::Device),
        };
        units = units.saturating_add(body.1.saturating_sub(body.0));
    }
    Ok(units)
}

/// How many units the bodies say that were gone through in an area, up to the end of the type.
fn units_in<B: Disk>(
    disk: &mut B,
    kind: JournalKind,
    at: u64,
    scan: Scan,
) -> Result<u64, StartFault>
    requires place { at ≤ 2 ^ 40 }
    requires bounded { scan.used ≤ MAX_SLOTS }
    ensures units { IfOk result (λ units. (bytes : List ℕ) → (B.state disk.old).content ≡ Some bytes
        → at + 32 * scan.used ≤ length bytes → scan.last ≡ last_body at bytes scan.used
        → units ≡ min (2 ^ 64 - 1) (claimed_units kind (first_bodies at scan.used bytes))) }
    ensures device { IfErr result (λ e. e ≡ start.Device) }
    ensures stays { Stays (B.state disk.old) (B.state disk.new) }
    ensures count { HasStartCause (B.state disk.old).faults (B.state disk.new).faults result }
{
    match kind {
        JournalKind::Claims => claimed_in(disk, at, scan.used),
        JournalKind::Ceilings => Ok(scan.last.0),
    }
}

/// Whether a generation is one that there may be for so many units, up to the end of the type.
fn may_have(generation: u64, units: u64) -> bool
    ensures right { (all : ℕ) → units ≡ min (2 ^ 64 - 1) all → result ≡ true
        → (1 ≤ generation) × (generation ≤ all + 1) }
    ensures wrong { (all : ℕ) → units ≡ min (2 ^ 64 - 1) all → result ≡ false
        → 1 ≤ generation → generation ≤ all + 1 → ⊥ }
{
    generation != 0 && generation - 1 <= units
}

/// Opens the journal that begins at this place: reads the header, the length, the heads, the slots of the active area up
/// to the first that is not open, and whether its generation is one that there may be.
fn open_at<B: Disk>(disk: &mut B, begin: u64, name: JournalName) -> Result<Opened, StartFault>
    requires { begin ≤ 2 ^ 36 }
    ensures opened { IfOk result (λ o. (bytes : List ℕ) → (B.state disk.old).content ≡ Some bytes
        → IsTwinOpened name.kind name.id name.total o.begin o.slots o.used o.last
        o.active.second o.active.generation o.active.other_open bytes) }
    ensures begin { IfOk result (λ o. o.begin ≡ begin) }
    ensures bounded { IfOk result (λ o. o.slots ≤ MAX_SLOTS) }
    ensures within { IfOk result (λ o. o.used ≤ o.slots) }
    ensures fits { IfOk result (λ o. are_twin_slots name.kind name.total o.slots ≡ true) }
    ensures read { IfOk result (λ o. HasRead name.kind name.total o.used o.last) }
    ensures cause { IfErr result (λ e. (bytes : List ℕ) → (B.state disk.old).content ≡ Some bytes
        → TwinStartCause name.kind name.id name.total begin bytes e) }
    ensures bad { IfErr result (λ e. (slot : ℕ) → e ≡ start.BadBody slot → slot < MAX_SLOTS) }
    ensures stays { Stays (B.state disk.old) (B.state disk.new) }
    ensures count { HasStartCause (B.state disk.old).faults (B.state disk.new).faults result }
{
    let Located { slots, active } = match locate(disk, begin, name) {
        Ok(located) => located,
        Err(fault) => return Err(fault),
    };
    let at = head_at(begin, slots, active.second) + 32;
    let scan = match read_slots(disk, at, name.kind, name.total, slots) {
        Ok(scan) => scan,
        Err(fault) => return Err(fault),
    };
    if let Some(slot) = scan.bad {
        return Err(StartFault::BadBody { slot });
    }
    let units = match units_in(disk, name.kind, at, scan) {
        Ok(units) => units,
        Err(fault) => return Err(fault),
    };
    if !may_have(active.generation, units) {
        let place = head_at(0, slots, active.second);
        return Err(StartFault::BadHeader { place });
    }
    Ok(Opened {
        begin,
        slots,
        used: scan.used,
        last: scan.last,
        active,
    })
}

/// Opens the journal of a file: syncs, finds where the journal begins, and opens it there.
pub fn open<B: Disk>(disk: &mut B, name: JournalName) -> Result<Opened, StartFault>
    ensures holds { IfOk result (λ o. (bytes : List ℕ) → (B.state disk.old).content ≡ Some bytes
        → HoldsTwin name.kind name.id name.total o.begin o.slots bytes) }
    ensures opened { IfOk result (λ o. (bytes : List ℕ) → (B.state disk.old).content ≡ Some bytes
        → IsTwinOpened name.kind name.id name.total o.begin o.slots o.used o.last
        o.active.second o.active.generation o.active.other_open bytes) }
    ensures low { IfOk result (λ o. o.begin ≤ 2 ^ 36) }
    ensures bounded { IfOk result (λ o. o.slots ≤ MAX_SLOTS) }
    ensures within { IfOk result (λ o. o.used ≤ o.slots) }
    ensures fits { IfOk result (λ o. are_twin_slots name.kind name.total o.slots ≡ true) }
    ensures read { IfOk result (λ o. HasRead name.kind name.total o.used o.last) }
    ensures durable { OnOk result (Only (B.state disk.new).content (B.state disk.new).images) }
    ensures cause { IfErr result (λ e. (bytes : List ℕ) → (B.state disk.old).content ≡ Some bytes
        → FileCause name.kind name.id name.total bytes e) }
    ensures bad { IfErr result (λ e. (slot : ℕ) → e ≡ start.BadBody slot → slot < MAX_SLOTS) }
    ensures stays { Stays (B.state disk.old) (B.state disk.new) }
    ensures count { HasStartCause (B.state disk.old).faults (B.state disk.new).faults result }
{
    if let Err(Failed) = disk.sync() {
        return Err(StartFault::Device);
    }
    match find_begin(disk, name) {
        Ok(begin) => open_at(disk, begin, name),
        Err(fault) => Err(fault),
    }
}
