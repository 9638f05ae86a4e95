// How each side's journal is migrated.
ghost use Rattle.std.specs.Prelude.{◌≡◌, ◌≤◌, ℕ, List, length, Some};
ghost use Rattle.lease_journal.specs.Journals.{AreSound, first_bodies};
ghost use Rattle.journal_migration.specs.Migrations.{SaysTheSame, moved_slots};
ghost use Rattle.zk_model.specs.declared.JournalKind.TheVariants as kind;
ghost use Rattle.journal_migration.specs.Migrating.{IsThere, MovesOver, next_ceiling};

use crate::moving::move_behind;
use crate::reading::read_claims;
use claim_store::StoreFault;
use claim_store::merged::Merged;
use std::alloc::Global;
use twin_journal::{Bodies, JournalName, NewTwin, OneBody, StartFault, twin_ceiling_slots};
use zk_model::JournalKind;
use zk_port::{Disk, Failed};

/// What was read of a journal of one area: how many slots it has and are in use, and the body in the last of these.
#[derive(Clone, Copy)]
pub struct Found {
    pub slots: u64,
    pub used: u64,
    pub last: (u64, u64),
}

/// How many slots an area of the new journal has.
fn moved_slots(name: JournalName, slots: u64) -> u64
    ensures { result ≡ moved_slots name.kind name.total slots }
{
    match name.kind {
        JournalKind::Claims => slots,
        JournalKind::Ceilings => twin_ceiling_slots(name.total),
    }
}

/// Moves a journal on to one with these bodies, which say the same.
fn move_bodies<B: Disk, F: Bodies>(
    disk: &mut B,
    name: JournalName,
    found: Found,
    next: &mut F,
) -> Result<u64, StoreFault>
    requires there { IsThere name.kind name.id name.total found.slots found.used found.last
        (B.state disk.old) }
    requires few { length (F.rest next.old) ≤ moved_slots name.kind name.total found.slots }
    requires sound { AreSound name.kind name.total (F.rest next.old) }
    requires same { (bytes : List ℕ) → (B.state disk.old).content ≡ Some bytes
        → SaysTheSame name.kind (first_bodies 64 found.used bytes) (F.rest next.old) }
    ensures { MovesOver name.kind name.id name.total (B.state disk.old) (B.state disk.new) result }
{
    let twin = NewTwin {
        name,
        begin: 64 + 32 * found.slots,
        slots: moved_slots(name, found.slots),
    };
    match move_behind(disk, twin, next) {
        Ok(count) => Ok(count),
        Err(Failed) => Err(StoreFault::Journal(StartFault::Device)),
    }
}

/// Moves a journal of claims on: the new one has the ranges of the claims.
fn move_claims<B: Disk>(
    alloc: Global,
    disk: &mut B,
    name: JournalName,
    found: Found,
) -> Result<u64, StoreFault>
    requires kind { name.kind ≡ kind.Claims }
    requires there { IsThere name.kind name.id name.total found.slots found.used found.last
        (B.state disk.old) }
    ensures { MovesOver name.kind name.id name.total (B.state disk.old) (B.state disk.new) result }
{
    let ranges = match read_claims(alloc, disk, found.used, name.total) {
        Ok(ranges) => ranges,
        Err(fault) => return Err(fault),
    };
    let mut next = Merged::new(&ranges);
    move_bodies(disk, name, found, &mut next)
}

/// The body of the last ceiling, where there is one.
fn next_ceiling(ceiling: u64) -> Option<(u64, u64)>
    ensures { result ≡ next_ceiling ceiling }
{
    if ceiling == 0 {
        return None;
    }
    Some((ceiling, 0))
}

/// Moves a journal on: one of claims to their ranges, one of ceilings to the last of them, if there is one. It says how
/// many bodies the new one has.
pub fn move_on<B: Disk>(
    alloc: Global,
    disk: &mut B,
    name: JournalName,
    found: Found,
) -> Result<u64, StoreFault>
    requires { IsThere name.kind name.id name.total found.slots found.used found.last (B.state disk.old) }
    ensures { MovesOver name.kind name.id name.total (B.state disk.old) (B.state disk.new) result }
{
    match name.kind {
        JournalKind::Claims => move_claims(alloc, disk, name, found),
        JournalKind::Ceilings => {
            let mut next = OneBody::new(next_ceiling(found.last.0));
            move_bodies(disk, name, found, &mut next)
        }
    }
}
