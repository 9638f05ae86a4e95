// Journals in memory, as the words of a scenario ask for them.
ghost use Rattle.std.specs.Prelude.{◌≤◌};
ghost use Rattle.zk_model.specs.declared.limits.TheConstants.{MAX_SLOTS};

use crate::cases::set_byte;
use crate::scenario::{Areas, Journaled, read_pair};
use anyhow::{Error, Result};
use dealer_files::VerifierFile;
use lease_journal::header::journal_code;
use lease_journal::{ceiling_slots, claim_slots};
use std::alloc::Global;
use twin_journal::{JournalKind, blank_twin, twin_ceiling_slots};
use zk_model::MAX_SLOTS;

/// The byte of a head, of a slot or of a migration that counts.
const OPEN: u8 = 0x5A;

/// Which journal: its kind, the id of the dealt files, and their total of units.
#[derive(Clone, Copy)]
struct Subject {
    kind: JournalKind,
    id: [u8; 32],
    total: u64,
}

/// The bodies of the slots in which ceilings of so many units stand, up to this one.
fn ceiling_bodies(alloc: Global, total: u64, ceilings: u64) -> Result<Vec<(u64, u64)>> {
    let mut bodies = Vec::new(alloc);
    for slot in 0..ceilings.div_ceil(16) {
        let ceiling = total.min(slot.saturating_mul(16).saturating_add(16));
        bodies.push((ceiling, 0))?;
    }
    Ok(bodies)
}

/// The bodies of the slots in which these claims stand, as `0..4+5..6`.
fn claim_bodies(alloc: Global, claims: &str) -> Result<Vec<(u64, u64)>> {
    let mut bodies = Vec::new(alloc);
    for claim in claims.split('+').filter(|claim| !claim.is_empty()) {
        bodies.push(read_pair(claim, "..")?)?;
    }
    Ok(bodies)
}

/// The bodies that a journal says.
fn bodies_of(alloc: Global, subject: &Subject, journal: &Journaled<'_>) -> Result<Vec<(u64, u64)>> {
    match subject.kind {
        JournalKind::Claims => claim_bodies(alloc, journal.claims),
        JournalKind::Ceilings => ceiling_bodies(alloc, subject.total, journal.ceilings),
    }
}

/// The body that says that all units are spent.
fn all_spent(subject: &Subject) -> (u64, u64) {
    match subject.kind {
        JournalKind::Claims => (0, subject.total),
        JournalKind::Ceilings => (subject.total, 0),
    }
}

/// Puts slots behind others, so many in all, of which the first have these bodies.
fn push_slots(bytes: &mut Vec<u8>, bodies: &[(u64, u64)], slots: u64) -> Result<()>
    requires { slots ≤ MAX_SLOTS }
{
    let end = bytes.len() + 32 * slots as usize;
    for (first, second) in bodies {
        bytes.extend_from_slice(&first.to_le_bytes())?;
        bytes.extend_from_slice(&second.to_le_bytes())?;
        bytes.extend_from_slice(&[0; 15])?;
        bytes.push(OPEN)?;
    }
    bytes.resize(end, 0)?;
    Ok(())
}

/// Puts an area behind others: its head, which is closed where the generation is 0, and its slots.
fn push_area(bytes: &mut Vec<u8>, generation: u64, bodies: &[(u64, u64)], slots: u64) -> Result<()>
    requires { slots ≤ MAX_SLOTS }
{
    bytes.extend_from_slice(&generation.to_le_bytes())?;
    bytes.extend_from_slice(&[0; 23])?;
    bytes.push(if generation == 0 { 0 } else { OPEN })?;
    push_slots(bytes, bodies, slots)
}

/// A journal of one area with these bodies, whose gate of the migration is this.
fn one_area(
    alloc: Global,
    subject: &Subject,
    gate: u8,
    bodies: &[(u64, u64)],
    slots: u64,
) -> Result<Vec<u8>>
    requires { slots ≤ MAX_SLOTS }
{
    let mut bytes = b"WQSJRNL1".to_vec(alloc)?;
    bytes.extend_from_slice(&[journal_code(subject.kind), 0, 0, 0, 0, 0, 0, gate])?;
    bytes.extend_from_slice(&subject.total.to_le_bytes())?;
    bytes.extend_from_slice(&slots.to_le_bytes())?;
    bytes.extend_from_slice(&subject.id)?;
    push_slots(&mut bytes, bodies, slots)?;
    Ok(bytes)
}

/// A journal of two areas, in whose active area these bodies stand. The other, where it is open, says that all units are spent.
fn two_areas(
    alloc: Global,
    subject: &Subject,
    heads: (u64, u64),
    bodies: &[(u64, u64)],
    slots: u64,
) -> Result<Vec<u8>>
    requires { slots ≤ MAX_SLOTS }
{
    let mut bytes = blank_twin(alloc, subject.kind, &subject.id, subject.total, slots)?;
    bytes.truncate(64);
    let other = [all_spent(subject)];
    if heads.1 > heads.0 {
        push_area(
            &mut bytes,
            heads.0,
            if heads.0 == 0 { &[] } else { &other },
            slots,
        )?;
        push_area(&mut bytes, heads.1, bodies, slots)?;
    } else {
        push_area(&mut bytes, heads.0, bodies, slots)?;
        push_area(
            &mut bytes,
            heads.1,
            if heads.1 == 0 { &[] } else { &other },
            slots,
        )?;
    }
    Ok(bytes)
}

/// How many slots a new journal has of one area, and an area of a new one of two.
fn own_slots(subject: &Subject) -> (u64, u64) {
    let total = subject.total;
    match subject.kind {
        JournalKind::Claims => (claim_slots(total), claim_slots(total)),
        JournalKind::Ceilings => (ceiling_slots(total), twin_ceiling_slots(total)),
    }
}

/// A journal with its areas and bodies. One that was migrated stands behind one that says that all units are spent.
fn whole_journal(alloc: Global, subject: &Subject, journal: &Journaled<'_>) -> Result<Vec<u8>> {
    let (alone, each) = own_slots(subject);
    let alone = journal.slots.unwrap_or(alone);
    let each = journal.slots.unwrap_or(each);
    if alone > MAX_SLOTS || each > MAX_SLOTS {
        return Err(Error::msg("too many slots"));
    }
    let bodies = bodies_of(alloc, subject, journal)?;
    match journal.areas {
        Areas::One => one_area(alloc, subject, 0, &bodies, alone),
        Areas::Two => two_areas(alloc, subject, journal.heads, &bodies, each),
        Areas::Moved => {
            let mut bytes = one_area(alloc, subject, OPEN, &[all_spent(subject)], alone)?;
            let behind = two_areas(alloc, subject, journal.heads, &bodies, each)?;
            bytes.extend_from_slice(&behind)?;
            Ok(bytes)
        }
    }
}

/// The journal of this kind that belongs to a dealt file, which has so many bytes, and one byte that is another.
pub fn journal_of(
    alloc: Global,
    journal: &Journaled<'_>,
    kind: JournalKind,
    file: &VerifierFile,
) -> Result<Vec<u8>> {
    let subject = Subject {
        kind,
        id: file.id(),
        total: file.total(),
    };
    let mut bytes = whole_journal(alloc, &subject, journal)?;
    if let Some(size) = journal.size {
        bytes.resize(size, 0)?;
    }
    if let Some((place, byte)) = journal.set {
        set_byte(&mut bytes, place, byte)?;
    }
    Ok(bytes)
}
