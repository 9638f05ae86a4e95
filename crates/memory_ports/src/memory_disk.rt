// A disk in memory whose calls fail where a plan says so, and which a crash may tear.
ghost use Rattle.std.specs.Prelude.{◌≡◌, ◌<◌, ◌≤◌, ◌+◌, ◌-◌, ◌^◌, ◌++◌, [], ◌∷◌, ◌||◌, ◌==◌, ℕ, Bool, true, false, not, vec_capacity, vec_len, length, max, min, take, drop, get_or, is_err, IfOk, OnOk, OnErr, nat_le, List};
ghost use Rattle.std.specs.List.{list_all};
ghost use Rattle.zk_port.specs.Images.{written_at, IsTorn, ImagesFollow, StepsBy, Only};
ghost use Rattle.zk_port.specs.Disks.{Elapses};
ghost use Rattle.memory_ports.specs.Epochs.{left_by, left_by_all, is_prepared, reach, AreOutside, Leaves, chosen_files, may_choose, epoch_state, turn_of, is_refused, left_after, content_after, ranges_after};
ghost use Rattle.memory_ports.specs.Plans.{UsesCall};

use crate::epoch::{Epoch, Leftover, Pending, Turn, prepare};
use crate::file_bytes::{MAX_ROOM, read_from, write_into};
use crate::plan::FaultPlan;
use std::alloc::{AllocError, Global};
use std::mem;
use zk_port::{Access, Disk, Failed};

/// The most bytes that a name has.
const NAME_ROOM: usize = 4096;

/// A disk in memory, made for a number of bytes and a number of calls. It has one file, which any name chooses, once.
/// Exactly these calls fail: those that the plan names, all after those that it was made for, writes that would end past
/// its room, and a choice after the first or of a name of more than 4,096 bytes. A write that the plan fails writes its
/// first half, and a crash may leave anything in its range; the others of these calls leave all as it was.
#[derive(Drop)]
pub struct MemoryDisk<P: FaultPlan> {
    bytes: Vec<u8>,
    room: usize,
    epoch: Epoch,
    past: Vec<Epoch>,
    spare: Vec<Epoch>,
    calls: usize,
    most: usize,
    name: Vec<u8>,
    is_chosen: bool,
    access: Access,
    plan: P,
    ghost strict: { P.forgiving ≡ false },
    ghost sized: { room ≤ 2 ^ 62 },
    ghost made: { room ≤ vec_capacity bytes },
    ghost inside: { vec_len bytes ≤ room },
    ghost room_for_name: { is_chosen ≡ false → (name.items ≡ []) × (4096 ≤ vec_capacity name) },
    ghost calls_left: { calls ≤ most },
    ghost room_for_ranges: { vec_len epoch.ranges + calls ≤ vec_capacity epoch.ranges },
    ghost room_for_epochs: { vec_len past + calls ≤ vec_capacity past },
    ghost enough: { calls ≤ vec_len spare },
    ghost prepared: { list_all (is_prepared room most) spare.items ≡ true },
    ghost least: { length epoch.base.items ≤ length bytes.items },
    ghost most_bytes: { length bytes.items ≤ reach epoch.ranges.items (length epoch.base.items) },
    ghost kept: { (place : ℕ) → place < length epoch.base.items → AreOutside epoch.ranges.items place
        → get_or bytes.items place 0 ≡ get_or epoch.base.items place 0 },
}

/// Begins a call, and says what becomes of it. One that reaches nothing uses up no room for calls.
fn begin<P: FaultPlan>(plan: &mut P, calls: &mut usize, fits: bool) -> Turn
    requires strict { P.forgiving ≡ false }
    ensures turn { result ≡ turn_of fits calls.old (P.coming plan.old 0) }
    ensures calls { calls.new ≡ left_after result calls.old }
    ensures plan { UsesCall P.coming P.count (is_refused result) plan.old plan.new }
{
    let lost = !fits || *calls == 0;
    let fails = plan.fails();
    if lost && !fails {
        plan.fails_without();
    }
    if lost {
        return Turn::Lost;
    }
    *calls -= 1;
    if fails { Turn::Fails } else { Turn::Goes }
}

/// Whether so many bytes from this place on end within the room.
fn ends_within(room: usize, at: u64, count: usize) -> bool
    ensures { result ≡ nat_le (at + count) room }
{
    let room = room as u64;
    at <= room && count as u64 <= room - at
}

/// Empty epochs, one for each call.
fn prepare_all(alloc: Global, room: usize, calls: usize) -> Result<Vec<Epoch>, AllocError>
    ensures count { IfOk result (λ epochs. vec_len epochs ≡ calls) }
    ensures prepared { IfOk result (λ epochs. list_all (is_prepared room calls) epochs.items ≡ true) }
{
    let mut epochs = Vec::new(alloc);
    while epochs.len() < calls {
        epochs.push(prepare(alloc, room, calls)?)?;
    }
    Ok(epochs)
}

/// Adds the range of a write.
fn note_range(ranges: &mut Vec<Pending>, at: u64, count: usize)
    requires { vec_len ranges.old < vec_capacity ranges.old }
    ensures noted { ranges.new.items ≡ ranges.old.items ++ record { at = at; count = count } ∷ [] }
    ensures capacity { vec_capacity ranges.old ≤ vec_capacity ranges.new }
{
    let count = count as u64;
    let _ = ranges.push(Pending { at, count });
}

/// Writes the first `part` of these bytes, and notes the range of them all.
fn write_noted(
    file: &mut Vec<u8>,
    epoch: &mut Epoch,
    at: u64,
    bytes: &[u8],
    part: usize,
    room: usize,
)
    requires part { part ≤ length bytes.now }
    requires sized { room ≤ 2 ^ 62 }
    requires fits { at + length bytes.now ≤ room }
    requires made { room ≤ vec_capacity file.old }
    requires inside { vec_len file.old ≤ room }
    requires room_for_ranges { vec_len epoch.old.ranges < vec_capacity epoch.old.ranges }
    requires image { Leaves epoch.old file.old.items }
    ensures written { file.new.items ≡ written_at at (take part bytes.now) file.old.items }
    ensures noted { epoch.new.ranges.items
        ≡ epoch.old.ranges.items ++ record { at = at; count = length bytes.now } ∷ [] }
    ensures base { epoch.new.base ≡ epoch.old.base }
    ensures room_for_ranges { vec_capacity epoch.old.ranges ≤ vec_capacity epoch.new.ranges }
    ensures made { room ≤ vec_capacity file.new }
    ensures inside { vec_len file.new ≤ room }
    ensures image { Leaves epoch.new file.new.items }
    ensures torn { IsTorn at (length bytes.now) file.old.items file.new.items }
    ensures crash { ImagesFollow (IsTorn at (length bytes.now)) (Leaves epoch.old) (Leaves epoch.new) }
    ensures grows { (c : List ℕ) → Leaves epoch.old c → Leaves epoch.new c }
{
    note_range(&mut epoch.ranges, at, bytes.len());
    let _ = write_into(file, at as usize, &bytes[..part]);
}

/// Writes over a range what was chosen for it.
fn leave(
    alloc: Global,
    image: &mut Vec<u8>,
    range: Pending,
    leftover: Leftover,
    content: &[u8],
) -> Result<(), AllocError>
    ensures { OnOk result (image.new.items ≡ left_by leftover range content.now image.old.items) }
{
    let at = range.at as usize;
    let count = range.count as usize;
    match leftover {
        Leftover::Old => {}
        Leftover::New => {
            let start = at.min(content.len());
            let rest = &content[start..];
            write_into(image, at, &rest[..count.min(rest.len())])?;
        }
        Leftover::Filled(byte) => {
            let mut filler = Vec::new(alloc);
            filler.resize(count, byte)?;
            write_into(image, at, &filler)?;
        }
    }
    Ok(())
}

/// What the choices make of the ranges of an epoch.
#[tactic(auto, using(crate::proofs::Crashes::none_chosen))]
fn choose_all(
    alloc: Global,
    epoch: &Epoch,
    leftovers: &[Leftover],
    content: &[u8],
) -> Result<Vec<u8>, AllocError>
    ensures { IfOk result (λ image. image.items ≡ left_by_all leftovers.now
        epoch.now.ranges.items content.now epoch.now.base.items) }
{
    let mut image = epoch.base.to_vec(alloc)?;
    let mut leftovers = leftovers;
    let mut ranges: &[Pending] = &epoch.ranges;
    while let [leftover, others @ ..] = leftovers {
        let [range, behind @ ..] = ranges else {
            return Ok(image);
        };
        leave(alloc, &mut image, *range, *leftover, content)?;
        leftovers = others;
        ranges = behind;
    }
    Ok(image)
}

/// Ends the epoch, and opens one that begins with this content.
fn open_epoch(
    content: &[u8],
    epoch: &mut Epoch,
    past: &mut Vec<Epoch>,
    spare: &mut Vec<Epoch>,
    room: usize,
    most: usize,
)
    requires fits { length content.now ≤ room }
    requires past { vec_len past.old < vec_capacity past.old }
    requires spare { 0 < vec_len spare.old }
    requires prepared { list_all (is_prepared room most) spare.old.items ≡ true }
    ensures base { epoch.new.base.items ≡ content.now }
    ensures ranges { epoch.new.ranges.items ≡ [] }
    ensures room_for_ranges { most ≤ vec_capacity epoch.new.ranges }
    ensures past { past.new.items ≡ past.old.items ++ epoch.old ∷ [] }
    ensures room_for_epochs { vec_capacity past.old ≤ vec_capacity past.new }
    ensures spare { vec_len spare.new + 1 ≡ vec_len spare.old }
    ensures prepared { list_all (is_prepared room most) spare.new.items ≡ true }
{
    if let Some(next) = spare.pop() {
        let mut next = next;
        let _ = next.base.extend_from_slice(content);
        let _ = past.push(mem::replace(epoch, next));
    }
}

impl<P: FaultPlan + Drop> MemoryDisk<P> {
    /// A disk with these bytes, all of them synced; with room for so many bytes, or for those that it has, and for so
    /// many calls. The plan is one by which something may fail: `SureDisk` is the disk that never fails.
    ///
    /// # Errors
    ///
    /// Only where memory runs out, as it does for more than 2^62 bytes.
    pub fn new(
        alloc: Global,
        bytes: Vec<u8>,
        room: usize,
        calls: usize,
        plan: P,
    ) -> Result<Self, AllocError>
        requires strict { P.forgiving ≡ false }
        ensures content { IfOk result (λ disk.
            (⟦<MemoryDisk<P> as Disk>⟧.state disk).content ≡ Some bytes.items) }
        ensures images { IfOk result (λ disk. disk.epoch.ranges.items ≡ []) }
        ensures base { IfOk result (λ disk. disk.epoch.base.items ≡ bytes.items) }
        ensures room { IfOk result (λ disk. disk.room ≡ max room (length bytes.items)) }
        ensures calls { IfOk result (λ disk. disk.calls ≡ calls) }
        ensures plan { IfOk result (λ disk. disk.plan ≡ plan) }
        ensures faults { IfOk result (λ disk. (⟦<MemoryDisk<P> as Disk>⟧.state disk).faults ≡ P.count plan) }
    {
        let room = room.max(bytes.len());
        if room > MAX_ROOM {
            return Err(AllocError);
        }
        let mut epoch = prepare(alloc, room, calls)?;
        epoch.base.extend_from_slice(&bytes)?;
        let mut bytes = bytes;
        bytes.reserve(room - bytes.len())?;
        Ok(MemoryDisk {
            bytes,
            room,
            epoch,
            past: Vec::with_capacity(alloc, calls)?,
            spare: prepare_all(alloc, room, calls)?,
            calls,
            most: calls,
            name: Vec::with_capacity(alloc, NAME_ROOM)?,
            is_chosen: false,
            access: Access::Own,
            plan,
        })
    }

    /// What a read of all would give.
    pub fn bytes(&self) -> &[u8]
        ensures { (⟦<MemoryDisk<P> as Disk>⟧.state self.now).content ≡ Some result.now }
    {
        &self.bytes
    }

    /// How many writes a crash may tear now: those since the last sync that succeeded.
    pub fn pending(&self) -> usize
        ensures { result ≡ length self.now.epoch.ranges.items }
    {
        self.epoch.ranges.len()
    }

    /// A content that a crash now may leave, by a choice for each of the writes since the last sync that succeeded,
    /// in their order; where choices are missing all stays as it was.
    ///
    /// # Errors
    ///
    /// Only where memory runs out.
    pub fn image(&self, alloc: Global, leftovers: &[Leftover]) -> Result<Vec<u8>, AllocError>
        ensures image { IfOk result (λ image. (⟦<MemoryDisk<P> as Disk>⟧.state self.now).images image.items) }
        ensures chosen { IfOk result (λ image. image.items ≡ left_by_all leftovers.now
            self.now.epoch.ranges.items self.now.bytes.items self.now.epoch.base.items) }
    {
        let image = choose_all(alloc, &self.epoch, leftovers, &self.bytes)?;
        Ok(image)
    }
}

impl<P: FaultPlan> Disk for MemoryDisk<P> {
    ghost use Rattle.std.specs.Prelude.{Some, None};
    ghost use Rattle.std.proofs.Common.{inl};
    ghost use Rattle.memory_ports.specs.Epochs.{chosen_files, epoch_state, leaves_only_now};

    ghost state = { λ d. epoch_state (chosen_files d.is_chosen d.name.items d.access) d.bytes.items
        d.past.items d.epoch (P.count d.plan) };

    ghost counts_now = { λ d t c le now. inl now };

    ghost only_now = { λ d c left. leaves_only_now d.past.items d.epoch c left };

    fn faults(&self) -> u64 {
        self.plan.faults()
    }

    fn choose(&mut self, name: &str, access: Access) -> Result<(), Failed>
        ensures answer { is_err result ≡ is_refused (turn_of (may_choose self.old.is_chosen (length name.now))
            self.old.calls (P.coming self.old.plan 0)) }
        ensures chosen { OnOk result (chosen_files self.new.is_chosen self.new.name.items self.new.access
            ≡ chosen_files self.old.is_chosen self.old.name.items self.old.access ++ (name.now, access) ∷ []) }
        ensures refused { OnErr result ((self.new.is_chosen ≡ self.old.is_chosen)
            × (self.new.name ≡ self.old.name) × (self.new.access ≡ self.old.access)) }
        ensures bytes { self.new.bytes ≡ self.old.bytes }
        ensures epoch { self.new.epoch ≡ self.old.epoch }
        ensures past { self.new.past ≡ self.old.past }
        ensures room { self.new.room ≡ self.old.room }
        ensures calls { self.new.calls ≡ left_after (turn_of (may_choose self.old.is_chosen (length name.now))
            self.old.calls (P.coming self.old.plan 0)) self.old.calls }
        ensures plan { UsesCall P.coming P.count (is_err result) self.old.plan self.new.plan }
    {
        let fits = !self.is_chosen && name.len() <= NAME_ROOM;
        match begin(&mut self.plan, &mut self.calls, fits) {
            Turn::Goes => {
                let _ = self.name.extend_from_slice(name.as_bytes());
                self.is_chosen = true;
                self.access = access;
                Ok(())
            }
            Turn::Fails | Turn::Lost => Err(Failed),
        }
    }

    fn read(&mut self, at: u64, buffer: &mut [u8]) -> Result<usize, Failed>
        ensures answer { is_err result ≡ is_refused (turn_of true self.old.calls (P.coming self.old.plan 0)) }
        ensures end { IfOk result (λ n. n ≡ min (length buffer.old) (length self.old.bytes.items - at)) }
        ensures read { IfOk result (λ n. take n buffer.new ≡ take n (drop at self.old.bytes.items)) }
        ensures rest { IfOk result (λ n. drop n buffer.new ≡ drop n buffer.old) }
        ensures bytes { self.new.bytes ≡ self.old.bytes }
        ensures epoch { self.new.epoch ≡ self.old.epoch }
        ensures past { self.new.past ≡ self.old.past }
        ensures name { self.new.name ≡ self.old.name }
        ensures is_chosen { self.new.is_chosen ≡ self.old.is_chosen }
        ensures access { self.new.access ≡ self.old.access }
        ensures room { self.new.room ≡ self.old.room }
        ensures calls { self.new.calls
            ≡ left_after (turn_of true self.old.calls (P.coming self.old.plan 0)) self.old.calls }
        ensures plan { UsesCall P.coming P.count (is_err result) self.old.plan self.new.plan }
    {
        match begin(&mut self.plan, &mut self.calls, true) {
            Turn::Goes => Ok(read_from(&self.bytes, at, buffer)),
            Turn::Fails | Turn::Lost => Err(Failed),
        }
    }

    fn write_at(&mut self, at: u64, bytes: &[u8]) -> Result<(), Failed>
        ensures answer { is_err result ≡ is_refused (turn_of (nat_le (at + length bytes.now) self.old.room)
            self.old.calls (P.coming self.old.plan 0)) }
        ensures bytes { self.new.bytes.items ≡ content_after (turn_of
            (nat_le (at + length bytes.now) self.old.room) self.old.calls (P.coming self.old.plan 0)) at bytes.now self.old.bytes.items }
        ensures ranges { self.new.epoch.ranges.items ≡ ranges_after (turn_of
            (nat_le (at + length bytes.now) self.old.room) self.old.calls (P.coming self.old.plan 0)) at (length bytes.now) self.old.epoch.ranges.items }
        ensures base { self.new.epoch.base ≡ self.old.epoch.base }
        ensures past { self.new.past ≡ self.old.past }
        ensures name { self.new.name ≡ self.old.name }
        ensures is_chosen { self.new.is_chosen ≡ self.old.is_chosen }
        ensures access { self.new.access ≡ self.old.access }
        ensures torn { OnErr result (IsTorn at (length bytes.now) self.old.bytes.items self.new.bytes.items) }
        ensures crash { ImagesFollow (IsTorn at (length bytes.now))
            (Leaves self.old.epoch) (Leaves self.new.epoch) }
        ensures time { Elapses (⟦<MemoryDisk<P> as Disk>⟧.state self.old)
            (⟦<MemoryDisk<P> as Disk>⟧.state self.new) }
        ensures room { self.new.room ≡ self.old.room }
        ensures calls { self.new.calls ≡ left_after (turn_of
            (nat_le (at + length bytes.now) self.old.room) self.old.calls (P.coming self.old.plan 0)) self.old.calls }
        ensures plan { UsesCall P.coming P.count (is_err result) self.old.plan self.new.plan }
    {
        let fits = ends_within(self.room, at, bytes.len());
        match begin(&mut self.plan, &mut self.calls, fits) {
            Turn::Goes => {
                let all = bytes.len();
                write_noted(&mut self.bytes, &mut self.epoch, at, bytes, all, self.room);
                Ok(())
            }
            Turn::Fails => {
                let half = bytes.len() / 2;
                write_noted(&mut self.bytes, &mut self.epoch, at, bytes, half, self.room);
                Err(Failed)
            }
            Turn::Lost => Err(Failed),
        }
    }

    fn sync(&mut self) -> Result<(), Failed>
        ensures answer { is_err result ≡ is_refused (turn_of true self.old.calls (P.coming self.old.plan 0)) }
        ensures bytes { self.new.bytes ≡ self.old.bytes }
        ensures base { OnOk result (self.new.epoch.base.items ≡ self.old.bytes.items) }
        ensures ranges { OnOk result (self.new.epoch.ranges.items ≡ []) }
        ensures ended { OnOk result (self.new.past.items ≡ self.old.past.items ++ self.old.epoch ∷ []) }
        ensures epoch { OnErr result (self.new.epoch ≡ self.old.epoch) }
        ensures past { OnErr result (self.new.past ≡ self.old.past) }
        ensures name { self.new.name ≡ self.old.name }
        ensures is_chosen { self.new.is_chosen ≡ self.old.is_chosen }
        ensures access { self.new.access ≡ self.old.access }
        ensures crash { (c : List ℕ) → Leaves self.new.epoch c → Leaves self.old.epoch c }
        ensures time { Elapses (⟦<MemoryDisk<P> as Disk>⟧.state self.old)
            (⟦<MemoryDisk<P> as Disk>⟧.state self.new) }
        ensures room { self.new.room ≡ self.old.room }
        ensures calls { self.new.calls
            ≡ left_after (turn_of true self.old.calls (P.coming self.old.plan 0)) self.old.calls }
        ensures plan { UsesCall P.coming P.count (is_err result) self.old.plan self.new.plan }
    {
        match begin(&mut self.plan, &mut self.calls, true) {
            Turn::Goes => {
                open_epoch(
                    &self.bytes,
                    &mut self.epoch,
                    &mut self.past,
                    &mut self.spare,
                    self.room,
                    self.most,
                );
                Ok(())
            }
            Turn::Fails | Turn::Lost => Err(Failed), // all stays pending
        }
    }
}
