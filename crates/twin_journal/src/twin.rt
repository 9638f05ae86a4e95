// An open journal of two areas.
ghost use Rattle.std.specs.Prelude.{◌≡◌, ◌<◌, ◌≤◌, ◌+◌, ◌-◌, ◌*◌, ◌^◌, ◌++◌, ◌∷◌, [], ℕ, List, length, min, Some, true, not, IfSome, IfOk, IfErr, OnOk, OnErr};
ghost use Rattle.zk_port.specs.Counts.{Rose};
ghost use Rattle.zk_port.specs.Disks.{LeavesOnly, Stays};
ghost use Rattle.zk_port.specs.Images.{Only};
ghost use Rattle.lease_journal.specs.Journals.{body_at, body_before, first_bodies};
ghost use Rattle.lease_journal.specs.Twins.{HoldsTwin, IsTwinTidy, SaysOldOrNew, TwinRecovers, TwinStands, are_twin_slots, area_at, head_at, twin_length};
ghost use Rattle.zk_model.specs.declared.limits.TheConstants.{MAX_SLOTS};
ghost use Rattle.lease_journal.specs.Causes.{BodyCause, PutCause};
ghost use Rattle.lease_journal.specs.Keeps.{ChangesAt, Keeps};
ghost use Rattle.lease_journal.specs.Scans.{HasRead};
ghost use Rattle.lease_journal.specs.declared.fault.StartFault.TheVariants as start;
ghost use Rattle.twin_journal.specs.Filling.{AreBodySlots};
ghost use Rattle.twin_journal.specs.Starts.{FileCause, IsTwinOpened, SaysTwinSlots};
ghost use Rattle.twin_journal.specs.States.{IsKept};

use crate::bodies::Bodies;
use crate::compacting::{Target, turn};
use crate::filling::Filled;
use crate::places::head_at;
use crate::starting::{Opened, open};
use lease_journal::area::{read_body, store_slot};
use lease_journal::{JournalFault, JournalName, StartFault};
use std::marker::Model;
use zk_model::JournalKind;
use zk_port::{Disk, Failed};

/// An open journal of two areas over a disk: the list of the bodies in the first slots of the active area. Contracts see
/// of it the disk, where the journal begins, how many slots an area has and are in use, the last body, which area is the
/// active one, its generation, whether the other head is open, and the kept fault (`TwinState`).
#[derive(Drop)]
pub struct Twin<B: Disk> {
    disk: B,
    begin: u64,
    slots: u64,
    used: u64,
    last: (u64, u64),
    second: bool,
    generation: u64,
    other_open: bool,
    fault: u64,
}

impl<B: Disk> Model for Twin<B> {
    ghost use Rattle.twin_journal.specs.States as model;

    ghost Value = { model.TwinState B };

    ghost coded = { model.state_code B.code };

    ghost view = { λ t. record {
      disk = t.disk;
      begin = t.begin;
      slots = t.slots;
      used = t.used;
      last = t.last;
      second = t.second;
      generation = t.generation;
      other_open = t.other_open;
      fault = t.fault;
    } };

    ghost invariant = { λ t. model.IsTwin (B.state t.disk) t.begin t.slots t.used t.fault };
}

impl<B: Disk> Twin<B> {
    /// Opens the journal of this kind, total and id that the file on the disk holds: from its first byte on, or behind a
    /// journal of one area that was migrated. It syncs, and reads the header, whether the file has its full length, both
    /// heads, and the slots of the active area up to the first that is not open. The disk of a refused start comes back.
    ///
    /// # Errors
    ///
    /// The first of these that applies: `Device`, `BadHeader` of the header of a journal that was migrated, `Short` of
    /// the header, `BadHeader`, `Short` of the whole, `BadHeader` at the first head's gate where no head is open,
    /// `BadBody`, `BadHeader` at the generation. Places and lengths, but of the first of these headers, count from where
    /// the journal begins.
    pub fn start(
        disk: B,
        kind: JournalKind,
        id: &[u8; 32],
        total: u64,
    ) -> Result<Self, (StartFault, B)>
        requires room { (size : ℕ) → (B.state disk).room ≡ Some size → (begin slots : ℕ)
            → SaysTwinSlots kind (B.state disk).content begin slots → begin + twin_length slots ≤ size }
        ensures holds { IfOk result (λ twin. (bytes : List ℕ) → (B.state disk).content ≡ Some bytes
            → HoldsTwin kind id.now total twin.begin twin.slots bytes) }
        ensures opened { IfOk result (λ twin. (bytes : List ℕ) → (B.state disk).content ≡ Some bytes
            → IsTwinOpened kind id.now total twin.begin twin.slots twin.used twin.last
            twin.second twin.generation twin.other_open bytes) }
        ensures recovers { IfOk result (λ twin. (bytes : List ℕ) → (B.state disk).content ≡ Some bytes
            → TwinRecovers twin.begin twin.slots bytes
            (first_bodies (area_at twin.begin twin.slots twin.second) twin.used bytes)) }
        ensures kept { IfOk result (λ twin. (bytes : List ℕ) → (B.state disk).content ≡ Some bytes
            → IsTwinTidy twin.begin twin.slots bytes → IsKept B.state twin
            (first_bodies (area_at twin.begin twin.slots twin.second) twin.used bytes) bytes) }
        ensures durable { IfOk result (λ twin. Only (B.state twin.disk).content (B.state twin.disk).images) }
        ensures stays { IfOk result (λ twin. Stays (B.state disk) (B.state twin.disk)) }
        ensures fits { IfOk result (λ twin. are_twin_slots kind total twin.slots ≡ true) }
        ensures read { IfOk result (λ twin. HasRead kind total twin.used twin.last) }
        ensures fault { IfOk result (λ twin. twin.fault ≡ 0) }
        ensures faults { IfOk result (λ twin. (B.state twin.disk).faults ≡ (B.state disk).faults) }
        ensures cause { IfErr result (λ e. (bytes : List ℕ) → (B.state disk).content ≡ Some bytes
            → FileCause kind id.now total bytes e.0) }
        ensures bad { IfErr result (λ e. (slot : ℕ) → e.0 ≡ start.BadBody slot → slot < MAX_SLOTS) }
        ensures device { IfErr result (λ e. e.0 ≡ start.Device → Rose (B.state disk).faults
            (B.state e.1).faults) }
        ensures faults_grow { IfErr result (λ e. (B.state disk).faults ≤ (B.state e.1).faults) }
        ensures stays_refused { IfErr result (λ e. Stays (B.state disk) (B.state e.1)) }
    {
        let mut disk = disk;
        let name = JournalName {
            kind,
            id: *id,
            total,
        };
        match open(&mut disk, name) {
            Ok(
                Opened {
                    begin,
                    slots,
                    used,
                    last,
                    active,
                },
            ) => Ok(Twin {
                disk,
                begin,
                slots,
                used,
                last,
                second: active.second,
                generation: active.generation,
                other_open: active.other_open,
                fault: 0,
            }),
            Err(fault) => Err((fault, disk)),
        }
    }

    /// How many slots of the active area are in use: so many bodies there are.
    pub fn used(&self) -> u64
        ensures used { result ≡ self.now.used }
        ensures within { result ≤ self.now.slots }
    {
        self.used
    }

    /// The body in the last slot in use, or zeros where none is.
    pub fn last(&self) -> (u64, u64)
        ensures { result ≡ self.now.last }
    {
        self.last
    }

    /// How many slots an area has.
    pub fn slots(&self) -> u64
        ensures slots { result ≡ self.now.slots }
        ensures bounded { result ≤ MAX_SLOTS }
    {
        self.slots
    }

    /// The generation of the active area.
    pub fn generation(&self) -> u64
        ensures { result ≡ self.now.generation }
    {
        self.generation
    }

    /// The disk's count of faults at the first call of it that failed, or 0.
    pub fn fault(&self) -> u64
        ensures { result ≡ self.now.fault }
    {
        self.fault
    }

    /// The disk as it stands.
    pub fn into_disk(self) -> B
        ensures { result ≡ self.disk }
    {
        self.disk
    }

    /// The body in a slot of the active area that is in use.
    ///
    /// # Errors
    ///
    /// `Broken` where a call of the disk has failed before, and then no call of it is made; `Device` where the read
    /// failed: all further calls are then `Broken`.
    pub fn body(&mut self, slot: u64) -> Result<(u64, u64), JournalFault>
        requires { slot < self.old.used }
        ensures body { IfOk result (λ body. (bytes : List ℕ) → (B.state self.old.disk).content ≡ Some bytes
            → body ≡ body_at (area_at self.old.begin self.old.slots self.old.second) bytes slot) }
        ensures stays { Stays (B.state self.old.disk) (B.state self.new.disk) }
        ensures state { self.new ≡ record self.old { disk = self.new.disk; fault = self.new.fault } }
        ensures fault_kept { OnOk result (self.new.fault ≡ self.old.fault) }
        ensures faults { OnOk result ((B.state self.new.disk).faults ≡ (B.state self.old.disk).faults) }
        ensures faults_grow { (B.state self.old.disk).faults ≤ (B.state self.new.disk).faults }
        ensures cause { IfErr result (BodyCause self.old.fault self.new.fault
            (B.state self.old.disk).faults (B.state self.new.disk).faults) }
        ensures unserved { OnErr result (self.new.fault ≡ self.old.fault → self.new.disk ≡ self.old.disk) }
        ensures served { OnOk result (self.old.fault ≡ 0) }
    {
        if self.fault != 0 {
            return Err(JournalFault::Broken { first: self.fault });
        }
        let at = head_at(self.begin, self.slots, self.second) + 32;
        match read_body(&mut self.disk, at, slot) {
            Ok(body) => Ok(body),
            Err(Failed) => {
                self.fault = self.disk.faults();
                Err(JournalFault::Device)
            }
        }
    }

    /// Puts a body after the others: writes it into the next slot of the active area, syncs, opens the slot, and syncs.
    ///
    /// # Errors
    ///
    /// First `Broken` where a call of the disk has failed before, then `Full` where all slots are in use; both change
    /// nothing, and make no call of the disk. Last `Device`, where one of the four calls failed: a crash may then leave
    /// the journal with the body or without, and all further calls are `Broken`.
    pub fn put(&mut self, a: u64, b: u64) -> Result<(), JournalFault>
        ensures any_moment { (bytes : List ℕ) (bodies : List (ℕ × ℕ)) → IsKept B.state self.old bodies bytes
            → self.old.used < self.old.slots → LeavesOnly (B.state self.old.disk) (B.state self.new.disk)
            (SaysOldOrNew self.old.begin self.old.slots self.old.generation bodies
            self.old.generation (bodies ++ (a, b) ∷ [])) }
        ensures read { (bytes : List ℕ) (bodies : List (ℕ × ℕ)) → IsKept B.state self.old bodies bytes
            → self.old.used < self.old.slots → IfSome (B.state self.new.disk).content
            (SaysOldOrNew self.old.begin self.old.slots self.old.generation bodies
            self.old.generation (bodies ++ (a, b) ∷ [])) }
        ensures recovered { OnOk result ((bytes : List ℕ) (bodies : List (ℕ × ℕ))
            → IsKept B.state self.old bodies bytes
            → IfSome (B.state self.new.disk).content (IsKept B.state self.new (bodies ++ (a, b) ∷ []))) }
        ensures durable { OnOk result (Only (B.state self.new.disk).content (B.state self.new.disk).images) }
        ensures state { OnOk result (self.new ≡ record self.old {
          disk = self.new.disk;
          used = self.old.used + 1;
          last = (a, b);
        }) }
        ensures state_kept { OnErr result
            (self.new ≡ record self.old { disk = self.new.disk; fault = self.new.fault }) }
        ensures changes { ChangesAt
            (area_at self.old.begin self.old.slots self.old.second + 32 * self.old.used) 32
            (B.state self.old.disk) (B.state self.new.disk) }
        ensures stands { (kind : JournalKind) (id : List ℕ) (total : ℕ)
            → Keeps (TwinStands kind id total self.old.begin self.old.slots)
            (B.state self.old.disk) (B.state self.new.disk) }
        ensures holds { (kind : JournalKind) (id : List ℕ) (total : ℕ)
            → Keeps (HoldsTwin kind id total self.old.begin self.old.slots)
            (B.state self.old.disk) (B.state self.new.disk) }
        ensures faults { OnOk result ((B.state self.new.disk).faults ≡ (B.state self.old.disk).faults) }
        ensures faults_grow { (B.state self.old.disk).faults ≤ (B.state self.new.disk).faults }
        ensures cause { IfErr result (PutCause self.old.slots self.old.used self.old.fault self.new.fault
            (B.state self.old.disk).faults (B.state self.new.disk).faults) }
        ensures unserved { OnErr result (self.new.fault ≡ self.old.fault → self.new.disk ≡ self.old.disk) }
        ensures served { OnOk result ((self.old.fault ≡ 0) × (self.old.used < self.old.slots)) }
    {
        if self.fault != 0 {
            return Err(JournalFault::Broken { first: self.fault });
        }
        if self.used == self.slots {
            return Err(JournalFault::Full { slots: self.slots });
        }
        let at = head_at(self.begin, self.slots, self.second) + 32;
        if let Err(Failed) = store_slot(&mut self.disk, at, self.used, a, b) {
            self.fault = self.disk.faults();
            return Err(JournalFault::Device);
        }
        self.used += 1;
        self.last = (a, b);
        Ok(())
    }

    /// Puts these bodies in place of all others: writes them into the area that is not the active one, which then is it,
    /// with the next generation. It closes the head of that area where it is open, writes the generation and all slots,
    /// and opens the head, each time with a sync. It reads nothing. Each byte of the slots is written: zeros behind the
    /// bodies, and between a body and the byte that opens its slot.
    ///
    /// A generation at the end of its type stays; nothing is said of the bodies then.
    ///
    /// # Errors
    ///
    /// First `Broken` where a call of the disk has failed before, which changes nothing, and makes no call of the disk.
    /// Last `Device`, where a call failed: a crash may then leave the journal with the old bodies or with these, and all
    /// further calls are `Broken`. It is never `Full`.
    pub fn compact<F: Bodies>(&mut self, next: &mut F) -> Result<(), JournalFault>
        requires { length (F.rest next.old) ≤ self.old.slots }
        ensures any_moment { (bytes : List ℕ) (bodies : List (ℕ × ℕ)) → IsKept B.state self.old bodies bytes
            → self.old.generation + 1 < 2 ^ 64 → LeavesOnly (B.state self.old.disk) (B.state self.new.disk)
            (SaysOldOrNew self.old.begin self.old.slots self.old.generation bodies
            (self.old.generation + 1) (F.rest next.old)) }
        ensures read { (bytes : List ℕ) (bodies : List (ℕ × ℕ)) → IsKept B.state self.old bodies bytes
            → self.old.generation + 1 < 2 ^ 64 → IfSome (B.state self.new.disk).content
            (SaysOldOrNew self.old.begin self.old.slots self.old.generation bodies
            (self.old.generation + 1) (F.rest next.old)) }
        ensures recovered { OnOk result ((bytes : List ℕ) (bodies : List (ℕ × ℕ))
            → IsKept B.state self.old bodies bytes → self.old.generation + 1 < 2 ^ 64
            → IfSome (B.state self.new.disk).content (IsKept B.state self.new (F.rest next.old))) }
        ensures exact { OnOk result ((bytes : List ℕ) (bodies : List (ℕ × ℕ))
            → IsKept B.state self.old bodies bytes → self.old.generation + 1 < 2 ^ 64
            → IfSome (B.state self.new.disk).content (AreBodySlots
            (area_at self.old.begin self.old.slots (not self.old.second)) self.old.slots (F.rest next.old))) }
        ensures durable { OnOk result (Only (B.state self.new.disk).content (B.state self.new.disk).images) }
        ensures state { OnOk result (self.new ≡ record self.old {
          disk = self.new.disk;
          used = length (F.rest next.old);
          last = body_before (F.rest next.old) (length (F.rest next.old));
          second = not self.old.second;
          generation = min (self.old.generation + 1) (2 ^ 64 - 1);
          other_open = true;
        }) }
        ensures state_kept { OnErr result
            (self.new ≡ record self.old { disk = self.new.disk; fault = self.new.fault }) }
        ensures changes { ChangesAt
            (head_at self.old.begin self.old.slots (not self.old.second)) (32 * (self.old.slots + 1))
            (B.state self.old.disk) (B.state self.new.disk) }
        ensures stands { (kind : JournalKind) (id : List ℕ) (total : ℕ)
            → Keeps (TwinStands kind id total self.old.begin self.old.slots)
            (B.state self.old.disk) (B.state self.new.disk) }
        ensures holds { (kind : JournalKind) (id : List ℕ) (total : ℕ)
            → Keeps (HoldsTwin kind id total self.old.begin self.old.slots)
            (B.state self.old.disk) (B.state self.new.disk) }
        ensures faults { OnOk result ((B.state self.new.disk).faults ≡ (B.state self.old.disk).faults) }
        ensures faults_grow { (B.state self.old.disk).faults ≤ (B.state self.new.disk).faults }
        ensures cause { IfErr result (BodyCause self.old.fault self.new.fault
            (B.state self.old.disk).faults (B.state self.new.disk).faults) }
        ensures unserved { OnErr result (self.new.fault ≡ self.old.fault → self.new.disk ≡ self.old.disk) }
        ensures served { OnOk result (self.old.fault ≡ 0) }
    {
        if self.fault != 0 {
            return Err(JournalFault::Broken { first: self.fault });
        }
        let second = !self.second;
        let to = Target {
            head: head_at(self.begin, self.slots, second),
            slots: self.slots,
            generation: self.generation.saturating_add(1),
        };
        match turn(&mut self.disk, to, self.other_open, next) {
            Ok(Filled { used, last }) => {
                self.used = used;
                self.last = last;
                self.second = second;
                self.generation = to.generation;
                self.other_open = true;
                Ok(())
            }
            Err(Failed) => {
                self.fault = self.disk.faults();
                Err(JournalFault::Device)
            }
        }
    }
}
