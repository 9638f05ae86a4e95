// A store that has no name yet.
ghost use Rattle.std.specs.Prelude.{◌≡◌, ◌^◌, ◌≤◌, ℕ, List, length, Some, IfOk, IfErr, All};
ghost use Rattle.zk_port.specs.Counts.{Rose};
ghost use Rattle.zk_port.specs.Disks.{Stays};
ghost use Rattle.zk_port.specs.Images.{Only};
ghost use Rattle.lease_journal.specs.declared.fault.StartFault.TheVariants as start;
ghost use Rattle.lease_words.specs.Calls.{base_of, words_id, AreFresh};
ghost use Rattle.lease_store.specs.Ceilings.{CeilingStartCause, HasCeilingHeader, HasCeilingRoom, HasTidyCeilings, SaysCeiling};
ghost use Rattle.lease_store.specs.Desks.{Begins, IsLeaseDesk};
ghost use Rattle.lease_store.specs.Leases.{IsPassAt};
ghost use Rattle.lease_store.specs.declared.fault.StoreFault.TheVariants as store;
ghost use Rattle.zk_model.specs.declared.limits.TheConstants.{MAX_PASSES, MAX_STORE_UNITS};

use crate::ceilings::CeilingJournal;
use crate::desk::Desk;
use crate::fault::StoreFault;
use crate::name::LeaseName;
use crate::store::LeaseStore;
use lease_words::{JournalSeat, Pass, Words};
use std::alloc::{AllocError, Global};
use std::marker::Model;
use std::sync::Mutex;
use twin_journal::{JournalKind, StartFault, Twin};
use zk_port::Disk;

/// A store as it starts, before it has a name. Contracts see of it the disk, the table of its words, the first unit of
/// its era, the total and how many passes there are (`PartsState`).
#[derive(Drop)]
pub struct LeaseParts<B: Disk> {
    words: Words<CeilingJournal<B>>,
    seat: JournalSeat<CeilingJournal<B>>,
}

impl<B: Disk> Model for LeaseParts<B> {
    ghost use Rattle.lease_words.specs.Calls.{base_of, words_id};
    ghost use Rattle.lease_store.specs.States as model;

    ghost Value = { model.PartsState B };

    ghost coded = { model.parts_code B.code };

    ghost view = { λ p. record {
      disk = p.seat.keeper.journal.disk;
      table = words_id p.words;
      base = base_of p.words;
      total = p.seat.keeper.total;
      passes = p.seat.seat.me.0.made;
    } };

    ghost invariant = { λ p. model.AreParts B.state p.seat.keeper.total (base_of p.words) (words_id p.words)
        p.seat.seat.table_id p.seat.keeper.journal p.seat.keeper.id p.seat.seat.me.0 };
}

impl<B: Disk> LeaseParts<B> {
    /// Opens the journal of ceilings of this id and total that stands on the disk, one of two areas, and makes words that
    /// begin at its ceiling, with as many passes.
    ///
    /// # Errors
    ///
    /// As the journal's start; `NoMemory` only where memory runs out. The disk comes back.
    pub fn start(
        alloc: Global,
        disk: B,
        id: &[u8; 32],
        total: u64,
        passes: u32,
    ) -> Result<(Self, Vec<Pass>), (StoreFault, B)>
        requires total { total ≤ MAX_STORE_UNITS }
        requires passes { (1 ≤ passes) × (passes ≤ MAX_PASSES) }
        requires room { (size : ℕ) → (B.state disk).room ≡ Some size
            → HasCeilingRoom (B.state disk).content size }
        requires tidy { (bytes : List ℕ) → (B.state disk).content ≡ Some bytes
            → HasTidyCeilings id.now total bytes }
        ensures base { IfOk result (λ r. (bytes : List ℕ) → (B.state disk).content ≡ Some bytes
            → SaysCeiling id.now total r.0.base bytes) }
        ensures header { IfOk result (λ r. (bytes : List ℕ) → (B.state r.0.disk).content ≡ Some bytes
            → HasCeilingHeader id.now r.0.total bytes) }
        ensures begins { IfOk result (λ r. Begins (B.state r.0.disk) (B.state r.0.disk)) }
        ensures total { IfOk result (λ r. r.0.total ≡ total) }
        ensures made { IfOk result (λ r. r.0.passes ≡ passes) }
        ensures faults { IfOk result (λ r. (B.state r.0.disk).faults ≡ (B.state disk).faults) }
        ensures stays { IfOk result (λ r.
            Stays (B.state disk) (B.state r.0.disk)) }
        ensures durable { IfOk result (λ r. Only (B.state r.0.disk).content (B.state r.0.disk).images) }
        ensures count { IfOk result (λ r. length r.1.items ≡ passes) }
        ensures fresh { IfOk result (λ r. AreFresh r.0.table r.0.base total r.1.items) }
        ensures passes { IfOk result (λ r. All (IsPassAt r.0.table r.0.total) r.1.items) }
        ensures cause { IfErr result (λ e. (bytes : List ℕ) → (B.state disk).content ≡ Some bytes
            → (fault : StartFault) → e.0 ≡ store.Journal fault
            → CeilingStartCause id.now total bytes fault) }
        ensures device { IfErr result (λ e. e.0 ≡ store.Journal start.Device
            → Rose (B.state disk).faults (B.state e.1).faults) }
        ensures faults_grow { IfErr result (λ e. (B.state disk).faults ≤ (B.state e.1).faults) }
        ensures stays_refused { IfErr result (λ e.
            Stays (B.state disk) (B.state e.1)) }
    {
        let journal = match Twin::start(disk, JournalKind::Ceilings, id, total) {
            Ok(journal) => journal,
            Err((fault, disk)) => return Err((StoreFault::Journal(fault), disk)),
        };
        let base = journal.last().0;
        let keeper = CeilingJournal {
            journal,
            id: *id,
            total,
        };
        match lease_words::start(alloc, keeper, base, total, passes) {
            Ok((words, seat, passes)) => {
                let parts = LeaseParts { words, seat };
                Ok((parts, passes))
            }
            Err((AllocError, keeper)) => {
                let CeilingJournal { journal, .. } = keeper;
                Err((StoreFault::NoMemory, journal.into_disk()))
            }
        }
    }

    /// The first unit of the store's era: the ceiling that the journal says.
    pub fn base(&self) -> u64
        ensures { result ≡ self.now.base }
    {
        self.seat.keeper().journal.last().0
    }

    /// The disk as it stands.
    pub fn into_disk(self) -> B
        ensures { result ≡ self.disk }
    {
        let LeaseParts { seat, .. } = self;
        let CeilingJournal { journal, .. } = seat.into_keeper();
        journal.into_disk()
    }

    /// The store, under the name of these parts.
    pub fn named<N: LeaseName>(self) -> LeaseStore<B, N>
        requires table { self.table ≡ N.table }
        requires total { self.total ≡ N.total }
        requires passes { self.passes ≡ N.passes }
        requires base { self.base ≡ N.base }
        requires header { (bytes : List ℕ) → (B.state self.disk).content ≡ Some bytes
            → HasCeilingHeader N.id N.total bytes }
        requires begins { Begins N.start (B.state self.disk) }
        ensures base { result.base ≡ self.base }
    {
        let LeaseParts { words, seat } = self;
        let desk = Desk::new(seat);
        LeaseStore {
            words,
            desk: Mutex::new(desk),
        }
    }
}
