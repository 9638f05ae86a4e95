// The loop over the links of a door.
ghost use Rattle.std.specs.Prelude.{◌≡◌, ℕ, List, [], Some, All, AllPairs, IfSome, length};
ghost use Rattle.lease_store.specs.Ceilings.{HasCeilingHeader};
ghost use Rattle.lease_store.specs.Desks.{Begins};
ghost use Rattle.lease_store.specs.Leases.{IsPassAt};
ghost use Rattle.session_pool.specs.Doors.{TakesLinks};
ghost use Rattle.zk_model.specs.declared.limits.TheConstants.{MAX_NODES};
ghost use Rattle.broker_service.specs.Granted.{AreOneOrApart, IsJournals, IsSafeBlock, refusal, sent_block};
ghost use Rattle.broker_service.specs.Left.{IsBrokered, IsService};
ghost use Rattle.broker_service.specs.Turns.{AreSomeExchanges, keeping};

use crate::brokered::{Brokered, Teller};
use crate::lender::answer_one;
use broker_core::BrokerCore;
use broker_links::BrokerNote;
use lease_store::{LeaseFault, LeaseName, LeaseParts, LeaseStore};
use lease_words::Pass;
use std::alloc::Global;
use std::marker::Brand;
use std::sync::Wait;
use std::thread::Threads;
use zk_model::MAX_NODES;
use zk_port::{Disk, Door, PortFault};

/// Why no more links were taken.
#[derive(Clone, Copy)]
struct Stop {
    door_failed: bool,
    memory_failed: bool,
}

/// As many links were taken as are wanted, or the door has no more.
const DONE: Stop = Stop {
    door_failed: false,
    memory_failed: false,
};

/// Memory was missing.
const STARVED: Stop = Stop {
    door_failed: false,
    memory_failed: true,
};

/// Answers over one link of the door after another, so many at most, until the door has none left, fails or finds no memory.
fn answer_links<R, D, B, N, T>(
    rt: &R,
    alloc: Global,
    core: &mut BrokerCore,
    store: &LeaseStore<B, N>,
    pass: &mut Pass,
    door: &mut D,
    asks: u32,
    notes: &mut Vec<BrokerNote<D::Link, LeaseFault>>,
    teller: &mut T,
) -> Stop
where
    R: Threads + Wait + Sync,
    D: Door,
    B: Disk,
    N: LeaseName,
    T: Teller,
    requires nodes { length core.old ≡ MAX_NODES }
    requires own { IsPassAt N.table N.total pass.old }
    requires none { notes.old.items ≡ [] }
    ensures own { IsPassAt N.table N.total pass.new }
    ensures taken { TakesLinks asks (length notes.new.items) result.door_failed result.memory_failed
        (D.state door.old) (D.state door.new) }
    ensures notes { AreSomeExchanges D.Link.state B.state notes.new.items
        (keeping core.old pass.old) (keeping core.new pass.new) }
{
    'links: for _ in 0..asks {
        if notes.reserve(1).is_err() {
            return STARVED;
        }
        let link = match door.next(alloc) {
            Ok(Some(link)) => link,
            Ok(None) => return DONE,
            Err(PortFault::NoMemory) => return STARVED,
            Err(PortFault::Failed) => {
                return Stop {
                    door_failed: true,
                    memory_failed: false,
                };
            }
        };
        let note = answer_one(rt, alloc, core, store, pass, link);
        teller.tell(alloc, &note);
        notes.push_reserved(note);
    }
    DONE
}

/// The same by the one pass, from a core that keeps nothing of any node.
fn answer_from_none<R, D, B, N, T>(
    rt: &R,
    alloc: Global,
    store: &LeaseStore<B, N>,
    passes: &mut Vec<Pass>,
    door: &mut D,
    asks: u32,
    notes: &mut Vec<BrokerNote<D::Link, LeaseFault>>,
    teller: &mut T,
) -> Stop
where
    R: Threads + Wait + Sync,
    D: Door,
    B: Disk,
    N: LeaseName,
    T: Teller,
    requires one { length passes.old.items ≡ 1 }
    requires own { All (IsPassAt N.table N.total) passes.old.items }
    requires none { notes.old.items ≡ [] }
    ensures one { length passes.new.items ≡ 1 }
    ensures own { All (IsPassAt N.table N.total) passes.new.items }
    ensures taken { TakesLinks asks (length notes.new.items) result.door_failed result.memory_failed
        (D.state door.old) (D.state door.new) }
    ensures served { IsService D.Link.state B.state passes.old.items passes.new.items notes.new.items }
{
    match BrokerCore::new(alloc, MAX_NODES) {
        Ok(mut core) => answer_links(
            rt,
            alloc,
            &mut core,
            store,
            &mut passes[0],
            door,
            asks,
            notes,
            teller,
        ),
        Err(_) => Stop {
            door_failed: false,
            memory_failed: asks > 0,
        },
    }
}

/// The whole service, under the name of the store.
fn answer_named<R, D, B, N, T>(
    rt: &R,
    alloc: Global,
    parts: LeaseParts<B>,
    mut passes: Vec<Pass>,
    mut door: D,
    asks: u32,
    id: &[u8; 32],
    teller: &mut T,
) -> Brokered<D::Link, D, B>
where
    R: Threads + Wait + Sync,
    D: Door,
    B: Disk,
    N: LeaseName,
    T: Teller,
    requires table { parts.table ≡ N.table }
    requires total { parts.total ≡ N.total }
    requires passes { parts.passes ≡ N.passes }
    requires base { parts.base ≡ N.base }
    requires header { (bytes : List ℕ) → (B.state parts.disk).content ≡ Some bytes
        → HasCeilingHeader N.id N.total bytes }
    requires id { id.now ≡ N.id }
    requires begins { Begins N.start (B.state parts.disk) }
    requires own { All (IsPassAt N.table N.total) passes.items }
    requires one { (length passes.items ≡ 1) × (N.passes ≡ 1) }
    ensures taken { TakesLinks asks (length result.notes.items) result.door_failed result.memory_failed
        (D.state door) (D.state result.door) }
    ensures left { IsBrokered D.Link.state B.state N.start (B.state result.disk) N.id parts.base N.total
        passes.items result.notes.items }
    ensures once { AllPairs (λ m n. AreOneOrApart (sent_block m.outcome) (sent_block n.outcome))
        result.notes.items }
    ensures safe { All (λ note. IfSome (sent_block note.outcome) (IsSafeBlock B.state parts.base N.total))
        result.notes.items }
    ensures refused { All (λ note. IfSome (refusal note.outcome) IsJournals) result.notes.items }
{
    let _id = id;
    let store = parts.named::<N>();
    let mut notes = Vec::new(alloc);
    let stop = answer_from_none(
        rt,
        alloc,
        &store,
        &mut passes,
        &mut door,
        asks,
        &mut notes,
        teller,
    );
    let disk = store.close(passes);
    Brokered {
        notes,
        door,
        disk,
        door_failed: stop.door_failed,
        memory_failed: stop.memory_failed,
    }
}

/// Answers the wants of the nodes that call at the door, one link after another, so many at most, by the one pass of a store whose
/// file has this id. Of each node it keeps the last want that was granted, in memory alone. Each exchange is told to the teller once
/// it ended. The call may wait.
pub fn answer_all<R, D, B, T>(
    rt: &R,
    alloc: Global,
    parts: LeaseParts<B>,
    passes: Vec<Pass>,
    door: D,
    asks: u32,
    id: &[u8; 32],
    teller: &mut T,
) -> Brokered<D::Link, D, B>
where
    R: Threads + Wait + Sync,
    D: Door,
    B: Disk,
    T: Teller,
    requires own { All (IsPassAt parts.table parts.total) passes.items }
    requires all { length passes.items ≡ parts.passes }
    requires one { parts.passes ≡ 1 }
    requires header { (bytes : List ℕ) → (B.state parts.disk).content ≡ Some bytes
        → HasCeilingHeader id.now parts.total bytes }
    requires begins { Begins (B.state parts.disk) (B.state parts.disk) }
    ensures taken { TakesLinks asks (length result.notes.items) result.door_failed result.memory_failed
        (D.state door) (D.state result.door) }
    ensures left { IsBrokered D.Link.state B.state (B.state parts.disk) (B.state result.disk) id.now
        parts.base parts.total passes.items result.notes.items }
    ensures once { AllPairs (λ m n. AreOneOrApart (sent_block m.outcome) (sent_block n.outcome))
        result.notes.items }
    ensures safe { All (λ note. IfSome (sent_block note.outcome) (IsSafeBlock B.state parts.base parts.total))
        result.notes.items }
    ensures refused { All (λ note. IfSome (refusal note.outcome) IsJournals) result.notes.items }
{
    answer_named::<R, D, B, Brand, T>(rt, alloc, parts, passes, door, asks, id, teller)
}
