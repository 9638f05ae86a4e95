// The sessions with all peers that call.
ghost use Rattle.std.specs.Prelude.{◌≡◌, ◌+◌, ◌<◌, ◌≤◌, ℕ, List, true, [], Some, IfSome, All, AllPairs, length, vec_len, vec_capacity};
ghost use Rattle.std.specs.Thread.{IsSync};
ghost use Rattle.lease_store.specs.Ceilings.{HasCeilingHeader};
ghost use Rattle.lease_store.specs.Desks.{Begins};
ghost use Rattle.lease_store.specs.Leases.{IsPassAt};
ghost use Rattle.session_pool.specs.Doors.{TakesLinks};
ghost use Rattle.session_pool.specs.Notes.{AreGrantsApart, IsLeft, IsNoteOf, IsRefusedAmong, IsUnused};
ghost use Rattle.session_pool.specs.Works.{AreBack, IsShiftOf};

use crate::doorway::Doorway;
use crate::served::Served;
use crate::session::Session;
use crate::shift::Shift;
use crate::worker::Worker;
use lease_store::{LeaseName, LeaseParts, LeaseStore};
use lease_words::Pass;
use std::alloc::Global;
use std::marker::Brand;
use std::sync::ledger::{Blank, Share};
use std::sync::{Mutex, Wait};
use std::thread;
use std::thread::Threads;
use zk_port::{Disk, Door, Link};

/// A worker for each pass, with a part of the ledger.
fn hire<M: Drop, N: LeaseName, W: Shift<M>>(
    alloc: Global,
    passes: &mut Vec<Pass>,
    workers: &mut Vec<Worker<M, N, W>>,
    all: &mut Share<W>,
)
    requires own { All (IsPassAt N.table N.total) passes.old.items }
    requires fresh { W.fresh → All IsUnused passes.old.items }
    requires room { vec_len workers.old + vec_len passes.old ≤ vec_capacity workers.old }
    requires parts { vec_len passes.old < all.old.parts }
    requires amount { all.old.amount ≡ 0 }
    ensures none { passes.new.items ≡ [] }
    ensures room { vec_capacity passes.new ≡ vec_capacity passes.old }
    ensures hired { vec_len workers.new ≡ vec_len workers.old + vec_len passes.old }
    ensures parts { all.new.parts + vec_len passes.old ≡ all.old.parts }
    ensures amount { all.new.amount ≡ 0 }
{
    while let Some(pass) = passes.pop() {
        let share = all.split_off(1, 0);
        workers.push_reserved(Worker::new(alloc, pass, share));
    }
}

/// Takes a worker apart: its pass, its share and its notes come back.
fn take_back<M: Drop, N: LeaseName, W: Shift<M>, D: Door>(
    worker: Worker<M, N, W>,
    passes: &mut Vec<Pass>,
    notes: &mut Vec<M>,
    all: &mut Share<W>,
    doorway: &mut Doorway<D, W>,
)
    requires room { vec_len passes.old < vec_capacity passes.old }
    requires notes { W.sessions ≤ vec_capacity notes.old }
    requires back { AreBack W.granted W.refused W.is_note W.fresh W.size
        N.table N.total passes.old.items all.old.amount notes.old.items }
    ensures room { vec_capacity passes.new ≡ vec_capacity passes.old }
    ensures one { vec_len passes.new ≡ vec_len passes.old + 1 }
    ensures notes { vec_capacity notes.old ≤ vec_capacity notes.new }
    ensures parts { all.new.parts ≡ all.old.parts + 1 }
    ensures doorway { doorway.new ≡ doorway.old }
    ensures back { AreBack W.granted W.refused W.is_note W.fresh W.size
        N.table N.total passes.new.items all.new.amount notes.new.items }
{
    let Worker {
        pass,
        share,
        notes: mut own,
        ..
    } = worker;
    all.merge(share);
    doorway.bound(all);
    let _moved = notes.append(&mut own);
    passes.push_reserved(pass);
}

/// Takes all workers apart.
fn take_all_back<M: Drop, N: LeaseName, W: Shift<M>, D: Door>(
    mut workers: Vec<Worker<M, N, W>>,
    passes: &mut Vec<Pass>,
    notes: &mut Vec<M>,
    all: &mut Share<W>,
    doorway: &mut Doorway<D, W>,
)
    requires none { passes.old.items ≡ [] }
    requires no_notes { notes.old.items ≡ [] }
    requires room { vec_len workers ≤ vec_capacity passes.old }
    requires notes { W.sessions ≤ vec_capacity notes.old }
    requires amount { all.old.amount ≡ 0 }
    ensures parts { all.new.parts ≡ all.old.parts + vec_len workers }
    ensures each { vec_len passes.new ≡ vec_len workers }
    ensures back { AreBack W.granted W.refused W.is_note W.fresh W.size
        N.table N.total passes.new.items all.new.amount notes.new.items }
{
    while let Some(worker) = workers.pop() {
        take_back(worker, passes, notes, all, doorway);
    }
}

/// Goes on with one worker, where no other thread serves, until the door is done.
fn serve_rest<M, L, S, N, W, D, B, R>(
    rt: &R,
    alloc: Global,
    session: &S,
    store: &LeaseStore<B, N>,
    worker: &mut Worker<M, N, W>,
    doorway: &mut Doorway<D, W>,
)
where
    L: Link,
    S: Session<L, Note = M>,
    N: LeaseName,
    W: Shift<M>,
    D: Door<Link = L>,
    B: Disk,
    R: Threads + Wait + Sync,
    requires { IsShiftOf W.is_note W.granted W.refused W.size N.total
        (S.is_note session.now) S.granted S.refused (S.size session.now) (S.total session.now) }
    ensures { doorway.new.is_done ≡ true }
{
    'rest: while !doorway.is_done() {
        if !worker.serve_alone(rt, alloc, session, store, doorway) {
            return;
        }
    }
}

/// Serves with all workers at once, and goes on with the first of them.
fn serve_with<M, L, S, N, W, D, B, R>(
    rt: &R,
    alloc: Global,
    session: &S,
    store: &LeaseStore<B, N>,
    workers: &mut Vec<Worker<M, N, W>>,
    doorway: Doorway<D, W>,
    sessions: u32,
) -> Doorway<D, W>
where
    M: Drop + Send,
    L: Link + Drop + Send,
    S: Session<L, Note = M> + Sync,
    N: LeaseName + Send,
    W: Shift<M> + Send,
    D: Door<Link = L> + Send,
    B: Disk + Send,
    R: Threads + Wait + Sync,
    requires some { 0 < vec_len workers.old }
    requires shift { IsShiftOf W.is_note W.granted W.refused W.size N.total
        (S.is_note session.now) S.granted S.refused (S.size session.now) (S.total session.now) }
    ensures { vec_len workers.new ≡ vec_len workers.old }
{
    let doorway = Mutex::new(doorway);
    let threads = workers.len();
    thread::for_each_mut(
        rt,
        workers,
        threads,
        &|_, worker: &mut Worker<M, N, W>|
            requires { IsSync R.row
                × IsShiftOf W.is_note W.granted W.refused W.size N.total
                (S.is_note session.now) S.granted S.refused (S.size session.now) (S.total session.now) }
        { worker.serve(rt, alloc, session, store, &doorway, sessions) },
    );
    let mut doorway = doorway.into_inner();
    serve_rest(rt, alloc, session, store, &mut workers[0], &mut doorway);
    doorway
}

/// All sessions, under the names of the store and of the run.
fn serve_named<M, L, S, N, W, D, B, R>(
    rt: &R,
    alloc: Global,
    session: &S,
    parts: LeaseParts<B>,
    mut passes: Vec<Pass>,
    door: D,
    blank: Blank,
    sessions: u32,
) -> Served<M, D, B>
where
    M: Drop + Send,
    L: Link + Drop + Send,
    S: Session<L, Note = M> + Sync,
    N: LeaseName + Send,
    W: Shift<M> + Send,
    D: Door<Link = L> + Send,
    B: Disk + Send,
    R: Threads + Wait + Sync,
    requires table { parts.table ≡ N.table }
    requires total { parts.total ≡ N.total }
    requires passes { parts.passes ≡ N.passes }
    requires base { parts.base ≡ N.base }
    requires header { (bytes : List ℕ) → (B.state parts.disk).content ≡ Some bytes
        → HasCeilingHeader N.id N.total bytes }
    requires begins { Begins N.start (B.state parts.disk) }
    requires own { All (IsPassAt N.table N.total) passes.items }
    requires all { length passes.items ≡ N.passes }
    requires some { 0 < length passes.items }
    requires name { blank.name ≡ W.name }
    requires shares { blank.parts ≡ W.parts }
    requires one_more { blank.parts ≡ length passes.items + 1 }
    requires shift { IsShiftOf W.is_note W.granted W.refused W.size N.total
        (S.is_note session.now) S.granted S.refused (S.size session.now) (S.total session.now) }
    requires first { D.state door ≡ W.first }
    requires sessions { sessions ≡ W.sessions }
    requires fresh { W.fresh → All IsUnused passes.items }
    ensures notes { All W.is_note result.notes.items }
    ensures taken { TakesLinks W.sessions (length result.notes.items) result.door_failed result.memory_failed
        W.first (D.state result.door) }
    ensures apart { AllPairs (λ m n. AreGrantsApart (W.granted m) (W.granted n)) result.notes.items }
    ensures left { IsLeft W.fresh N.start (B.state result.disk) N.id parts.base N.total N.passes
        W.size W.granted W.refused result.notes.items }
    ensures refused { W.fresh → All (λ note. IfSome (W.refused note)
        (IsRefusedAmong W.size parts.base N.total result.notes.items note)) result.notes.items }
{
    let store = parts.named::<N>();
    let (book, mut all) = blank.open::<W>();
    let doorway = Doorway::new(door, book, sessions);
    let mut notes = Vec::new(alloc);
    let mut workers = Vec::new(alloc);
    if notes.reserve(sessions as usize).is_err() || workers.reserve(passes.len()).is_err() {
        let disk = store.close(passes);
        return doorway.close(all, notes, disk);
    }
    hire::<M, N, W>(alloc, &mut passes, &mut workers, &mut all);
    let mut doorway = serve_with(rt, alloc, session, &store, &mut workers, doorway, sessions);
    take_all_back(workers, &mut passes, &mut notes, &mut all, &mut doorway);
    let disk = store.close(passes);
    doorway.close(all, notes, disk)
}

/// Leads sessions with the peers that call at the door, so many at most, and as many at once as there are passes.
pub fn serve_all<S, D, B, R>(
    rt: &R,
    alloc: Global,
    session: &S,
    parts: LeaseParts<B>,
    passes: Vec<Pass>,
    door: D,
    sessions: u32,
) -> Served<S::Note, D, B>
where
    S: Session<D::Link> + Sync,
    S::Note: Send,
    D: Door + Send,
    D::Link: Drop + Send,
    B: Disk + Send,
    R: Threads + Wait + Sync,
    requires own { All (IsPassAt parts.table parts.total) passes.items }
    requires all { length passes.items ≡ parts.passes }
    requires some { 0 < length passes.items }
    requires total { parts.total ≡ S.total session.now }
    requires header { (bytes : List ℕ) → (B.state parts.disk).content ≡ Some bytes
        → HasCeilingHeader (S.id session.now) parts.total bytes }
    requires begins { Begins (B.state parts.disk) (B.state parts.disk) }
    ensures notes { All (IsNoteOf (S.is_note session.now)) result.notes.items }
    ensures taken { TakesLinks sessions (length result.notes.items) result.door_failed result.memory_failed
        (D.state door) (D.state result.door) }
    ensures apart { AllPairs (λ m n. AreGrantsApart (S.granted m) (S.granted n)) result.notes.items }
    ensures left { IsLeft (All IsUnused passes.items) (B.state parts.disk) (B.state result.disk)
        (S.id session.now) parts.base parts.total parts.passes (S.size session.now) S.granted S.refused
        result.notes.items }
    ensures refused { All IsUnused passes.items → All (λ note. IfSome (S.refused note)
        (IsRefusedAmong (S.size session.now) parts.base parts.total result.notes.items note))
        result.notes.items }
{
    let blank = Blank::new(passes.len() as u64 + 1);
    serve_named::<S::Note, D::Link, S, Brand, Brand, D, B, R>(
        rt, alloc, session, parts, passes, door, blank, sessions,
    )
}
