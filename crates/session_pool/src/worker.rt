// Who serves.
ghost use Rattle.std.specs.Prelude.{◌≡◌, ◌+◌, true, MatchBool};
ghost use Rattle.lease_store.specs.Leases.{IsPassAt};
ghost use Rattle.session_pool.specs.Notes.{IsUnused};
ghost use Rattle.session_pool.specs.Works.{IsShiftOf};

use crate::doorway::{Doorway, take_next};
use crate::lender::serve_one;
use crate::session::Session;
use crate::shift::Shift;
use lease_store::{LeaseName, LeaseStore};
use lease_words::Pass;
use std::alloc::Global;
use std::marker::{Model, PhantomData};
use std::sync::ledger::Share;
use std::sync::{Mutex, Wait};
use std::thread::Threads;
use zk_port::{Disk, Door, Link};

/// Serves one peer after another: with a pass and a share of its own, and the notes so far.
#[derive(Drop)]
pub(crate) struct Worker<M, N: LeaseName, W: Shift<M>> {
    pub(crate) pass: Pass,
    pub(crate) share: Share<W>,
    pub(crate) notes: Vec<M>,
    pub(crate) store: PhantomData<N>,
}

impl<M, N: LeaseName, W: Shift<M>> Model for Worker<M, N, W> {
    ghost use Rattle.session_pool.specs.Works as works;

    ghost Value = { Unit {0} };

    ghost view = { λ w. tt };

    ghost invariant = { λ w. works.IsWorker W.granted W.refused W.is_note W.fresh W.size
        N.table N.total w.pass w.share.parts w.share.amount w.notes.items };
}

impl<M, N: LeaseName, W: Shift<M>> Worker<M, N, W> {
    /// One that has not served.
    pub(crate) fn new(alloc: Global, pass: Pass, share: Share<W>) -> Self
        requires own { IsPassAt N.table N.total pass }
        requires part { share.parts ≡ 1 }
        requires none { share.amount ≡ 0 }
        requires fresh { W.fresh → IsUnused pass }
    {
        Worker {
            pass,
            share,
            notes: Vec::new(alloc),
            store: PhantomData,
        }
    }

    /// Serves the next peer, if there is one.
    fn serve_next<L, S, D, B, R>(
        &mut self,
        rt: &R,
        alloc: Global,
        session: &S,
        store: &LeaseStore<B, N>,
        doorway: &Mutex<Doorway<D, W>>,
    ) -> bool
    where
        L: Link,
        S: Session<L, Note = M>,
        D: Door<Link = L>,
        B: Disk,
        R: Threads + Wait + Sync,
        requires { IsShiftOf W.is_note W.granted W.refused W.size N.total
            (S.is_note session.now) S.granted S.refused (S.size session.now) (S.total session.now) }
    {
        let Some(link) = take_next(rt, alloc, doorway, &mut self.share, &mut self.notes) else {
            return false;
        };
        let note = serve_one(rt, alloc, session, store, &mut self.pass, link);
        self.notes.push_reserved(note);
        true
    }

    /// Serves until no peer is left, or as many sessions as are wanted were given out.
    pub(crate) fn serve<L, S, D, B, R>(
        &mut self,
        rt: &R,
        alloc: Global,
        session: &S,
        store: &LeaseStore<B, N>,
        doorway: &Mutex<Doorway<D, W>>,
        sessions: u32,
    )
    where
        L: Link,
        S: Session<L, Note = M>,
        D: Door<Link = L>,
        B: Disk,
        R: Threads + Wait + Sync,
        requires { IsShiftOf W.is_note W.granted W.refused W.size N.total
            (S.is_note session.now) S.granted S.refused (S.size session.now) (S.total session.now) }
    {
        for _ in 0..sessions {
            if !self.serve_next(rt, alloc, session, store, doorway) {
                return;
            }
        }
    }

    /// Serves the next peer, if there is one, where no other thread does.
    pub(crate) fn serve_alone<L, S, D, B, R>(
        &mut self,
        rt: &R,
        alloc: Global,
        session: &S,
        store: &LeaseStore<B, N>,
        doorway: &mut Doorway<D, W>,
    ) -> bool
    where
        L: Link,
        S: Session<L, Note = M>,
        D: Door<Link = L>,
        B: Disk,
        R: Threads + Wait + Sync,
        requires { IsShiftOf W.is_note W.granted W.refused W.size N.total
            (S.is_note session.now) S.granted S.refused (S.size session.now) (S.total session.now) }
        ensures { MatchBool result (doorway.new.wanted + 1 ≡ doorway.old.wanted)
            (doorway.new.is_done ≡ true) }
    {
        let Some(link) = doorway.take(alloc, &mut self.share, &mut self.notes) else {
            return false;
        };
        let note = serve_one(rt, alloc, session, store, &mut self.pass, link);
        self.notes.push_reserved(note);
        true
    }
}
