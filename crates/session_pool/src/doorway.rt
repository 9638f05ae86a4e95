// What stands behind the lock.
ghost use Rattle.std.specs.Prelude.{◌≡◌, ◌+◌, ◌<◌, ◌≤◌, true, vec_len, vec_capacity, MatchOption, IfSome};
ghost use Rattle.zk_port.specs.Doors.{IsFreshLink};
ghost use Rattle.session_pool.specs.Doors.{TakesLinks};

use crate::served::Served;
use crate::shift::Run;
use std::alloc::Global;
use std::marker::Model;
use std::sync::ledger::{Book, Share};
use std::sync::{Mutex, Wait};
use zk_port::{Door, PortFault};

/// The door, and the count of the links that left it. It is not asked again once it failed, found no memory, had none left, or
/// gave as many links as sessions are wanted, nor once a worker found no room for a note. Contracts see how many links are still
/// wanted, whether it is done, and whether a worker was starved so.
#[derive(Drop)]
pub(crate) struct Doorway<D: Door, W: Run> {
    door: D,
    book: Book<W>,
    taken: u32,
    sessions: u32,
    emptied: bool,
    door_failed: bool,
    memory_failed: bool,
    starved: bool,
}

impl<D: Door, W: Run> Model for Doorway<D, W> {
    ghost use Rattle.std.specs.Prelude.{◌≡◌, ◌<◌, ◌-◌, ◌||◌, true};
    ghost use Rattle.session_pool.specs.Doorways as doors;

    ghost Value = { doors.DoorwayState };

    ghost view = { λ d. record {
      wanted = d.sessions - d.taken;
      is_done = doors.is_done d.taken d.sessions d.emptied d.door_failed (d.memory_failed || d.starved);
      starved = d.starved;
    } };

    ghost invariant = { λ d. doors.IsDoorway W.first W.sessions (D.state d.door)
        d.book.total d.taken d.sessions d.emptied d.door_failed d.memory_failed
        × (d.starved ≡ true → d.taken < d.sessions) };
}

impl<D: Door, W: Run> Doorway<D, W> {
    /// Before any link is taken.
    pub(crate) fn new(door: D, book: Book<W>, sessions: u32) -> Self
        requires first { D.state door ≡ W.first }
        requires sessions { sessions ≡ W.sessions }
        requires total { book.total ≡ 0 }
    {
        Doorway {
            door,
            book,
            taken: 0,
            sessions,
            emptied: false,
            door_failed: false,
            memory_failed: false,
            starved: false,
        }
    }

    /// Whether the door is not asked again.
    pub(crate) fn is_done(&self) -> bool
        ensures { result ≡ self.now.is_done }
    {
        self.taken == self.sessions
            || self.emptied
            || self.door_failed
            || self.memory_failed
            || self.starved
    }

    /// A fresh link, which the share counts, and room for one more note; or none, and then it is done.
    pub(crate) fn take<M>(
        &mut self,
        alloc: Global,
        mine: &mut Share<W>,
        notes: &mut Vec<M>,
    ) -> Option<D::Link>
        requires { 0 < mine.old.parts }
        ensures fresh { IfSome result (λ link. IsFreshLink (D.Link.state link)) }
        ensures parts { mine.new.parts ≡ mine.old.parts }
        ensures amount { MatchOption result (mine.new.amount ≡ mine.old.amount)
            (λ _. mine.new.amount ≡ mine.old.amount + 1) }
        ensures wanted { MatchOption result (self.new.is_done ≡ true)
            (λ _. self.new.wanted + 1 ≡ self.old.wanted) }
        ensures notes { notes.new.items ≡ notes.old.items }
        ensures room { IfSome result (λ _. vec_len notes.new < vec_capacity notes.new) }
    {
        if self.is_done() {
            return None;
        }
        if notes.reserve(1).is_err() {
            self.starved = true;
            return None;
        }
        match self.door.next(alloc) {
            Err(PortFault::Failed) => self.door_failed = true,
            Err(PortFault::NoMemory) => self.memory_failed = true,
            Ok(None) => self.emptied = true,
            Ok(Some(link)) => {
                self.book.add(mine, 1);
                self.taken += 1;
                return Some(link);
            }
        }
        None
    }

    /// No share has counted more links than sessions are wanted.
    pub(crate) fn bound(&mut self, mine: &mut Share<W>)
        ensures same { self.new ≡ self.old }
        ensures parts { mine.new.parts ≡ mine.old.parts }
        ensures amount { mine.new.amount ≡ mine.old.amount }
        ensures bound { mine.new.amount ≤ W.sessions }
    {
        self.book.audit(mine);
    }

    /// Ends it, with all shares in one: what came of the run that made these notes and left this disk.
    pub(crate) fn close<M, B>(
        mut self,
        mut all: Share<W>,
        notes: Vec<M>,
        disk: B,
    ) -> Served<M, D, B>
        requires { all.parts ≡ W.parts }
        ensures taken { TakesLinks W.sessions all.amount result.door_failed result.memory_failed
            W.first (D.state result.door) }
        ensures starved { self.starved ≡ true → result.memory_failed ≡ true }
        ensures notes { result.notes ≡ notes }
        ensures disk { result.disk ≡ disk }
    {
        let is_done = self.is_done();
        self.book.audit(&mut all);
        let Doorway {
            door,
            door_failed,
            memory_failed,
            starved,
            ..
        } = self;
        Served {
            notes,
            door,
            disk,
            door_failed,
            memory_failed: memory_failed || starved || !is_done,
        }
    }
}

/// A fresh link of the door behind the lock, which the share counts, and room for one more note; or none.
pub(crate) fn take_next<D: Door, W: Run, M, R: Wait>(
    rt: &R,
    alloc: Global,
    doorway: &Mutex<Doorway<D, W>>,
    mine: &mut Share<W>,
    notes: &mut Vec<M>,
) -> Option<D::Link>
    requires { 0 < mine.old.parts }
    ensures fresh { IfSome result (λ link. IsFreshLink (D.Link.state link)) }
    ensures parts { mine.new.parts ≡ mine.old.parts }
    ensures amount { MatchOption result (mine.new.amount ≡ mine.old.amount)
        (λ _. mine.new.amount ≡ mine.old.amount + 1) }
    ensures notes { notes.new.items ≡ notes.old.items }
    ensures room { IfSome result (λ _. vec_len notes.new < vec_capacity notes.new) }
{
    doorway.lock(rt).take(alloc, mine, notes)
}
