// A door in memory that hands out the links it was given.
ghost use Rattle.std.specs.Prelude.{◌≡◌, ◌≤◌, ◌+◌, ◌++◌, ◌||◌, ◌&&◌, ◌==◌, ℕ, [], ◌∷◌, true, false, not, map, Some, OnOk, OnErr, IfOk, IfSome, IsTrue, is_err};
ghost use Rattle.std.specs.List.{list_all};
ghost use Rattle.std.specs.VecDeque.{deque_len};
ghost use Rattle.zk_port.specs.Counts.{counted, is_failed};
ghost use Rattle.zk_port.specs.Doors.{IsFreshLink, unasked_door};
ghost use Rattle.memory_ports.specs.Doors.{is_fresh, GivesFirst};
ghost use Rattle.memory_ports.specs.Asking.{NotesAsked, asked_of};

use crate::plan::FaultPlan;
use std::alloc::{AllocError, Global};
use std::collections::VecDeque;
use zk_port::{Door, Link, PortFault};

/// What a door was asked to listen at, or to connect to: an address, and the patience of its links.
#[derive(Drop)]
pub struct Asked {
    address: String,
    patience: u32,
}

/// A door in memory. `next` gives the links that wait, first come first, and `connect` those to be called.
/// Exactly the calls that the plan names fail, and a connect that finds no link; under a plan by which
/// nothing may fail, such a connect finds no memory. A call that by the plan finds no memory gives nothing. Each address that it is asked for is noted, if there is memory.
#[derive(Drop)]
pub struct MemoryDoor<L: Link, P> {
    waiting: VecDeque<L>,
    called: VecDeque<L>,
    listened: Vec<Asked>,
    connected: Vec<Asked>,
    made: u64,
    nexts: u64,
    listen_faults: u64,
    connect_faults: u64,
    next_faults: u64,
    plan: P,
    ghost fresh_waiting: { list_all (λ l. is_fresh (L.state l)) waiting.items ≡ true },
    ghost fresh_called: { list_all (λ l. is_fresh (L.state l)) called.items ≡ true },
}

/// Notes what is asked after the others; without memory for it nothing changes.
fn note(alloc: Global, all: &mut Vec<Asked>, address: &str, patience: u32) -> Result<(), AllocError>
    ensures noted { OnOk result (map asked_of all.new.items
        ≡ map asked_of all.old.items ++ (address.now, patience) ∷ []) }
    ensures refused { OnErr result (all.new.items ≡ all.old.items) }
{
    let address = String::from_str(alloc, address)?;
    all.push(Asked { address, patience })?;
    Ok(())
}

impl<L: Link, P: FaultPlan> MemoryDoor<L, P> {
    /// A door with no links, of which nothing was asked yet.
    pub fn new(alloc: Global, plan: P) -> Self
        ensures waiting { result.waiting.items ≡ [] }
        ensures called { result.called.items ≡ [] }
        ensures state { ⟦<MemoryDoor<L, P> as Door>⟧.state result ≡ unasked_door (λ _. 0) (Some []) }
        ensures plan { result.plan ≡ plan }
    {
        MemoryDoor {
            waiting: VecDeque::new(alloc),
            called: VecDeque::new(alloc),
            listened: Vec::new(alloc),
            connected: Vec::new(alloc),
            made: 0,
            nexts: 0,
            listen_faults: 0,
            connect_faults: 0,
            next_faults: 0,
            plan,
        }
    }

    /// Adds a link that `next` will give after all others; without memory for it nothing changes.
    pub fn wait(&mut self, link: L) -> Result<(), AllocError>
    where
        L: Drop,
        requires { IsFreshLink (L.state link) }
        ensures added { OnOk result (self.new.waiting.items ≡ self.old.waiting.items ++ link ∷ []) }
        ensures refused { OnErr result (self.new.waiting.items ≡ self.old.waiting.items) }
        ensures called { self.new.called ≡ self.old.called }
        ensures plan { self.new.plan ≡ self.old.plan }
    {
        self.waiting.push_back(link)?;
        Ok(())
    }

    /// Adds a link that `connect` will give after all others; without memory for it nothing changes.
    pub fn call(&mut self, link: L) -> Result<(), AllocError>
    where
        L: Drop,
        requires { IsFreshLink (L.state link) }
        ensures added { OnOk result (self.new.called.items ≡ self.old.called.items ++ link ∷ []) }
        ensures refused { OnErr result (self.new.called.items ≡ self.old.called.items) }
        ensures waiting { self.new.waiting ≡ self.old.waiting }
        ensures plan { self.new.plan ≡ self.old.plan }
    {
        self.called.push_back(link)?;
        Ok(())
    }
}

impl<L: Link, P: FaultPlan> Door for MemoryDoor<L, P> {
    ghost use Rattle.std.specs.Prelude.{Some, map};
    ghost use Rattle.std.specs.VecDeque.{deque_len};
    ghost use Rattle.memory_ports.specs.Asking.{asked_of};

    type Link = L;

    ghost state = { λ d. record {
      left = deque_len d.waiting;
      offers = λ _. deque_len d.waiting;
      listened = Some (map asked_of d.listened.items);
      connected = Some (map asked_of d.connected.items);
      made = d.made;
      nexts = d.nexts;
      listen_faults = d.listen_faults;
      connect_faults = d.connect_faults;
      next_faults = d.next_faults;
    } };

    fn listen(
        &mut self,
        alloc: Global,
        address: &str,
        patience: u32,
        _sessions: u32,
    ) -> Result<(), PortFault>
        ensures listened { OnOk result (map asked_of self.new.listened.items
            ≡ map asked_of self.old.listened.items ++ (address.now, patience) ∷ []) }
        ensures noted { OnErr result (NotesAsked (address.now, patience)
            (map asked_of self.old.listened.items) (map asked_of self.new.listened.items)) }
        ensures waiting { self.new.waiting ≡ self.old.waiting }
        ensures called { self.new.called ≡ self.old.called }
        ensures connected { self.new.connected ≡ self.old.connected }
        ensures faults_grow { self.old.listen_faults ≤ self.new.listen_faults }
        ensures failed { self.new.listen_faults ≡ counted (is_failed result) self.old.listen_faults }
        ensures connects { self.new.connect_faults ≡ self.old.connect_faults }
        ensures nexts { self.new.next_faults ≡ self.old.next_faults }
        ensures uncalled { self.new.nexts ≡ self.old.nexts }
        ensures made { self.new.made ≡ self.old.made }
        ensures fails { is_failed result ≡ P.coming self.old.plan 0 }
        ensures onward { (n : ℕ) → P.coming self.new.plan n ≡ P.coming self.old.plan (n + 1) }
    {
        let noted = note(alloc, &mut self.listened, address, patience);
        if self.plan.fails() {
            self.listen_faults = self.listen_faults.saturating_add(1);
            return Err(PortFault::Failed);
        }
        if self.plan.lacks() {
            return Err(PortFault::NoMemory);
        }
        noted?;
        Ok(())
    }

    fn address(&self, alloc: Global) -> Result<String, AllocError> {
        match self.listened.last() {
            Some(asked) => String::from_str(alloc, &asked.address),
            None => Err(AllocError),
        }
    }

    fn connect(&mut self, alloc: Global, address: &str, patience: u32) -> Result<L, PortFault>
        ensures given { IfOk result (λ link. self.old.called.items ≡ link ∷ self.new.called.items) }
        ensures fresh { IfOk result (λ link. IsFreshLink (L.state link)) }
        ensures connected { OnOk result (map asked_of self.new.connected.items
            ≡ map asked_of self.old.connected.items ++ (address.now, patience) ∷ []) }
        ensures noted { OnErr result (NotesAsked (address.now, patience)
            (map asked_of self.old.connected.items) (map asked_of self.new.connected.items)) }
        ensures refused { OnErr result (self.new.called.items ≡ self.old.called.items) }
        ensures waiting { self.new.waiting ≡ self.old.waiting }
        ensures listened { self.new.listened ≡ self.old.listened }
        ensures faults_grow { self.old.connect_faults ≤ self.new.connect_faults }
        ensures failed { self.new.connect_faults ≡ counted (is_failed result) self.old.connect_faults }
        ensures listens { self.new.listen_faults ≡ self.old.listen_faults }
        ensures nexts { self.new.next_faults ≡ self.old.next_faults }
        ensures uncalled { self.new.nexts ≡ self.old.nexts }
        ensures made { OnOk result (self.new.made ≡ counted true self.old.made) }
        ensures unmade { OnErr result (self.new.made ≡ self.old.made) }
        ensures fails { P.coming self.old.plan 0 ≡ true → IsTrue (is_failed result) }
        ensures onward { (n : ℕ) → P.coming self.new.plan n ≡ P.coming self.old.plan (n + 1) }
    {
        let noted = note(alloc, &mut self.connected, address, patience);
        if self.plan.fails() {
            self.connect_faults = self.connect_faults.saturating_add(1);
            return Err(PortFault::Failed);
        }
        if self.plan.lacks() {
            return Err(PortFault::NoMemory);
        }
        noted?;
        match self.called.pop_front() {
            Some(link) => {
                self.made = self.made.saturating_add(1);
                Ok(link)
            }
            None => {
                if self.plan.fails_without() {
                    self.connect_faults = self.connect_faults.saturating_add(1);
                    Err(PortFault::Failed)
                } else {
                    Err(PortFault::NoMemory)
                }
            }
        }
    }

    fn next(&mut self, _alloc: Global) -> Result<Option<L>, PortFault>
        ensures given { IfOk result
            (λ given. GivesFirst given self.old.waiting.items self.new.waiting.items) }
        ensures fresh { IfOk result (λ given. IfSome given (λ link. IsFreshLink (L.state link))) }
        ensures refused { OnErr result (self.new.waiting.items ≡ self.old.waiting.items) }
        ensures memory { OnErr result (P.lacking self.old.plan ≡ false → IsTrue (is_failed result)) }
        ensures called { self.new.called ≡ self.old.called }
        ensures listened { self.new.listened ≡ self.old.listened }
        ensures connected { self.new.connected ≡ self.old.connected }
        ensures nexts { self.new.nexts ≡ counted true self.old.nexts }
        ensures faults_grow { self.old.next_faults ≤ self.new.next_faults }
        ensures failed { self.new.next_faults ≡ counted (is_failed result) self.old.next_faults }
        ensures listens { self.new.listen_faults ≡ self.old.listen_faults }
        ensures connects { self.new.connect_faults ≡ self.old.connect_faults }
        ensures made { self.new.made ≡ self.old.made }
        ensures fails { is_failed result ≡ P.coming self.old.plan 0 }
        ensures onward { (n : ℕ) → P.coming self.new.plan n ≡ P.coming self.old.plan (n + 1) }
    {
        self.nexts = self.nexts.saturating_add(1);
        if self.plan.fails() {
            self.next_faults = self.next_faults.saturating_add(1);
            return Err(PortFault::Failed);
        }
        if self.plan.lacks() {
            return Err(PortFault::NoMemory);
        }
        Ok(self.waiting.pop_front())
    }
}
