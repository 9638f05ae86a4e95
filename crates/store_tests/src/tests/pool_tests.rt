// Sessions over doors and disks in memory.
ghost use Rattle.std.specs.Prelude.{◌≡◌, ◌≤◌, ◌<◌, ◌+◌, ◌*◌, ℕ, List, All, IfOk, IfSome, Some, length};
ghost use Rattle.zk_model.specs.declared.limits.TheConstants.{MAX_UNITS};
ghost use Rattle.zk_port.specs.Doors.{IsFreshLink};
ghost use Rattle.lease_store.specs.Leases.{IsPassAt};

use crate::tests::ceiling_disks::{started, sure_ceilings};
use lease_store::{GrantFault, Grantor, LeaseFault, LeaseParts};
use lease_words::Pass;
use memory_ports::{Meeting, MemoryDoor, NoFault, ScriptedLink, SureDisk};
use session_pool::{Served, Session, serve_all};
use std::alloc::{AllocError, Global};
use std::sync::{Barrier, Wait};
use std::test::Fail;
use std::thread::Threads;
use zk_model::Span;
use zk_port::Link;

/// Units of the store, and of a session that wants few of them or many.
const TOTAL: u64 = 64;

const FEW: u32 = 16;

const MANY: u32 = 32;

/// How many units a session leases whose peer sends this byte.
fn units_for(byte: u8) -> Option<u32>
    ensures { IfSome result (λ units. (1 ≤ units) × (units ≤ MAX_UNITS)) }
{
    match byte {
        b'h' => Some(FEW),
        b'w' => Some(MANY),
        _ => None,
    }
}

/// Reads a byte of the peer, and leases few units where it is `h`, and many where it is `w`; then it says so, and reads another byte.
struct Asks;

/// What came of it, and how many units it asked for, or 0.
#[derive(Clone, Copy, PartialEq)]
struct Note {
    units: u32,
    granted: Option<Span>,
    refused: Option<GrantFault>,
}

impl Note {
    /// Of a session that asked for so many units, and was answered so.
    fn new(units: u32, granted: Option<Span>, refused: Option<GrantFault>) -> Self
        ensures { result ≡ record { units = units; granted = granted; refused = refused } }
    {
        Note {
            units,
            granted,
            refused,
        }
    }
}

impl<L: Link + Drop> Session<L> for Asks {
    ghost use Rattle.std.specs.Prelude.{◌≡◌};
    ghost use Rattle.session_pool.specs.Notes.{granted_by};
    ghost use Rattle.store_tests.specs.declared.tests.disks.TheConstants.{ID};
    ghost use Rattle.store_tests.specs.declared.tests.pool_tests.TheConstants.{TOTAL};

    type Note = Note;

    ghost size = { λ _ note. note.units };

    ghost id = { λ _. ID };

    ghost total = { λ _. TOTAL };

    ghost is_note = { λ _ answer note. note.granted ≡ granted_by answer };

    ghost granted = { λ note. note.granted };

    ghost refused = { λ note. note.refused };

    fn lead<R: Threads + Sync, T: Grantor>(
        &self,
        _rt: &R,
        alloc: Global,
        grantor: &mut T,
        link: L,
    ) -> Note {
        let mut link = link;
        let mut byte = [0];
        let came = link.receive(alloc, &mut byte);
        let wanted = if came == Ok(1) {
            units_for(byte[0])
        } else {
            None
        };
        let note = match wanted {
            None => Note::new(0, None, None),
            Some(units) => match grantor.grant(units) {
                Ok(span) => {
                    let _ = link.send(alloc, b"g");
                    let _ = link.receive(alloc, &mut byte);
                    Note::new(units, Some(span), None)
                }
                Err(fault) => Note::new(units, None, Some(fault)),
            },
        };
        link.end();
        note
    }
}

type Peers = MemoryDoor<ScriptedLink<NoFault>, NoFault>;

/// A peer that sends this byte.
fn peer_of(alloc: Global, byte: u8) -> Result<ScriptedLink<NoFault>, AllocError>
    ensures { IfOk result (λ link. IsFreshLink (⟦<ScriptedLink<NoFault> as Link>⟧.state link)) }
{
    let mut script = Vec::new(alloc);
    script.push(byte)?;
    Ok(ScriptedLink::new(alloc, script, NoFault))
}

/// A door at which a peer waits for each of these bytes, and sends it.
fn door_of(alloc: Global, bytes: &[u8]) -> Result<Peers, AllocError> {
    let mut door = MemoryDoor::new(alloc, NoFault);
    for byte in bytes {
        door.wait(peer_of(alloc, *byte)?)?;
    }
    Ok(door)
}

/// A door at which as many peers wait as the barrier has places, each of which sends `h`, and goes on only once all were granted units.
fn meeting_of<'a, R: Wait>(
    alloc: Global,
    rt: &'a R,
    barrier: &'a Barrier,
    peers: u32,
) -> Result<MemoryDoor<Meeting<'a, ScriptedLink<NoFault>, R>, NoFault>, AllocError> {
    let mut door = MemoryDoor::new(alloc, NoFault);
    for _ in 0..peers {
        door.wait(Meeting::new(peer_of(alloc, b'h')?, rt, barrier))?;
    }
    Ok(door)
}

/// What comes of so many sessions with the peers of this door, over a disk that never fails.
fn run<R: Threads + Wait + Sync, L: Link + Drop + Send>(
    rt: &R,
    alloc: Global,
    passes: u32,
    sessions: u32,
    door: MemoryDoor<L, NoFault>,
) -> Result<Served<Note, MemoryDoor<L, NoFault>, SureDisk>, Fail>
    requires { (1 ≤ passes) × (passes ≤ 1024) }
{
    let disk = sure_ceilings(alloc, TOTAL)?;
    let (parts, passes) = started(alloc, disk, TOTAL, passes)?;
    Ok(serve_all(rt, alloc, &Asks, parts, passes, door, sessions))
}

/// The starts of the spans that were granted, in order, and how many sessions were refused.
fn starts_of(alloc: Global, notes: &[Note]) -> Result<(Vec<u64>, usize), AllocError> {
    let mut starts = Vec::new(alloc);
    for note in notes {
        if let Some(span) = note.granted {
            starts.push(span.start)?;
        }
    }
    starts.sort()?;
    let refused = notes.iter().filter(|note| note.refused.is_some()).count();
    Ok((starts, refused))
}

#[test]
fn sessions_run_at_once(rt: HostRuntime) -> Result<(), Fail> {
    let alloc: Global = rt.alloc();
    for passes in [2u32, 4] {
        let barrier = Barrier::new(passes as usize);
        let door = meeting_of(alloc, &rt, &barrier, passes)?;
        let served = run(&rt, alloc, passes, passes, door)?;
        assert!(rt; !served.door_failed && !served.memory_failed);
        let (starts, refused) = starts_of(alloc, &served.notes)?;
        assert!(rt; starts.len() == passes as usize && refused == 0);
    }
    Ok(())
}

/// How many passes there are and how many sessions are wanted, the bytes of the peers, how many are served, where those that are
/// granted units begin, and how many are refused.
type Service = (u32, u32, &'static [u8], usize, &'static [u64], usize);

/// All that the door had, as many as are wanted, and thousands.
const SERVICES: &[Service] = &[
    (3, 9, b"hxhhxhhh", 8, &[0, 16, 32, 48], 2),
    (1, 3, b"xhxxx", 3, &[0], 0),
    (1, 3000, &[b'h'; 3000], 3000, &[0, 16, 32, 48], 2996),
    (4, 3000, &[b'h'; 3000], 3000, &[0, 16, 32, 48], 2996),
];

#[test]
fn as_many_as_come_and_are_wanted_are_served(rt: HostRuntime) -> Result<(), Fail> {
    let alloc: Global = rt.alloc();
    for (passes, sessions, peers, count, granted, refused) in SERVICES {
        let served = run(&rt, alloc, *passes, *sessions, door_of(alloc, peers)?)?;
        assert!(rt; served.notes.len() == *count && !served.door_failed && !served.memory_failed);
        let (starts, others) = starts_of(alloc, &served.notes)?;
        assert!(rt; starts.as_slice() == *granted && others == *refused);
    }
    Ok(())
}

/// A pass keeps its first refusal, and answers it again to a session of another size.
#[test]
fn sessions_lease_as_many_units_as_each_wants(rt: HostRuntime) -> Result<(), Fail> {
    let alloc: Global = rt.alloc();
    let served = run(&rt, alloc, 1, 9, door_of(alloc, b"hwxwh")?)?;
    let short = Some(GrantFault::Lease(LeaseFault::Exhausted {
        at: 48,
        count: MANY,
        total: TOTAL,
    }));
    let wanted = [
        Note::new(FEW, Some(Span { start: 0, end: 16 }), None),
        Note::new(MANY, Some(Span { start: 16, end: 48 }), None),
        Note::new(0, None, None),
        Note::new(MANY, None, short),
        Note::new(FEW, None, short),
    ];
    assert!(rt; served.notes.as_slice() == wanted.as_slice());
    Ok(())
}
