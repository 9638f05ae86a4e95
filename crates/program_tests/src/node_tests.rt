// A broker, and a node that has its units of one.
ghost use Rattle.std.specs.Prelude.{◌≤◌};

use crate::given::{Files, dealt, new_journal};
use crate::peers::HonestPeer;
use broker_command::run_broker;
use command_words::BrokerAsk;
use file_commands::{load_claimed, load_verifier, open_node_claims};
use memory_ports::{FailAt, MemoryDoor, MemorySink, NoFault, ScriptedLink};
use node_sessions::serve_node;
use session_core::{CircuitClaim, VerifierJob, VerifierJobs};
use session_verifier::{LogKeeper, SessionNote, VerifierOutcome};
use std::alloc::Global;
use std::sync::Wait;
use std::test::Fail;
use std::thread::Threads;
use twin_journal::JournalKind;
use zk_model::Span;
use zk_port::Access;

/// The want of node 1 that has this number, for so many units.
fn want_of(number: u8, count: u8) -> [u8; 21] {
    [
        11, 16, 0, 0, 0, 1, 0, 0, 0, number, 0, 0, 0, 0, 0, 0, 0, count, 0, 0, 0,
    ]
}

/// What a broker of so many units ends with and writes, where node 1 calls with these wants: the number and the count of each.
fn brokered<R: Threads + Wait + Sync>(
    rt: &R,
    alloc: Global,
    total: u64,
    wants: &[(u8, u8)],
) -> Result<(u8, Vec<u8>), Fail>
    requires { 1 ≤ total }
{
    let mut door = MemoryDoor::new(alloc, NoFault);
    let mut asks: u32 = 0;
    for (number, count) in wants {
        let script = want_of(*number, *count).to_vec(alloc)?;
        door.wait(ScriptedLink::new(alloc, script, NoFault))?;
        asks = asks.saturating_add(1);
    }
    let mut shelf = dealt(rt, alloc, total)?;
    let mut out = MemorySink::new(alloc, NoFault);
    let journal = new_journal(alloc, JournalKind::Ceilings, total)?;
    let ask = BrokerAsk {
        address: String::from_str(alloc, "here")?,
        file: String::from_str(alloc, "x.verifier")?,
        asks,
        timeout: 60,
        follow: false,
    };
    let mut notices = MemorySink::new(alloc, NoFault);
    let end = run_broker(
        rt,
        alloc,
        &mut shelf,
        journal,
        door,
        &mut out,
        &mut notices,
        &ask,
    );
    Ok((end.status, out.bytes().to_vec(alloc)?))
}

#[test]
fn a_broker_answers_wants_while_it_has_units(rt: HostRuntime) -> Result<(), Fail> {
    let alloc = rt.alloc();
    let (status, written) = brokered(&rt, alloc, 64, &[(1, 1), (1, 1), (2, 17)])?;
    let lines = "want 1 1 block 0..16\nwant 1 1 block 0..16\nwant 1 2 block 16..48\n";
    assert_eq!(rt; status, 0);
    assert_eq!(rt; written.as_slice(), lines.as_bytes());
    let (status, written) = brokered(&rt, alloc, 64, &[(1, 33), (2, 17), (3, 16)])?;
    let lines = "want 1 1 block 0..48\nwant 1 2 out 48\nwant 1 3 out 48\n";
    assert_eq!(rt; status, 6);
    assert_eq!(rt; written.as_slice(), lines.as_bytes());
    Ok(())
}

#[test]
fn a_broker_answers_many_wants(rt: HostRuntime) -> Result<(), Fail> {
    let alloc = rt.alloc();
    let mut wants = Vec::new(alloc);
    let mut lines = String::new(alloc);
    for number in 1..=250 {
        wants.push((number, 16))?;
        let end = 16 * u64::from(number);
        let start = end.saturating_sub(16);
        lines.push_str(&format!(in alloc; "want 1 {number} block {start}..{end}\n")?)?;
    }
    let (status, written) = brokered(&rt, alloc, 4096, &wants)?;
    assert_eq!(rt; status, 0);
    assert_eq!(rt; written.as_slice(), lines.as_bytes());
    Ok(())
}

/// Where nobody is told of a session.
#[derive(Drop)]
struct Untold;

impl LogKeeper for Untold {
    fn keep<L>(&self, _alloc: Global, _note: &SessionNote<L>) {}
}

/// The claim that the gate gives 1.
fn and_claim<R: Threads + Sync>(
    rt: &R,
    alloc: Global,
    files: &mut Files,
) -> Result<CircuitClaim, Fail> {
    let Ok(claimed) = load_claimed(rt, alloc, files, "c", &[], &[true]) else {
        return Err(Fail::new("no claim"));
    };
    if claimed.circuit.outputs() != 1 {
        return Err(Fail::new("not one output"));
    }
    let claim = CircuitClaim::new(alloc, claimed.circuit, claimed.digest, &[], &[true])?;
    Ok(claim)
}

/// What came of so many sessions of node 1 with honest peers, where one link, and no more, leads to a broker of four units: the units of
/// each, and how it ended.
fn noded<R: Threads + Wait + Sync>(
    rt: &R,
    alloc: Global,
    sessions: u32,
) -> Result<Vec<(Option<Span>, VerifierOutcome)>, Fail> {
    let mut door = MemoryDoor::new(alloc, FailAt::new(Vec::new(alloc)));
    door.call(HonestPeer::broker())?;
    for _ in 0..sessions {
        door.wait(HonestPeer::honest())?;
    }
    let mut files = dealt(rt, alloc, 4)?;
    let claim = and_claim(rt, alloc, &mut files)?;
    let statement = claim.statement();
    let Ok(file) = load_verifier(alloc, &mut files, "x.verifier") else {
        return Err(Fail::new("no file"));
    };
    let Ok(job) = VerifierJob::fit(&statement, &file, 1024) else {
        return Err(Fail::new("no job"));
    };
    let jobs = VerifierJobs::new(&job, &[]);
    let journal = new_journal(alloc, JournalKind::Claims, 4)?;
    let opened = open_node_claims(alloc, journal, "x.verifier", 1, Access::Own, &file);
    let Ok(claims) = opened else {
        return Err(Fail::new("no claims"));
    };
    let served = serve_node(
        rt, alloc, &jobs, &Untold, "there", 60, 1, claims, door, sessions,
    );
    let mut ended = Vec::new(alloc);
    for note in &served.notes {
        ended.push((note.granted, note.outcome))?;
    }
    Ok(ended)
}

/// The span of one unit.
fn unit(start: u64) -> Option<Span> {
    Some(Span {
        start,
        end: start.saturating_add(1),
    })
}

#[test]
fn a_node_serves_with_the_units_of_its_broker(rt: HostRuntime) -> Result<(), Fail> {
    let alloc = rt.alloc();
    let ended = noded(&rt, alloc, 5)?;
    let wanted = [
        (unit(0), VerifierOutcome::Accepted),
        (unit(1), VerifierOutcome::Accepted),
        (unit(2), VerifierOutcome::Accepted),
        (unit(3), VerifierOutcome::Accepted),
        (None, VerifierOutcome::Broker),
    ];
    assert_eq!(rt; ended.as_slice(), wanted.as_slice());
    Ok(())
}
