// Both ends of a session in one process, over a connection of this machine.
use crate::given::{Files, SEED, dealt, new_journal, words_of};
use memory_ports::{MemorySink, NoFault};
use port_os::TcpDoor;
use std::alloc::{AllocError, Global};
use std::net::{Net, OpenListener, TcpListener};
use std::sync::Wait;
use std::test::Fail;
use std::thread::{self, Threads, join};
use std::time::{Clock, Duration};
use twin_journal::JournalKind;
use zk_cli::{Finish, run_zk};
use zk_port::Sink;

/// How often the prover tries to connect, a millisecond apart.
const TRIES: u32 = 2_000;

/// How a run ended: its status, and what it wrote.
#[derive(Drop)]
struct Ended {
    status: u8,
    written: Vec<u8>,
}

/// An address of this machine at which nobody listens now.
fn free_address<R: Net>(rt: &R, alloc: Global) -> Result<String, Fail> {
    let listener = TcpListener::bind(rt, "127.0.0.1:0")?;
    let address = listener.local_addr()?;
    Ok(format!(in alloc; "{address}")?)
}

/// A run over these files, a new journal of this kind and connections of this machine.
fn run_party<R>(
    rt: &R,
    alloc: Global,
    words: &[String],
    shelf: &mut Files,
    kind: JournalKind,
) -> Result<Ended, AllocError>
where
    R: Threads + Wait + Sync + Net + Clock,
    R::Stream: Send,
    R::Listener: Send,
{
    let mut out = MemorySink::new(alloc, NoFault);
    let mut notices = MemorySink::new(alloc, NoFault);
    let disk = new_journal(alloc, kind, 4)?;
    let Finish { status, .. } = run_zk(
        rt,
        alloc,
        words,
        shelf,
        disk,
        TcpDoor::new(rt),
        &SEED,
        &mut out,
        &mut notices,
    );
    Ok(Ended {
        status,
        written: out.bytes().to_vec(alloc)?,
    })
}

/// The verifier's run: one session.
fn serve<R>(rt: &R, alloc: Global, address: &str, mut shelf: Files) -> Result<Ended, AllocError>
where
    R: Threads + Wait + Sync + Net + Clock,
    R::Stream: Send,
    R::Listener: Send,
{
    let words = words_of(
        alloc,
        &["serve", address, "x.verifier", "c", "1", "--sessions", "1"],
    )?;
    run_party(rt, alloc, &words, &mut shelf, JournalKind::Ceilings)
}

/// The prover's run, once the verifier listens.
fn prove<R>(rt: &R, alloc: Global, address: &str, mut shelf: Files) -> Result<Ended, AllocError>
where
    R: Threads + Wait + Sync + Net + Clock,
    R::Stream: Send,
    R::Listener: Send,
{
    let words = words_of(alloc, &["prove", address, "x.prover", "c", "11", "1"])?;
    let mut ended = run_party(rt, alloc, &words, &mut shelf, JournalKind::Claims)?;
    for _ in 0..TRIES {
        if ended.written.as_slice() != b"failed door\n".as_slice() {
            break;
        }
        thread::sleep(rt, Duration::from_millis(1));
        ended = run_party(rt, alloc, &words, &mut shelf, JournalKind::Claims)?;
    }
    Ok(ended)
}

/// `serve` and `prove` on two threads: both say that the session was accepted.
#[test]
fn both_ends_agree(rt: HostRuntime) -> Result<(), Fail> {
    let alloc: Global = rt.alloc();
    let address = free_address(&rt, alloc)?;
    let (verifiers, provers) = (dealt(&rt, alloc, 4)?, dealt(&rt, alloc, 4)?);
    let (host, place) = (&rt, address.as_str());
    let (served, proved) = join(
        host,
        move || serve(host, alloc, place, verifiers),
        move || prove(host, alloc, place, provers),
    );
    for ended in [served?, proved?] {
        assert!(rt; ended.status == 0);
        assert!(rt; ended.written.as_slice() == b"units 0..1 accepted\n".as_slice());
    }
    Ok(())
}
