// Services over a journal, with peers that are honest over whichever units they are granted.
use crate::given::{Files, SEED, dealt, new_journal, words_of};
use crate::peers::HonestPeer;
use memory_ports::{Meeting, MemoryDoor, MemorySink, NoFault};
use std::alloc::{AllocError, Global};
use std::sync::{Barrier, Wait};
use std::test::Fail;
use std::thread::Threads;
use twin_journal::JournalKind;
use zk_cli::{Finish, Part, run_zk};
use zk_model::Span;
use zk_port::{Link, Shelf, Sink};

/// Where the first slot of a journal begins: that of its first area.
const SLOT: usize = 96;

/// How long a log may be.
const MOST: u64 = 1 << 20;

/// What came of a run: the status, what is written, what is said to whoever follows, the units of each session that is handed back, and
/// what the disk and the shelf have.
#[derive(Drop)]
struct Ran {
    status: u8,
    written: Vec<u8>,
    said: Vec<u8>,
    granted: Vec<Option<Span>>,
    journal: Vec<u8>,
    files: Files,
}

/// A door at which as many honest peers call as the barrier has places. Each goes on only once all were granted units.
fn door_of<'a, R: Wait>(
    alloc: Global,
    rt: &'a R,
    barrier: &'a Barrier,
    peers: usize,
) -> Result<MemoryDoor<Meeting<'a, HonestPeer, R>, NoFault>, AllocError> {
    let mut door = MemoryDoor::new(alloc, NoFault);
    for _ in 0..peers {
        door.wait(Meeting::new(HonestPeer::honest(), rt, barrier))?;
    }
    Ok(door)
}

/// Serves so many sessions by so many workers with the peers of this door, and with these options.
fn served<R: Threads + Wait + Sync, L: Link + Drop + Send>(
    rt: &R,
    alloc: Global,
    sessions: &str,
    workers: &str,
    more: &[&str],
    door: MemoryDoor<L, NoFault>,
) -> Result<Ran, Fail> {
    let mut words = words_of(
        alloc,
        &[
            "serve",
            "here",
            "x.verifier",
            "c",
            "1",
            "--sessions",
            sessions,
            "--workers",
            workers,
        ],
    )?;
    for word in words_of(alloc, more)? {
        words.push(word)?;
    }
    let mut shelf = dealt(rt, alloc, 4)?;
    let mut out = MemorySink::new(alloc, NoFault);
    let mut notices = MemorySink::new(alloc, NoFault);
    let disk = new_journal(alloc, JournalKind::Ceilings, 4)?;
    let finish = run_zk(
        rt,
        alloc,
        &words,
        &mut shelf,
        disk,
        door,
        &SEED,
        &mut out,
        &mut notices,
    );
    let Finish {
        status,
        part,
        journal,
        ..
    } = finish;
    let Part::Served(notes) = part else {
        return Err(Fail::new("not served"));
    };
    let mut granted = Vec::new(alloc);
    for note in &notes {
        granted.push(note.granted)?;
    }
    Ok(Ran {
        status,
        written: out.bytes().to_vec(alloc)?,
        said: notices.bytes().to_vec(alloc)?,
        granted,
        journal: journal.bytes().to_vec(alloc)?,
        files: shelf,
    })
}

/// The span of one unit.
fn unit(start: u64) -> Option<Span> {
    Some(Span {
        start,
        end: start.saturating_add(1),
    })
}

#[test]
fn sessions_are_held_at_once(rt: HostRuntime) -> Result<(), Fail> {
    let alloc = rt.alloc();
    let four =
        "units 0..1 accepted\nunits 1..2 accepted\nunits 2..3 accepted\nunits 3..4 accepted\n";
    let units = [unit(0), unit(1), unit(2), unit(3)];
    for (word, count) in [("2", 2), ("4", 4)] {
        let barrier = Barrier::new(count);
        let ran = served(
            &rt,
            alloc,
            word,
            word,
            &[],
            door_of(alloc, &rt, &barrier, count)?,
        )?;
        assert_eq!(rt;
            Some(ran.written.as_slice()),
            four.as_bytes().get(..20 * count),
            "{word}"
        );
        assert_eq!(rt; ran.status, 0, "{word}");
        assert_eq!(rt; Some(ran.granted.as_slice()), units.get(..count), "{word}");
        // The ceiling is the total.
        assert_eq!(rt;
            ran.journal.get(SLOT..SLOT + 2),
            Some([4, 0].as_slice()),
            "{word}"
        );
        assert_eq!(rt; ran.journal.get(SLOT + 31), Some(&0x5A), "{word}");
    }
    Ok(())
}

#[test]
fn sessions_are_granted_units_as_long_as_there_are_some(rt: HostRuntime) -> Result<(), Fail> {
    let alloc = rt.alloc();
    let mut door = MemoryDoor::new(alloc, NoFault);
    door.wait(HonestPeer::honest())?;
    // One that says nothing, which is granted none; and more than there are units for.
    door.wait(HonestPeer::new(&[]))?;
    for _ in 0..4 {
        door.wait(HonestPeer::honest())?;
    }
    let ran = served(&rt, alloc, "9", "1", &[], door)?;
    let lines =
        "units 0..1 accepted\nunits 1..2 accepted\nunits 2..3 accepted\nunits 3..4 accepted\n\
        no grant ended 0\nno grant exhausted 4 1 4\n";
    assert_eq!(rt; ran.written.as_slice(), lines.as_bytes());
    assert_eq!(rt; ran.status, 6);
    Ok(())
}

#[test]
fn a_followed_service_says_how_it_goes(rt: HostRuntime) -> Result<(), Fail> {
    let alloc = rt.alloc();
    let mut door = MemoryDoor::new(alloc, NoFault);
    door.wait(HonestPeer::new(&[]))?;
    door.wait(HonestPeer::honest())?;
    door.wait(HonestPeer::honest())?;
    let ran = served(&rt, alloc, "3", "1", &["--logs", "kept", "--follow"], door)?;
    let said =
        "listening here\nleft 4 sessions 4\nno grant ended 0\nunits 0..1 accepted\nunits 1..2 accepted\n";
    assert_eq!(rt; ran.said.as_slice(), said.as_bytes());
    let lines = "units 0..1 accepted\nunits 1..2 accepted\nno grant ended 0\n";
    assert_eq!(rt; ran.written.as_slice(), lines.as_bytes());
    let mut files = ran.files;
    for (name, stands) in [("kept.0", true), ("kept.1", true), ("kept.2", false)] {
        let Ok(log) = files.load(alloc, name, MOST) else {
            return Err(Fail::new("not loaded"));
        };
        assert_eq!(rt; !log.is_empty(), stands, "{name}");
    }
    Ok(())
}
