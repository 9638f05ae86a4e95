// Runs of the program over files, an output, a door and a journal's disk in memory.
use crate::given::{Given, given_again, given_of};
use crate::piece_link::{PieceLink, plan_of};
use crate::say::{
    Bits, Ending, Exchanged, Hex, Logged, Tried, Units, prover_ending, verifier_ending,
};
use crate::scenario::{NO_REFUSED_CALLS, RefusedCalls, Scenario};
use crate::sessions::SEED;
use anyhow::{Error, Result};
use broker_links::{BrokerNote, Try};
use frame_link::Log;
use lease_store::LeaseFault;
use memory_ports::{FailAt, Leftover, MemoryDoor, MemoryShelf, MemorySink, NoFault, QuietDisk};
use session_prover::ProverNote;
use session_verifier::SessionNote;
use sha2::{Digest, Sha256};
use std::alloc::Global;
use std::fmt;
use std::sync::Wait;
use std::thread::Threads;
use twin_journal::JournalKind;
use zk_cli::{ClaimRehearsal, Elements, Finish, Part, Rehearsal, run_zk};
use zk_model::Span;
use zk_port::Shelf;

/// A door of peers in memory.
pub type Peers = MemoryDoor<PieceLink, FailAt>;

/// How many bytes a file has at most of which a line says something.
const MOST_SHOWN: u64 = 1 << 30;

/// What a run hands back.
#[derive(Clone, Copy)]
struct HandedBack<'a> {
    part: &'a Part<PieceLink>,
}

impl fmt::Display for HandedBack<'_> {
    fn fmt<W: fmt::Write>(&self, f: &mut fmt::Formatter<W>) -> fmt::Result {
        match self.part {
            Part::Plain => write!(f, "plain"),
            Part::Rehearsed(rehearsal) => write!(f, "{}", Rehearsed { rehearsal }),
            Part::RehearsedElements(rehearsal) => {
                write!(f, "{}", RehearsedElements { rehearsal })
            }
            Part::RehearsedClaim(rehearsal) => write!(f, "{}", RehearsedClaim { rehearsal }),
            Part::Proved(note) => write!(f, "proved {}", proved(note)),
            Part::Served(notes) => {
                write!(f, "served")?;
                for note in notes {
                    write!(f, " {}", served(note))?;
                }
                Ok(())
            }
            Part::Brokered(notes) => {
                write!(f, "brokered")?;
                for note in notes {
                    write!(f, " {}", exchange_of(note))?;
                }
                Ok(())
            }
        }
    }
}

/// What came of an exchange with a node: how it ended, and its log.
#[derive(Clone, Copy)]
struct Brokered<'a> {
    ended: Exchanged<'a>,
    log: &'a Log,
}

impl fmt::Display for Brokered<'_> {
    fn fmt<W: fmt::Write>(&self, f: &mut fmt::Formatter<W>) -> fmt::Result {
        let ended = self.ended;
        let log = Logged { log: self.log };
        write!(f, "{ended} {log}")
    }
}

/// What came of an exchange with a node.
fn exchange_of(note: &BrokerNote<PieceLink, LeaseFault>) -> Brokered<'_> {
    Brokered {
        ended: Exchanged {
            outcome: &note.outcome,
        },
        log: &note.log,
    }
}

/// What a rehearsal gave.
#[derive(Clone, Copy)]
struct Rehearsed<'a> {
    rehearsal: &'a Rehearsal<zk_cli::Bits>,
}

impl fmt::Display for Rehearsed<'_> {
    fn fmt<W: fmt::Write>(&self, f: &mut fmt::Formatter<W>) -> fmt::Result {
        let outputs = Bits {
            bits: self.rehearsal.outputs.as_slice(),
        };
        let (need, units) = (self.rehearsal.need, self.rehearsal.units);
        write!(f, "rehearsed outputs={outputs} need={need} units={units}")
    }
}

/// What a rehearsal of an arithmetic circuit gave.
#[derive(Clone, Copy)]
struct RehearsedElements<'a> {
    rehearsal: &'a Rehearsal<Elements>,
}

impl fmt::Display for RehearsedElements<'_> {
    fn fmt<W: fmt::Write>(&self, f: &mut fmt::Formatter<W>) -> fmt::Result {
        write!(f, "rehearsed elements=")?;
        let mut separator = "";
        for element in self.rehearsal.outputs.as_slice() {
            let value = element.value();
            write!(f, "{separator}{value}")?;
            separator = ",";
        }
        let (need, units) = (self.rehearsal.need, self.rehearsal.units);
        write!(f, " need={need} units={units}")
    }
}

/// What a rehearsal of constraints gave.
#[derive(Clone, Copy)]
struct RehearsedClaim<'a> {
    rehearsal: &'a ClaimRehearsal,
}

impl fmt::Display for RehearsedClaim<'_> {
    fn fmt<W: fmt::Write>(&self, f: &mut fmt::Formatter<W>) -> fmt::Result {
        let (need, units) = (self.rehearsal.need, self.rehearsal.units);
        write!(f, "rehearsed constraints need={need} units={units}")
    }
}

/// What came of a session: how it ended, the units that it was granted, its log, and the tries to get its units of a broker.
#[derive(Clone, Copy)]
struct Led<'a> {
    ended: Ending,
    granted: Option<Span>,
    log: &'a Log,
    tries: &'a [Try<PieceLink>],
}

impl fmt::Display for Led<'_> {
    fn fmt<W: fmt::Write>(&self, f: &mut fmt::Formatter<W>) -> fmt::Result {
        let ended = self.ended;
        let units = Units { span: self.granted };
        let log = Logged { log: self.log };
        write!(f, "{ended} units={units} {log}")?;
        for made in self.tries {
            let tried = Tried { made };
            write!(f, " {tried}")?;
        }
        Ok(())
    }
}

/// What came of a session with a verifier.
fn proved(note: &ProverNote<PieceLink>) -> Led<'_> {
    let ended = prover_ending(note.outcome);
    let (granted, log) = (note.granted, &note.log);
    Led {
        ended,
        granted,
        log,
        tries: &[],
    }
}

/// What came of a session that was served.
fn served(note: &SessionNote<PieceLink>) -> Led<'_> {
    Led {
        ended: verifier_ending(note.outcome),
        granted: note.granted,
        log: &note.log,
        tries: &note.tries,
    }
}

/// How many bytes stand under this name, and SHA-256 of them, or of the first ones, so many.
fn push_shown(words: &mut String, name: &str, bytes: &[u8]) -> Result<()> {
    let count = bytes.len();
    let first = match name.split_once(':') {
        Some((_, most)) => bytes.get(..most.parse::<usize>()?).unwrap_or(bytes),
        None => bytes,
    };
    let digest = Sha256::digest(first);
    let digest = Hex { bytes: &digest };
    write!(words, " {name}={count},{digest}")?;
    Ok(())
}

/// Which bytes stand under this name, in front of a colon, or on the disk.
fn push_file(
    alloc: Global,
    words: &mut String,
    name: &str,
    shelf: &mut MemoryShelf<FailAt>,
    disk: &QuietDisk<FailAt>,
) -> Result<()> {
    if name == "disk" {
        return push_shown(words, name, disk.disk.bytes());
    }
    let file = name.split(':').next().unwrap_or("");
    match shelf.load(alloc, file, MOST_SHOWN) {
        Ok(bytes) => push_shown(words, name, &bytes),
        Err(_) => {
            write!(words, " {name}=none")?;
            Ok(())
        }
    }
}

/// Which bytes stand under these names, and on the disk.
fn shown_files(
    alloc: Global,
    names: &str,
    shelf: &mut MemoryShelf<FailAt>,
    disk: &QuietDisk<FailAt>,
) -> Result<String> {
    let mut words = String::new(alloc);
    for name in names.split(',').filter(|name| !name.is_empty()) {
        push_file(alloc, &mut words, name, shelf, disk)?;
    }
    Ok(words)
}

/// A door with no peers.
pub fn empty_door(alloc: Global, scenario: &Scenario<'_>) -> Result<Peers> {
    let plan = plan_of(alloc, scenario.outside.refused.door)?;
    Ok(MemoryDoor::new(alloc, plan))
}

/// The door of a run, and that of the run after a crash.
#[derive(Drop)]
pub struct Doors {
    pub first: Peers,
    pub again: Peers,
}

/// What came of a run: its status, its output, what it hands back, the files and the disk.
#[derive(Drop)]
struct Ran {
    status: u8,
    out: MemorySink<FailAt>,
    notices: MemorySink<NoFault>,
    part: Part<PieceLink>,
    shelf: MemoryShelf<FailAt>,
    disk: QuietDisk<FailAt>,
}

/// A run of these words over what stands there.
fn run_words<R: Threads + Wait + Sync>(
    rt: &R,
    alloc: Global,
    words: &[String],
    shelf: &mut MemoryShelf<FailAt>,
    disk: QuietDisk<FailAt>,
    door: Peers,
    out: &mut MemorySink<FailAt>,
    notices: &mut MemorySink<NoFault>,
) -> Finish<QuietDisk<FailAt>, Peers> {
    run_zk(rt, alloc, words, shelf, disk, door, &SEED, out, notices)
}

/// A run of these words over what stands there, with this door.
fn run<R: Threads + Wait + Sync>(
    rt: &R,
    alloc: Global,
    refused: RefusedCalls,
    given: Given,
    door: Peers,
    words: &[String],
) -> Result<Ran> {
    let (shelf, disk) = given.opened(alloc, refused)?;
    let mut shelf = shelf;
    let mut out = MemorySink::new(alloc, plan_of(alloc, refused.sink)?);
    let mut notices = MemorySink::new(alloc, NoFault);
    let finish = run_words(
        rt,
        alloc,
        words,
        &mut shelf,
        disk,
        door,
        &mut out,
        &mut notices,
    );
    let Finish {
        status,
        part,
        journal: disk,
        ..
    } = finish;
    Ok(Ran {
        status,
        out,
        notices,
        part,
        shelf,
        disk,
    })
}

/// The line of this name of what came of a run, with which files stand there then.
fn line_of(alloc: Global, name: &str, ran: &Ran, shown: &str) -> Result<String> {
    let Ok(written) = str::from_utf8(ran.out.bytes()) else {
        return Err(Error::msg("no text is written"));
    };
    let Ok(said) = str::from_utf8(ran.notices.bytes()) else {
        return Err(Error::msg("no text is said"));
    };
    let status = ran.status;
    let part = HandedBack { part: &ran.part };
    if said.is_empty() {
        return Ok(format!(in alloc; "{name}status={status} written={written:?} {part}{shown}\n")?);
    }
    Ok(format!(in alloc;
        "{name}status={status} written={written:?} said={said:?} {part}{shown}\n"
    )?)
}

/// What a crash may leave of a disk: this, of each write since the last sync.
fn image_of(alloc: Global, disk: &QuietDisk<FailAt>, leftover: Leftover) -> Result<Vec<u8>> {
    let mut leftovers = Vec::new(alloc);
    leftovers.resize(disk.disk.pending(), leftover)?;
    Ok(disk.disk.image(alloc, &leftovers)?)
}

/// The line of what came of a run of this name, with the files that are shown.
fn shown_line(alloc: Global, name: &str, show: &str, ran: &mut Ran) -> Result<String> {
    let shown = shown_files(alloc, show, &mut ran.shelf, &ran.disk)?;
    line_of(alloc, name, ran, &shown)
}

/// The line of a run of this name and these words over what stands there, with these peers; and where a crash follows, that of the same
/// over the disk as it is left, of which no call is refused.
pub fn run_lines<R: Threads + Wait + Sync>(
    rt: &R,
    alloc: Global,
    scenario: &Scenario<'_>,
    name: &str,
    doors: Doors,
    words: &[String],
) -> Result<String> {
    let (outside, kind) = (&scenario.outside, kind_of(words));
    let Doors { first, again } = doors;
    let given = given_of(alloc, scenario, kind)?;
    let mut ran = run(rt, alloc, outside.refused, given, first, words)?;
    let mut lines = shown_line(alloc, name, outside.show, &mut ran)?;
    if let Some(leftover) = outside.crash {
        let image = image_of(alloc, &ran.disk, leftover)?;
        let given = given_again(alloc, scenario, kind, image)?;
        let mut ran = run(rt, alloc, NO_REFUSED_CALLS, given, again, words)?;
        lines.push_str(&shown_line(alloc, "again ", outside.show, &mut ran)?)?;
    }
    Ok(lines)
}

/// Whether words begin with a command that proves.
pub fn is_proof(words: &[String]) -> bool {
    let first = words.iter().next().map_or("", String::as_str);
    first == "prove" || first == "prove-arith" || first == "prove-poly"
}

/// The kind of the journal that the disk has: proofs, `migrate prover` and `status` of a prover's file are about the prover's, and what is said
/// of a node is about one of the same kind.
fn kind_of(words: &[String]) -> JournalKind {
    let proves = is_proof(words) || words.iter().any(|word| word.as_str() == "--node");
    let mut words = words.iter();
    let first = words.next().map_or("", String::as_str);
    let second = words.next().map_or("", String::as_str);
    if proves
        || (first == "migrate" && second == "prover")
        || (first == "status" && second.ends_with(".prover"))
    {
        return JournalKind::Claims;
    }
    JournalKind::Ceilings
}
