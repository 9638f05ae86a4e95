// What a line of words asks for.
use anyhow::{Error, Result};
use memory_ports::Leftover;

/// Whose session it is.
#[derive(Clone, Copy, PartialEq, Eq)]
pub enum End {
    Verifier,
    Prover,
    /// Each end with the bytes of the other.
    Both,
    /// A rehearsal of both.
    Rehearsal,
    /// Audits of the log of a rehearsal.
    Audit,
    /// A run of the program that serves a verifier's session.
    Service,
    /// A run of the program that proves a prover's session.
    Proof,
    /// A run of the program of any words.
    Run,
}

/// What files are dealt for.
#[derive(Clone, Copy)]
pub enum Dealing {
    Direct,
    Extended { trees: u32, height: u8, base: u32 },
}

/// What the files are dealt for, and for how many units.
#[derive(Clone, Copy)]
pub struct Dealt {
    pub dealing: Dealing,
    pub units: u64,
}

/// An answer in place of units: its name, and its numbers, 0 where there are fewer.
#[derive(Clone, Copy)]
pub struct Refusal<'a> {
    pub name: &'a str,
    pub numbers: [u64; 3],
}

/// What each number of a range changes.
#[derive(Clone, Copy)]
pub enum Sweep {
    Nothing,
    /// The peer ends after so many bytes.
    Cut,
    /// The peer's byte at this place, in these bits.
    Change { mask: u8 },
    /// The call of the link of this number, counted from 1, fails.
    Fail,
    /// The call of the link of this number, counted from 1, finds no memory.
    Lack,
}

/// The numbers of the call of an object that fails, and of the one that finds no memory, counted from 1, or 0.
#[derive(Clone, Copy)]
pub struct Refused {
    pub fails: u64,
    pub lacks: u64,
}

/// No call is refused.
pub const NOTHING_REFUSED: Refused = Refused { fails: 0, lacks: 0 };

/// The peer's bytes: so many of the honest ones, or all; with others after them, in hex; and one byte in place of another. Then how many
/// bytes come at most in one receive, and what each number of a range changes.
#[derive(Clone, Copy)]
pub struct Peer<'a> {
    pub keep: Option<u64>,
    pub more: &'a str,
    pub set: Option<(u64, u64)>,
    pub piece: u64,
    pub sweep: Sweep,
    pub numbers: (u64, u64),
}

/// Which areas a journal has.
#[derive(Clone, Copy)]
pub enum Areas {
    /// One.
    One,
    /// Two.
    Two,
    /// Two, behind a journal of one area that was migrated.
    Moved,
}

/// A journal: its areas, how many slots an area has, where these are not those of a new one, and the generations in the heads of two
/// areas, 0 in one that is closed; ceilings up to this one stand in the verifier's, and these claims in the prover's; how many bytes it
/// has, where these are not all; and one byte in place of another.
#[derive(Clone, Copy)]
pub struct Journaled<'a> {
    pub areas: Areas,
    pub slots: Option<u64>,
    pub heads: (u64, u64),
    pub ceilings: u64,
    pub claims: &'a str,
    pub size: Option<usize>,
    pub set: Option<(u64, u64)>,
}

/// The files that a run of the program is given: text that stands behind the circuit's, and the size up to which line feeds follow it; the
/// versions of the dealt files, the prover's and the verifier's, how many bytes both have, where these are not all, and the bytes of both
/// that are others; the texts of the files of statements, of input values and of claimed outputs; and the log, in hex.
#[derive(Clone, Copy)]
pub struct GivenFiles<'a> {
    pub tail: &'a str,
    pub size: usize,
    pub versions: (u64, u64),
    pub dealt_size: Option<usize>,
    pub damage: &'a str,
    pub statements: &'a str,
    pub values: &'a str,
    pub claimed: &'a str,
    pub log: &'a str,
}

/// The calls of the shelf, the sink, the door and the disk that are refused.
#[derive(Clone, Copy)]
pub struct RefusedCalls {
    pub shelf: Refused,
    pub sink: Refused,
    pub door: Refused,
    pub disk: Refused,
}

/// What a run of the program is given: the words, the files, the journal, the calls that are refused, what a crash leaves after it of each
/// write since the last sync, where one follows, and the names of the files that the line says something of.
#[derive(Clone, Copy)]
pub struct Outside<'a> {
    pub words: &'a str,
    pub files: GivenFiles<'a>,
    pub journal: Journaled<'a>,
    pub refused: RefusedCalls,
    pub crash: Option<Leftover>,
    pub show: &'a str,
}

/// What a service is asked for: the words of its options, which are not among its words where they are empty, and the number of the node as
/// which it serves; how many peers call; what those of a run of any words send, in hex, and the brokers to which a node connects; and the
/// number of the one whose bytes and link are stated, counted from 0.
#[derive(Clone, Copy)]
pub struct Service<'a> {
    pub sessions: &'a str,
    pub workers: &'a str,
    pub logs: &'a str,
    pub node: &'a str,
    pub follows: bool,
    pub peers: u64,
    pub calls: &'a str,
    pub brokers: &'a str,
    pub peer: u64,
}

/// A line's scenario, with the text of its circuit, once that is loaded.
#[derive(Clone, Copy)]
pub struct Scenario<'a> {
    pub end: End,
    pub circuit: &'a str,
    pub text: &'a [u8],
    pub bits: &'a str,
    pub public: usize,
    pub before: Option<usize>,
    pub outputs: Option<&'a str>,
    pub section: u32,
    pub dealt: Dealt,
    pub start: u64,
    pub refusal: Option<Refusal<'a>>,
    pub peer: Peer<'a>,
    pub outside: Outside<'a>,
    pub service: Service<'a>,
}

/// An honest peer.
const HONEST: Peer<'static> = Peer {
    keep: None,
    more: "",
    set: None,
    piece: 4096,
    sweep: Sweep::Nothing,
    numbers: (0, 1),
};

/// The files of a run without words.
const PLAIN_FILES: GivenFiles<'static> = GivenFiles {
    tail: "",
    size: 0,
    versions: (1, 1),
    dealt_size: None,
    damage: "",
    statements: "",
    values: "",
    claimed: "",
    log: "",
};

/// A new journal of two areas.
const NEW_JOURNAL: Journaled<'static> = Journaled {
    areas: Areas::Two,
    slots: None,
    heads: (1, 0),
    ceilings: 0,
    claims: "",
    size: None,
    set: None,
};

/// No call that is refused.
pub const NO_REFUSED_CALLS: RefusedCalls = RefusedCalls {
    shelf: NOTHING_REFUSED,
    sink: NOTHING_REFUSED,
    door: NOTHING_REFUSED,
    disk: NOTHING_REFUSED,
};

/// The scenario of a line without words.
fn plain(end: End) -> Scenario<'static> {
    Scenario {
        end,
        circuit: "and.txt",
        text: &[],
        bits: "1",
        public: 0,
        before: None,
        outputs: None,
        section: 1 << 20,
        dealt: Dealt {
            dealing: Dealing::Direct,
            units: 1,
        },
        start: 0,
        refusal: None,
        peer: HONEST,
        outside: Outside {
            words: "",
            files: PLAIN_FILES,
            journal: NEW_JOURNAL,
            refused: NO_REFUSED_CALLS,
            crash: None,
            show: "",
        },
        service: Service {
            sessions: "1",
            workers: "",
            logs: "",
            node: "",
            follows: false,
            peers: 1,
            calls: "",
            brokers: "",
            peer: 0,
        },
    }
}

/// Whose session a word names.
fn end_named(word: &str) -> Option<End> {
    match word {
        "verifier" => Some(End::Verifier),
        "prover" => Some(End::Prover),
        "both" => Some(End::Both),
        "rehearsal" => Some(End::Rehearsal),
        "audit" => Some(End::Audit),
        "service" => Some(End::Service),
        "proof" => Some(End::Proof),
        "run" => Some(End::Run),
        _ => None,
    }
}

/// Two words around a sign.
fn halves<'a>(text: &'a str, sign: &str) -> Result<(&'a str, &'a str)> {
    match text.split_once(sign) {
        Some(halves) => Ok(halves),
        None => Err(Error::msg("a sign is missing")),
    }
}

/// A number.
fn number(word: &str) -> Result<u64> {
    Ok(word.parse::<u64>()?)
}

/// A number below 2^32.
fn small_number(word: &str) -> Result<u32> {
    Ok(word.parse::<u32>()?)
}

/// A number below 256.
fn byte(word: &str) -> Result<u8> {
    Ok(word.parse::<u8>()?)
}

/// `direct`, or three numbers: trees, height and base.
fn read_dealing(text: &str) -> Result<Dealing> {
    if text == "direct" {
        return Ok(Dealing::Direct);
    }
    let (trees, rest) = halves(text, ",")?;
    let (height, base) = halves(rest, ",")?;
    Ok(Dealing::Extended {
        trees: small_number(trees)?,
        height: byte(height)?,
        base: small_number(base)?,
    })
}

/// A name, and up to three numbers.
fn read_refusal(text: &str) -> Result<Refusal<'_>> {
    let mut words = text.split(',');
    let name = words.next().unwrap_or("");
    let mut numbers = [0; 3];
    for place in &mut numbers {
        if let Some(word) = words.next() {
            *place = number(word)?;
        }
    }
    Ok(Refusal { name, numbers })
}

/// Two numbers around a sign, as `7:255`.
pub fn read_pair(text: &str, sign: &str) -> Result<(u64, u64)> {
    let (first, second) = halves(text, sign)?;
    Ok((number(first)?, number(second)?))
}

/// The areas that a word names.
fn areas_named(word: &str) -> Option<Areas> {
    match word {
        "one" => Some(Areas::One),
        "two" => Some(Areas::Two),
        "moved" => Some(Areas::Moved),
        _ => None,
    }
}

/// What a crash leaves of a write: `old`, `new`, or a byte all over it.
fn read_leftover(word: &str) -> Result<Leftover> {
    match word {
        "old" => Ok(Leftover::Old),
        "new" => Ok(Leftover::New),
        _ => Ok(Leftover::Filled(byte(word)?)),
    }
}

/// Has each number of a range change something.
fn set_sweep(peer: &mut Peer<'_>, sweep: Sweep, numbers: &str) -> Result<()> {
    peer.sweep = sweep;
    peer.numbers = read_pair(numbers, "..")?;
    Ok(())
}

/// Sets what a word names, of a journal.
fn set_journal<'a>(journal: &mut Journaled<'a>, name: &str, value: &'a str) -> Result<()> {
    match name {
        "areas" => match areas_named(value) {
            Some(areas) => journal.areas = areas,
            None => return Err(Error::msg("no such areas")),
        },
        "slots" => journal.slots = Some(number(value)?),
        "heads" => journal.heads = read_pair(value, ",")?,
        "ceilings" => journal.ceilings = number(value)?,
        "claims" => journal.claims = value,
        "journal-size" => journal.size = Some(number(value)? as usize),
        "journal-set" => journal.set = Some(read_pair(value, ":")?),
        _ => return Err(Error::msg("no such word")),
    }
    Ok(())
}

/// Sets what a word names, of the files or the journal of a run of the program.
fn set_files<'a>(outside: &mut Outside<'a>, name: &str, value: &'a str) -> Result<()> {
    let files = &mut outside.files;
    match name {
        "tail" => files.tail = value,
        "size" => files.size = number(value)? as usize,
        "versions" => files.versions = read_pair(value, ",")?,
        "dealt-size" => files.dealt_size = Some(number(value)? as usize),
        "damage" => files.damage = value,
        "statements" => files.statements = value,
        "values" => files.values = value,
        "claimed" => files.claimed = value,
        "log" => files.log = value,
        _ => set_journal(&mut outside.journal, name, value)?,
    }
    Ok(())
}

/// The object that a word names, of those whose calls are refused.
fn object_named<'a>(refused: &'a mut RefusedCalls, word: &str) -> Option<&'a mut Refused> {
    match word {
        "shelf" => Some(&mut refused.shelf),
        "sink" => Some(&mut refused.sink),
        "door" => Some(&mut refused.door),
        "disk" => Some(&mut refused.disk),
        _ => None,
    }
}

/// Sets what a word names, of the calls that are refused; whether it names such a call.
fn set_refused(refused: &mut RefusedCalls, name: &str, value: &str) -> Result<bool> {
    let Some((word, how)) = name.rsplit_once('-') else {
        return Ok(false);
    };
    let Some(calls) = object_named(refused, word) else {
        return Ok(false);
    };
    match how {
        "fails" => calls.fails = number(value)?,
        "lacks" => calls.lacks = number(value)?,
        _ => return Ok(false),
    }
    Ok(true)
}

/// Sets what a word names, of what a run of the program is given.
fn set_outside<'a>(outside: &mut Outside<'a>, name: &str, value: &'a str) -> Result<()> {
    if set_refused(&mut outside.refused, name, value)? {
        return Ok(());
    }
    match name {
        "words" => outside.words = value,
        "show" => outside.show = value,
        "crash" => outside.crash = Some(read_leftover(value)?),
        _ => set_files(outside, name, value)?,
    }
    Ok(())
}

/// Sets what a word names, of a service or of what a run of the program is given.
fn set_service<'a>(scenario: &mut Scenario<'a>, name: &str, value: &'a str) -> Result<()> {
    match name {
        "sessions" => scenario.service.sessions = value,
        "workers" => scenario.service.workers = value,
        "logs" => scenario.service.logs = value,
        "node" => scenario.service.node = value,
        "follow" => scenario.service.follows = number(value)? == 1,
        "peers" => scenario.service.peers = number(value)?,
        "calls" => scenario.service.calls = value,
        "brokers" => scenario.service.brokers = value,
        "peer" => scenario.service.peer = number(value)?,
        _ => set_outside(&mut scenario.outside, name, value)?,
    }
    Ok(())
}

/// Sets what a word names, of the peer's bytes and the link; whether it names such a thing.
fn set_peer<'a>(peer: &mut Peer<'a>, name: &str, value: &'a str) -> Result<bool> {
    match name {
        "keep" => peer.keep = Some(number(value)?),
        "more" => peer.more = value,
        "set" => peer.set = Some(read_pair(value, ":")?),
        "pieces" => peer.piece = number(value)?,
        "cut" => set_sweep(peer, Sweep::Cut, value)?,
        "change" => {
            let (numbers, mask) = halves(value, ":")?;
            let mask = byte(mask)?;
            set_sweep(peer, Sweep::Change { mask }, numbers)?;
        }
        "fail" => set_sweep(peer, Sweep::Fail, value)?,
        "lack" => set_sweep(peer, Sweep::Lack, value)?,
        _ => return Ok(false),
    }
    Ok(true)
}

/// Sets what a word names.
fn set_word<'a>(scenario: &mut Scenario<'a>, name: &str, value: &'a str) -> Result<()> {
    match name {
        "circuit" => scenario.circuit = value,
        "bits" => scenario.bits = value,
        "public" => scenario.public = number(value)? as usize,
        "before" => scenario.before = Some(number(value)? as usize),
        "outputs" => scenario.outputs = Some(value),
        "section" => scenario.section = small_number(value)?,
        "files" => scenario.dealt.dealing = read_dealing(value)?,
        "units" => scenario.dealt.units = number(value)?,
        "start" => scenario.start = number(value)?,
        "refuse" => scenario.refusal = Some(read_refusal(value)?),
        _ => {
            if !set_peer(&mut scenario.peer, name, value)? {
                set_service(scenario, name, value)?;
            }
        }
    }
    Ok(())
}

/// The scenario of a line: whose session it is, and words `name=value`.
pub fn read_scenario(line: &str) -> Result<Scenario<'_>> {
    let mut words = line.split(' ');
    let Some(end) = end_named(words.next().unwrap_or("")) else {
        return Err(Error::msg("no end of a session"));
    };
    let mut scenario = plain(end);
    for word in words {
        let (name, value) = halves(word, "=")?;
        set_word(&mut scenario, name, value)?;
    }
    Ok(scenario)
}
