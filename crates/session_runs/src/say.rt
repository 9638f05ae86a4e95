// What came of a session, in words.
use crate::piece_link::PieceLink;
use broker_links::{BrokerOutcome, Reply, Try, TryOutcome};
use frame_link::Log;
use lease_store::LeaseFault;
use mersenne_field::Fe;
use session_core::{Digests, HelloDiffers};
use session_prover::ProverOutcome;
use session_verifier::VerifierOutcome;
use sha2::{Digest, Sha256};
use std::fmt;
use zk_model::{Block, Out, Side, Span, Verdict, Want};
use zk_port::Link;

/// Bytes, in hex.
#[derive(Clone, Copy)]
pub struct Hex<'a> {
    pub bytes: &'a [u8],
}

impl fmt::Display for Hex<'_> {
    fn fmt<W: fmt::Write>(&self, f: &mut fmt::Formatter<W>) -> fmt::Result {
        for byte in self.bytes {
            write!(f, "{byte:02x}")?;
        }
        Ok(())
    }
}

/// Bits as a word, or `none` where there are none.
#[derive(Clone, Copy)]
pub struct Bits<'a> {
    pub bits: &'a [bool],
}

impl fmt::Display for Bits<'_> {
    fn fmt<W: fmt::Write>(&self, f: &mut fmt::Formatter<W>) -> fmt::Result {
        if self.bits.is_empty() {
            return write!(f, "none");
        }
        for bit in self.bits {
            write!(f, "{}", if *bit { "1" } else { "0" })?;
        }
        Ok(())
    }
}

/// The digests of a statement, one after the other.
#[derive(Clone, Copy)]
struct HexDigests<'a> {
    digests: &'a Digests,
}

impl fmt::Display for HexDigests<'_> {
    fn fmt<W: fmt::Write>(&self, f: &mut fmt::Formatter<W>) -> fmt::Result {
        let digests = self.digests;
        for digest in [&digests.circuit, &digests.outputs, &digests.public] {
            let digest = Hex { bytes: digest };
            write!(f, "{digest}")?;
        }
        Ok(())
    }
}

/// A number with its name; one whose name is empty is not said.
#[derive(Clone, Copy)]
pub struct Labelled {
    label: &'static str,
    number: u64,
}

impl fmt::Display for Labelled {
    fn fmt<W: fmt::Write>(&self, f: &mut fmt::Formatter<W>) -> fmt::Result {
        let Labelled { label, number } = *self;
        if label.is_empty() {
            return Ok(());
        }
        write!(f, " {label}={number}")
    }
}

/// A name, and up to three numbers.
#[derive(Clone, Copy)]
pub struct Numbers {
    name: &'static str,
    first: Labelled,
    second: Labelled,
    third: Labelled,
}

impl fmt::Display for Numbers {
    fn fmt<W: fmt::Write>(&self, f: &mut fmt::Formatter<W>) -> fmt::Result {
        let (name, first) = (self.name, self.first);
        let (second, third) = (self.second, self.third);
        write!(f, "{name}{first}{second}{third}")
    }
}

/// How something ended.
#[derive(Clone, Copy)]
pub enum Ending {
    Named(Numbers),
    Hello(HelloDiffers),
    Overlap(Span),
}

/// What differs first in a hello, what was wanted and what came.
fn write_hello<W: fmt::Write>(f: &mut fmt::Formatter<W>, differs: &HelloDiffers) -> fmt::Result {
    match differs {
        HelloDiffers::Id { want, got } => {
            let want = Hex { bytes: want };
            let got = Hex { bytes: got };
            write!(f, "bad-hello id want={want} got={got}")
        }
        HelloDiffers::Version { want, got } => {
            write!(f, "bad-hello version want={want} got={got}")
        }
        HelloDiffers::Statement { want, got } => {
            let want = HexDigests { digests: want };
            let got = HexDigests { digests: got };
            write!(f, "bad-hello statement want={want} got={got}")
        }
    }
}

impl fmt::Display for Ending {
    fn fmt<W: fmt::Write>(&self, f: &mut fmt::Formatter<W>) -> fmt::Result {
        match self {
            Ending::Named(numbers) => write!(f, "{numbers}"),
            Ending::Hello(differs) => write_hello(f, differs),
            Ending::Overlap(Span { start, end }) => write!(f, "overlap earlier={start}..{end}"),
        }
    }
}

/// A number that is said.
fn with_label(label: &'static str, number: u64) -> Labelled {
    Labelled { label, number }
}

/// An ending with these numbers.
fn named(name: &'static str, first: Labelled, second: Labelled, third: Labelled) -> Ending {
    Ending::Named(Numbers {
        name,
        first,
        second,
        third,
    })
}

/// An ending without numbers.
fn bare(name: &'static str) -> Ending {
    single(name, "", 0)
}

/// An ending with one number.
fn single(name: &'static str, label: &'static str, number: u64) -> Ending {
    pair(name, with_label(label, number), with_label("", 0))
}

/// An ending with two.
fn pair(name: &'static str, first: Labelled, second: Labelled) -> Ending {
    named(name, first, second, with_label("", 0))
}

/// An equation of this number that does not hold, and its sides.
fn rejected(name: &'static str, label: &'static str, number: u32, left: Fe, right: Fe) -> Ending {
    named(
        name,
        with_label(label, u64::from(number)),
        with_label("left", left.value()),
        with_label("right", right.value()),
    )
}

/// How a session ended for the verifier.
pub fn verifier_ending(outcome: VerifierOutcome) -> Ending {
    match outcome {
        VerifierOutcome::Accepted => bare("accepted"),
        VerifierOutcome::RejectedSum {
            section,
            left,
            right,
        } => rejected("rejected-sum", "section", section, left, right),
        VerifierOutcome::RejectedOpening {
            output,
            left,
            right,
        } => rejected("rejected-opening", "output", output, left, right),
        VerifierOutcome::PeerEnded { at } => single("peer-ended", "at", at),
        VerifierOutcome::BadFrame { place } => single("bad-frame", "place", place),
        VerifierOutcome::BadHello(differs) => Ending::Hello(differs),
        VerifierOutcome::Exhausted { at, count, total } => named(
            "exhausted",
            with_label("at", at),
            with_label("count", u64::from(count)),
            with_label("total", total),
        ),
        VerifierOutcome::Device => bare("device"),
        VerifierOutcome::Broken { first } => single("broken", "first", first),
        VerifierOutcome::NoBlock { wants } => single("no-block", "wants", u64::from(wants)),
        VerifierOutcome::Broker => bare("broker"),
        VerifierOutcome::Link => bare("link"),
        VerifierOutcome::NoMemory => bare("no-memory"),
    }
}

/// How a session ended for the prover.
pub fn prover_ending(outcome: ProverOutcome) -> Ending {
    match outcome {
        ProverOutcome::Accepted => bare("accepted"),
        ProverOutcome::Rejected { code, number } => pair(
            "rejected",
            with_label("code", u64::from(code)),
            with_label("number", u64::from(number)),
        ),
        ProverOutcome::PeerEnded { at } => single("peer-ended", "at", at),
        ProverOutcome::BadFrame { place } => single("bad-frame", "place", place),
        ProverOutcome::BadGrant => bare("bad-grant"),
        ProverOutcome::PeerRefused { code } => single("peer-refused", "code", u64::from(code)),
        ProverOutcome::Broken { first } => single("broken", "first", first),
        ProverOutcome::OutOfRange { total } => single("out-of-range", "total", total),
        ProverOutcome::Overlap { earlier } => Ending::Overlap(earlier),
        ProverOutcome::Full { slots } => single("full", "slots", slots),
        ProverOutcome::Device => bare("device"),
        ProverOutcome::Link => bare("link"),
        ProverOutcome::NoMemory => bare("no-memory"),
    }
}

/// How an exchange with a node ended for a broker.
#[derive(Clone, Copy)]
pub struct Exchanged<'a> {
    pub outcome: &'a BrokerOutcome<LeaseFault>,
}

/// The want that was answered, and with what.
fn write_answered<W: fmt::Write>(
    f: &mut fmt::Formatter<W>,
    want: Want,
    reply: Reply,
) -> fmt::Result {
    let Want {
        node,
        number,
        count,
    } = want;
    write!(f, "answered want={node},{number},{count} ")?;
    match reply {
        Reply::Block(block) => {
            let start = block.start;
            let end = start.saturating_add(u64::from(block.count));
            write!(f, "block={start}..{end}")
        }
        Reply::Out(out) => {
            let at = out.at;
            write!(f, "out={at}")
        }
    }
}

/// How a lease was refused.
fn lease_ending(fault: LeaseFault) -> Ending {
    match fault {
        LeaseFault::Exhausted { at, count, total } => named(
            "exhausted",
            with_label("at", at),
            with_label("count", u64::from(count)),
            with_label("total", total),
        ),
        LeaseFault::Device => bare("device"),
        LeaseFault::Broken { first } => single("broken", "first", first),
    }
}

impl fmt::Display for Exchanged<'_> {
    fn fmt<W: fmt::Write>(&self, f: &mut fmt::Formatter<W>) -> fmt::Result {
        let ending = match self.outcome {
            BrokerOutcome::Answered(want, reply) => return write_answered(f, *want, *reply),
            BrokerOutcome::PeerEnded { at } => single("peer-ended", "at", *at),
            BrokerOutcome::BadFrame { place } => single("bad-frame", "place", *place),
            BrokerOutcome::Link => bare("link"),
            BrokerOutcome::NoMemory => bare("no-memory"),
            BrokerOutcome::Refused(fault) => lease_ending(*fault),
        };
        write!(f, "{ending}")
    }
}

/// A try of a node to get units of its broker: how it ended, how many bytes each side sent in a row, and the first eight bytes of SHA-256 of
/// all of them.
#[derive(Clone, Copy)]
pub struct Tried<'a> {
    pub made: &'a Try<PieceLink>,
}

/// The reply that came, or how a try ended without.
fn write_try<W: fmt::Write>(f: &mut fmt::Formatter<W>, outcome: TryOutcome) -> fmt::Result {
    match outcome {
        TryOutcome::Block(block) => {
            let Block {
                node,
                number,
                start,
                count,
            } = block;
            write!(f, "block={node},{number},{start},{count}")
        }
        TryOutcome::Out(out) => {
            let Out { node, number, at } = out;
            write!(f, "out={node},{number},{at}")
        }
        TryOutcome::PeerEnded { at } => write!(f, "peer-ended at={at}"),
        TryOutcome::BadFrame { place } => write!(f, "bad-frame place={place}"),
        TryOutcome::Link => write!(f, "link"),
        TryOutcome::NoMemory => write!(f, "no-memory"),
    }
}

impl fmt::Display for Tried<'_> {
    fn fmt<W: fmt::Write>(&self, f: &mut fmt::Formatter<W>) -> fmt::Result {
        write!(f, "try ")?;
        write_try(f, self.made.outcome)?;
        write_runs(f, &self.made.log)?;
        let digest = Sha256::digest(self.made.log.bytes());
        let (front, _) = digest.split_at(8);
        let front = Hex { bytes: front };
        write!(f, " #{front}")
    }
}

/// The verdict of a rehearsal.
#[derive(Clone, Copy)]
pub struct Judged {
    pub verdict: Verdict,
}

impl fmt::Display for Judged {
    fn fmt<W: fmt::Write>(&self, f: &mut fmt::Formatter<W>) -> fmt::Result {
        match self.verdict {
            Verdict::Accepted => write!(f, "accepted"),
            Verdict::RejectedSum { section } => write!(f, "rejected-sum section={section}"),
            Verdict::RejectedOpening { output } => write!(f, "rejected-opening output={output}"),
        }
    }
}

/// The units of a session, or `none`.
#[derive(Clone, Copy)]
pub struct Units {
    pub span: Option<Span>,
}

impl fmt::Display for Units {
    fn fmt<W: fmt::Write>(&self, f: &mut fmt::Formatter<W>) -> fmt::Result {
        match self.span {
            Some(Span { start, end }) => write!(f, "{start}..{end}"),
            None => write!(f, "none"),
        }
    }
}

/// What was asked of who has the units.
#[derive(Clone, Copy)]
pub enum Asked {
    Nothing,
    /// So many.
    Count(u32),
    /// So many from this one on.
    From(u64, u64),
}

impl fmt::Display for Asked {
    fn fmt<W: fmt::Write>(&self, f: &mut fmt::Formatter<W>) -> fmt::Result {
        match self {
            Asked::Nothing => write!(f, "none"),
            Asked::Count(count) => write!(f, "{count}"),
            Asked::From(start, count) => write!(f, "{start}+{count}"),
        }
    }
}

/// A log: how many bytes each side sent in a row, `p` the prover and `v` the verifier, how many they are, and SHA-256 of them.
#[derive(Clone, Copy)]
pub struct Logged<'a> {
    pub log: &'a Log,
}

/// How many bytes each side sent in a row.
fn write_runs<W: fmt::Write>(f: &mut fmt::Formatter<W>, log: &Log) -> fmt::Result {
    for run in log.runs() {
        let count = run.count;
        match run.side {
            Side::Prover => write!(f, " p{count}")?,
            Side::Verifier => write!(f, " v{count}")?,
        }
    }
    Ok(())
}

impl fmt::Display for Logged<'_> {
    fn fmt<W: fmt::Write>(&self, f: &mut fmt::Formatter<W>) -> fmt::Result {
        write!(f, "log")?;
        write_runs(f, self.log)?;
        let count = self.log.bytes().len();
        let digest = Sha256::digest(self.log.bytes());
        let digest = Hex { bytes: &digest };
        write!(f, " bytes={count} sha256={digest}")
    }
}

/// How many calls of a link there were, and how many of them failed.
#[derive(Clone, Copy)]
pub struct Called<'a> {
    pub link: &'a PieceLink,
}

impl fmt::Display for Called<'_> {
    fn fmt<W: fmt::Write>(&self, f: &mut fmt::Formatter<W>) -> fmt::Result {
        let sends = self.link.sends();
        let receives = self.link.receives();
        let failed = self.link.faults();
        write!(f, "sends={sends} receives={receives} failed={failed}")
    }
}
