// Runs of the program, as either end of sessions with peers whose bytes are stated.
ghost use Rattle.std.specs.Prelude.{IfOk};
ghost use Rattle.zk_port.specs.Doors.{IsFreshLink};

use crate::cases::{Case, cases_of, link_of};
use crate::given::words_of;
use crate::piece_link::PieceLink;
use crate::runs::{Doors, Peers, empty_door, is_proof, run_lines};
use crate::say::Bits;
use crate::scenario::{NOTHING_REFUSED, Scenario, Service};
use anyhow::Result;
use command_words::write_bits;
use std::alloc::Global;
use std::sync::Wait;
use std::thread::Threads;
use zk_port::Link;

/// What those send who call at the door, or are called in a proof, and the brokers to which a node connects.
#[derive(Clone, Copy)]
struct Scripts<'a> {
    callers: &'a [Vec<u8>],
    brokers: &'a [Vec<u8>],
}

/// A scenario, its public bits, and the outputs that are claimed in it.
#[derive(Clone, Copy)]
pub struct Claimed<'a, 'b> {
    pub scenario: &'a Scenario<'b>,
    pub public: &'a [bool],
    pub outputs: &'a [bool],
}

impl Claimed<'_, '_> {
    /// Whether a service is about a file of statements.
    fn offers_many(&self) -> bool {
        let scenario = self.scenario;
        !scenario.outside.files.statements.is_empty()
    }
}

/// Adds an option to the words, where its value is not empty.
fn push_option(alloc: Global, words: &mut Vec<String>, name: &str, value: &str) -> Result<()> {
    if !value.is_empty() {
        words.push(String::from_str(alloc, name)?)?;
        words.push(String::from_str(alloc, value)?)?;
    }
    Ok(())
}

/// Adds the option of public bits, where there are some.
fn push_public(alloc: Global, words: &mut Vec<String>, public: &[bool]) -> Result<()> {
    if !public.is_empty() {
        push_option(alloc, words, "--public", &write_bits(alloc, public)?)?;
    }
    Ok(())
}

/// The words that name a service, and what it is about.
fn service_line_of(alloc: Global, claimed: &Claimed<'_, '_>) -> Result<String> {
    let scenario = claimed.scenario;
    let (circuit, section) = (scenario.circuit, scenario.section);
    let outputs = Bits {
        bits: claimed.outputs,
    };
    if claimed.offers_many() {
        return Ok(format!(in alloc; "serve-many,here,x.verifier,statements,--section,{section}")?);
    }
    let service = scenario.service;
    let node = service.node;
    if !node.is_empty() {
        return Ok(format!(in alloc;
            "serve-node,here,there,x.verifier,{circuit},{outputs},--node,{node}"
        )?);
    }
    Ok(format!(in alloc; "serve,here,x.verifier,{circuit},{outputs},--section,{section}")?)
}

/// Adds the options of a service.
fn push_service(alloc: Global, words: &mut Vec<String>, service: &Service<'_>) -> Result<()> {
    push_option(alloc, words, "--sessions", service.sessions)?;
    push_option(alloc, words, "--workers", service.workers)?;
    push_option(alloc, words, "--logs", service.logs)?;
    if service.follows {
        words.push(String::from_str(alloc, "--follow")?)?;
    }
    Ok(())
}

/// The words of a service about a claim.
fn service_words(alloc: Global, claimed: &Claimed<'_, '_>) -> Result<Vec<String>> {
    let line = service_line_of(alloc, claimed)?;
    let mut words = words_of(alloc, claimed.scenario, &line)?;
    push_service(alloc, &mut words, &claimed.scenario.service)?;
    if !claimed.offers_many() {
        push_public(alloc, &mut words, claimed.public)?;
    }
    Ok(words)
}

/// The link of the peer of this number, whose honest bytes these are: the stated one does what is stated.
fn peer_link(
    alloc: Global,
    scenario: &Scenario<'_>,
    number: usize,
    honest: &[u8],
    stated: &Case,
) -> Result<PieceLink>
    ensures { IfOk result (λ link. IsFreshLink (⟦<PieceLink as Link>⟧.state link)) }
{
    if number as u64 == scenario.service.peer {
        return link_of(
            alloc,
            stated.script.to_vec(alloc)?,
            stated.refused,
            stated.piece,
        );
    }
    link_of(alloc, honest.to_vec(alloc)?, NOTHING_REFUSED, 4096)
}

/// A door at which these peers call, or where the words are those of a proof, to which it connects, as it does to the brokers: the one of the
/// stated number does what is stated, where brokers count behind those who call, and the others do as they are said to.
fn peers_door(
    alloc: Global,
    scenario: &Scenario<'_>,
    scripts: Scripts<'_>,
    words: &[String],
    stated: &Case,
) -> Result<Peers> {
    let mut door = empty_door(alloc, scenario)?;
    let connects = is_proof(words);
    for (number, script) in scripts.callers.iter().enumerate() {
        let link = peer_link(alloc, scenario, number, script, stated)?;
        if connects {
            door.call(link)?;
        } else {
            door.wait(link)?;
        }
    }
    for (place, script) in scripts.brokers.iter().enumerate() {
        let number = scripts.callers.len().saturating_add(place);
        door.call(peer_link(alloc, scenario, number, script, stated)?)?;
    }
    Ok(door)
}

/// The lines of a run of these words, of whose peers one does what is stated.
fn stated_lines<R: Threads + Wait + Sync>(
    rt: &R,
    alloc: Global,
    scenario: &Scenario<'_>,
    scripts: Scripts<'_>,
    words: &[String],
    stated: &Case,
) -> Result<String> {
    let doors = Doors {
        first: peers_door(alloc, scenario, scripts, words, stated)?,
        again: peers_door(alloc, scenario, scripts, words, stated)?,
    };
    run_lines(rt, alloc, scenario, &stated.name, doors, words)
}

/// What the peer of this number sends, if there is one: brokers count behind those who call.
fn script_at<'a>(scripts: Scripts<'a>, number: usize) -> &'a [u8] {
    if let Some(script) = scripts.callers.get(number) {
        return script.as_slice();
    }
    match scripts
        .brokers
        .get(number.saturating_sub(scripts.callers.len()))
    {
        Some(script) => script.as_slice(),
        None => &[],
    }
}

/// The lines of runs of these words, with these peers: of each its honest bytes.
fn peers_lines<R: Threads + Wait + Sync>(
    rt: &R,
    alloc: Global,
    scenario: &Scenario<'_>,
    honest: &[Vec<u8>],
    words: &[String],
) -> Result<String> {
    let brokers = stated_scripts(alloc, scenario.service.brokers)?;
    let scripts = Scripts {
        callers: honest,
        brokers: &brokers,
    };
    let script = script_at(scripts, scenario.service.peer as usize);
    let mut lines = String::new(alloc);
    for stated in &cases_of(alloc, &scenario.peer, script)? {
        lines.push_str(&stated_lines(rt, alloc, scenario, scripts, words, stated)?)?;
    }
    Ok(lines)
}

/// The lines of runs of the program that serve a claim, with these peers at the door: for each its honest bytes.
pub fn service_lines<R: Threads + Wait + Sync>(
    rt: &R,
    alloc: Global,
    claimed: &Claimed<'_, '_>,
    honest: &[Vec<u8>],
) -> Result<String> {
    let words = service_words(alloc, claimed)?;
    peers_lines(rt, alloc, claimed.scenario, honest, &words)
}

/// The words of a proof of a claim.
fn proof_words(alloc: Global, claimed: &Claimed<'_, '_>) -> Result<Vec<String>> {
    let outputs = Bits {
        bits: claimed.outputs,
    };
    let circuit = claimed.scenario.circuit;
    let line = format!(in alloc; "prove,here,x.prover,{circuit},BITS,{outputs}")?;
    let mut words = words_of(alloc, claimed.scenario, &line)?;
    push_public(alloc, &mut words, claimed.public)?;
    Ok(words)
}

/// The lines of runs of the program that prove a claim to a peer whose honest bytes are these.
pub fn proof_lines<R: Threads + Wait + Sync>(
    rt: &R,
    alloc: Global,
    claimed: &Claimed<'_, '_>,
    honest: &[u8],
) -> Result<String> {
    let words = proof_words(alloc, claimed)?;
    let mut peers = Vec::new(alloc);
    peers.push(honest.to_vec(alloc)?)?;
    peers_lines(rt, alloc, claimed.scenario, &peers, &words)
}

/// What peers send, in hex, or `-` for nothing, with commas between.
fn stated_scripts(alloc: Global, calls: &str) -> Result<Vec<Vec<u8>>> {
    let mut scripts = Vec::new(alloc);
    for script in calls.split(',').filter(|script| !script.is_empty()) {
        let bytes = if script == "-" { "" } else { script };
        scripts.push(hex::decode(alloc, bytes)?)?;
    }
    Ok(scripts)
}

/// The lines of runs of a scenario's words, with the peers whose bytes are stated.
pub fn words_lines<R: Threads + Wait + Sync>(
    rt: &R,
    alloc: Global,
    scenario: &Scenario<'_>,
) -> Result<String> {
    let words = words_of(alloc, scenario, scenario.outside.words)?;
    let scripts = stated_scripts(alloc, scenario.service.calls)?;
    peers_lines(rt, alloc, scenario, &scripts, &words)
}
