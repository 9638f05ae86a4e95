// Sessions of either end over a link in memory, and what came of them.
ghost use Rattle.std.specs.Prelude.{◌≡◌, true};

use crate::cases::{Case, cases_of, link_of};
use crate::piece_link::PieceLink;
use crate::say::{Asked, Called, Ending, Logged, Units, prover_ending, verifier_ending};
use crate::scenario::{NOTHING_REFUSED, Scenario};
use crate::units::{AskedUnits, NextUnits, claim_fault, grant_fault};
use anyhow::Result;
use claim_store::ClaimFault;
use frame_link::Log;
use lease_store::GrantFault;
use session_core::{ProverJob, VerifierJobs};
use session_prover::{ProverNote, prove_session};
use session_verifier::{SessionNote, verify_session};
use std::alloc::{AllocError, Global};
use std::thread::Threads;
use zk_model::{Side, Span};
use zk_port::Link;

/// What came of a session of either end.
#[derive(Drop)]
struct Session {
    ended: Ending,
    asked: Asked,
    granted: Option<Span>,
    log: Log,
    link: PieceLink,
}

impl Session {
    /// One that ended so, after it asked for these units.
    fn new(ended: Ending, asked: Asked, granted: Option<Span>, log: Log, link: PieceLink) -> Self {
        Session {
            ended,
            asked,
            granted,
            log,
            link,
        }
    }
}

/// What came of a verifier's session, in which it asked for units so, with the statement that it took.
fn verified(asked: Option<u32>, note: SessionNote<PieceLink>) -> (Option<u32>, Session) {
    let asked = match asked {
        Some(count) => Asked::Count(count),
        None => Asked::Nothing,
    };
    let ended = verifier_ending(note.outcome);
    (
        note.statement,
        Session::new(ended, asked, note.granted, note.log, note.link),
    )
}

/// What came of a verifier's session whose units are leased from this one on, or refused, and the statement that it took.
fn verify<R: Threads + Sync>(
    rt: &R,
    alloc: Global,
    jobs: &VerifierJobs<'_>,
    start: u64,
    fault: Option<GrantFault>,
    link: PieceLink,
) -> (Option<u32>, Session)
    requires { (⟦<PieceLink as Link>⟧.state link).is_open ≡ true }
{
    let mut grantor = NextUnits {
        start,
        total: jobs.noted(None).file().total(),
        fault,
        asked: None,
        answer: None,
    };
    let note = verify_session(rt, alloc, jobs, &mut grantor, link);
    verified(grantor.asked, note)
}

/// What came of a prover's session, in which it asked for units so.
fn proved(asked: Option<(u64, u64)>, note: ProverNote<PieceLink>) -> Session {
    let asked = match asked {
        Some((start, count)) => Asked::From(start, count),
        None => Asked::Nothing,
    };
    let ended = prover_ending(note.outcome);
    Session::new(ended, asked, note.granted, note.log, note.link)
}

/// What came of a prover's session whose units are claimed, or refused.
fn prove<R: Threads + Sync>(
    rt: &R,
    alloc: Global,
    job: &ProverJob<'_>,
    fault: Option<ClaimFault>,
    link: PieceLink,
) -> Session
    requires { (⟦<PieceLink as Link>⟧.state link).is_open ≡ true }
{
    let mut claimant = AskedUnits {
        total: job.file().total(),
        fault,
        asked: None,
        answer: None,
    };
    let note = prove_session(rt, alloc, job, &mut claimant, link);
    proved(claimant.asked, note)
}

/// What one side sent.
fn part_of(alloc: Global, log: &Log, side: Side) -> Result<Vec<u8>, AllocError> {
    let mut part = Vec::new(alloc);
    let mut rest = log.bytes();
    for run in log.runs() {
        let Some((bytes, behind)) = rest.split_at_checked(run.count) else {
            break;
        };
        if run.side == side {
            part.extend_from_slice(bytes)?;
        }
        rest = behind;
    }
    Ok(part)
}

/// What each end sends in a session that both hold with each other.
#[derive(Drop)]
pub struct Dialogue {
    pub prover: Vec<u8>,
    pub verifier: Vec<u8>,
}

/// What a prover sends whose peer sends these bytes.
fn prover_part<R: Threads + Sync>(
    rt: &R,
    alloc: Global,
    job: &ProverJob<'_>,
    heard: &[u8],
) -> Result<Vec<u8>> {
    let link = link_of(alloc, heard.to_vec(alloc)?, NOTHING_REFUSED, 4096)?;
    let session = prove(rt, alloc, job, None, link);
    Ok(part_of(alloc, &session.log, Side::Prover)?)
}

/// What a verifier sends whose peer sends these bytes.
fn verifier_part<R: Threads + Sync>(
    rt: &R,
    alloc: Global,
    jobs: &VerifierJobs<'_>,
    start: u64,
    heard: &[u8],
) -> Result<Vec<u8>> {
    let link = link_of(alloc, heard.to_vec(alloc)?, NOTHING_REFUSED, 4096)?;
    let (_, session) = verify(rt, alloc, jobs, start, None, link);
    Ok(part_of(alloc, &session.log, Side::Verifier)?)
}

/// The session that both ends hold with each other: turn by turn, each has what the other has sent.
pub fn hold_dialogue<R: Threads + Sync>(
    rt: &R,
    alloc: Global,
    start: u64,
    prover: &ProverJob<'_>,
    verifier: &VerifierJobs<'_>,
) -> Result<Dialogue> {
    let mut sent = Dialogue {
        prover: Vec::new(alloc),
        verifier: Vec::new(alloc),
    };
    for _ in 0..4 {
        sent.prover = prover_part(rt, alloc, prover, &sent.verifier)?;
        sent.verifier = verifier_part(rt, alloc, verifier, start, &sent.prover)?;
    }
    Ok(sent)
}

/// Which statement was taken, where a verifier offers two.
fn taken_word(
    alloc: Global,
    offers_two: bool,
    statement: Option<u32>,
) -> Result<String, AllocError> {
    match statement {
        _ if !offers_two => Ok(String::new(alloc)),
        None => String::from_str(alloc, " statement=none"),
        Some(number) => format!(in alloc; " statement={number}"),
    }
}

/// The line of a session of this name, with a word on the statement that was taken.
fn line_of(alloc: Global, name: &str, taken: &str, session: &Session) -> Result<String> {
    let (ended, asked) = (session.ended, &session.asked);
    let units = Units {
        span: session.granted,
    };
    let log = Logged { log: &session.log };
    let calls = Called {
        link: &session.link,
    };
    Ok(format!(in alloc; "{name}{ended}{taken} asked={asked} units={units} {log} {calls}\n")?)
}

/// The end of a session that is run, and what it is to do.
#[derive(Clone, Copy)]
pub enum EndJob<'a, 'b> {
    Verifier(&'a VerifierJobs<'b>),
    Prover(&'a ProverJob<'b>),
}

/// The line of one session of this end.
fn session_line<R: Threads + Sync>(
    rt: &R,
    alloc: Global,
    scenario: &Scenario<'_>,
    job: EndJob<'_, '_>,
    case: Case,
) -> Result<String> {
    let Case {
        name,
        script,
        refused,
        piece,
    } = case;
    let link = link_of(alloc, script, refused, piece)?;
    match job {
        EndJob::Verifier(jobs) => {
            let fault = grant_fault(scenario.refusal)?;
            let (statement, session) = verify(rt, alloc, jobs, scenario.start, fault, link);
            let taken = taken_word(alloc, scenario.before.is_some(), statement)?;
            line_of(alloc, &name, &taken, &session)
        }
        EndJob::Prover(job) => {
            let fault = claim_fault(scenario.refusal)?;
            let session = prove(rt, alloc, job, fault, link);
            line_of(alloc, &name, "", &session)
        }
    }
}

/// The lines of sessions of this end, whose honest peer sends these bytes.
pub fn session_lines<R: Threads + Sync>(
    rt: &R,
    alloc: Global,
    scenario: &Scenario<'_>,
    job: EndJob<'_, '_>,
    honest: &[u8],
) -> Result<String> {
    let mut lines = String::new(alloc);
    for case in cases_of(alloc, &scenario.peer, honest)? {
        lines.push_str(&session_line(rt, alloc, scenario, job, case)?)?;
    }
    Ok(lines)
}
