// A session that both ends hold with each other, turn by turn: each has what the other has sent.
ghost use Rattle.std.specs.Prelude.{◌≤◌};
ghost use Rattle.zk_model.specs.Files.{AreParams};

use crate::given::SEED;
use crate::units::{AskedUnits, FirstUnits};
use claim_prover::{ProverEnd, Witness, prove_claim};
use claim_verifier::{SessionEnd, verify_claim};
use dealer_files::{ProverFile, VerifierFile, deal};
use frame_link::{Line, Log};
use memory_ports::{NoFault, ScriptedLink};
use session_claim::Claim;
use session_core::{Judgement, Verdict, units_for};
use std::alloc::{AllocError, Global};
use std::test::Fail;
use std::thread::Threads;
use zk_model::{MAX_UNITS, Params, Side};

/// How many turns a session has at most: a hello, asks, corrections, answers, and the verdict.
const TURNS: u32 = 5;

/// A verdict as its frame says it: its code, 0 where it accepts, and its number.
#[derive(Clone, Copy, Debug, PartialEq, Eq)]
pub struct Said {
    pub code: u8,
    pub number: u32,
}

/// The verdict that each end has at its end, if it came to one.
#[derive(Clone, Copy, Debug, PartialEq, Eq)]
pub struct Held {
    pub prover: Option<Said>,
    pub verifier: Option<Said>,
}

impl Held {
    /// Both ends came to this verdict.
    pub fn both(code: u8, number: u32) -> Held {
        let said = Some(Said { code, number });
        Held {
            prover: said,
            verifier: said,
        }
    }
}

/// What a judgement says.
fn judged(judgement: &Judgement) -> Said {
    match judgement.verdict() {
        Verdict::Accepted => Said { code: 0, number: 0 },
        Verdict::RejectedSum { section } => Said {
            code: 1,
            number: section,
        },
        Verdict::RejectedOpening { output } => Said {
            code: 2,
            number: output,
        },
    }
}

/// The verdict that a prover read.
fn read_by(end: ProverEnd) -> Option<Said> {
    match end {
        ProverEnd::Said { code, number } => Some(Said { code, number }),
        ProverEnd::Refused { .. } | ProverEnd::Cut { .. } => None,
    }
}

/// The verdict that a verifier said.
fn said_by(end: SessionEnd) -> Option<Said> {
    match end {
        SessionEnd::Judged { judgement } => Some(judged(&judgement)),
        SessionEnd::Refused { .. } | SessionEnd::Cut { .. } => None,
    }
}

/// What one side sent.
fn part_of(alloc: Global, log: &Log, side: Side) -> Result<Vec<u8>, AllocError> {
    let mut part = Vec::new(alloc);
    let mut rest = log.bytes();
    for run in log.runs() {
        let Some((bytes, behind)) = rest.split_at_checked(run.count) else {
            break;
        };
        if run.side == side {
            part.extend_from_slice(bytes)?;
        }
        rest = behind;
    }
    Ok(part)
}

/// How a prover ended whose peer sent these bytes, and what it sent.
fn prover_end<R: Threads + Sync, W: Witness>(
    rt: &R,
    alloc: Global,
    witness: &W,
    file: &ProverFile,
    heard: &[u8],
) -> Result<(Option<Said>, Vec<u8>), Fail> {
    let link = ScriptedLink::new(alloc, heard.to_vec(alloc)?, NoFault);
    let mut line = Line::new(alloc, link, Side::Prover);
    let mut claimant = AskedUnits {
        total: file.total(),
        asked: None,
        answer: None,
    };
    let end = prove_claim(rt, alloc, witness, file, &mut claimant, &mut line);
    let (_link, log) = line.end();
    let sent = part_of(alloc, &log, Side::Prover)?;
    Ok((read_by(end), sent))
}

/// How a verifier ended whose peer sent these bytes, and what it sent.
fn verifier_end<R: Threads + Sync, C: Claim>(
    rt: &R,
    alloc: Global,
    claim: &C,
    file: &VerifierFile,
    section: u32,
    heard: &[u8],
) -> Result<(Option<Said>, Vec<u8>), Fail>
    requires { 1 ≤ section }
{
    if units_for(&file.params(), claim.need(section)) > MAX_UNITS {
        return Err(Fail::new("too many units"));
    }
    let link = ScriptedLink::new(alloc, heard.to_vec(alloc)?, NoFault);
    let mut line = Line::new(alloc, link, Side::Verifier);
    let mut grantor = FirstUnits {
        total: file.total(),
        asked: None,
        answer: None,
    };
    let end = verify_claim(rt, alloc, claim, file, section, &mut grantor, &mut line);
    let (_link, log) = line.end();
    let sent = part_of(alloc, &log, Side::Verifier)?;
    Ok((said_by(end), sent))
}

/// Holds a session about a claim, over files that are dealt for it.
pub fn hold<R: Threads + Sync, W: Witness>(
    rt: &R,
    alloc: Global,
    witness: &W,
    params: &Params,
    section: u32,
) -> Result<Held, Fail>
    requires params { AreParams params.now }
    requires section { 1 ≤ section }
{
    let (prover_file, verifier_file) = deal(alloc, params, &SEED)?;
    let mut said = Vec::new(alloc);
    let mut heard = Vec::new(alloc);
    for _ in 0..TURNS {
        let (_, sent) = prover_end(rt, alloc, witness, &prover_file, &heard)?;
        said = sent;
        let (_, sent) = verifier_end(rt, alloc, witness, &verifier_file, section, &said)?;
        heard = sent;
    }
    let (prover, _) = prover_end(rt, alloc, witness, &prover_file, &heard)?;
    let (verifier, _) = verifier_end(rt, alloc, witness, &verifier_file, section, &said)?;
    Ok(Held { prover, verifier })
}
