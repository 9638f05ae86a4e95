// How a session of a prover is said.
ghost use Rattle.std.specs.Prelude.{◌≡◌, ◌++◌, IfOk, Some, codes, string_bytes};
ghost use Rattle.std.specs.Fmt.{decimal};
ghost use Rattle.zk_port.specs.Changes.{change};
ghost use Rattle.prove_command.specs.ProveRuns.{proved_line, proved_status, span_words, verdict_words};
ghost use Rattle.file_commands.specs.Stops.{PrintsMade};

use file_commands::{say, say_memory};
use session_prover::ProverOutcome;
use std::alloc::{AllocError, Global};
use zk_model::Span;
use zk_port::Sink;

/// These units, in words.
fn write_units(alloc: Global, span: Span) -> Result<String, AllocError>
    ensures { IfOk result (λ words. string_bytes words ≡ span_words (Some span)) }
{
    let Span { start, end } = span;
    Ok(format!(in alloc; "units {start}..{end}")?)
}

/// The units that were claimed, in words.
fn write_span(alloc: Global, granted: Option<Span>) -> Result<String, AllocError>
    ensures { IfOk result (λ words. string_bytes words ≡ span_words granted) }
{
    match granted {
        Some(span) => write_units(alloc, span),
        None => String::from_str(alloc, "units none"),
    }
}

/// What the verdict says was not equal, in words.
fn write_verdict(alloc: Global, code: u8, number: u32) -> Result<String, AllocError>
    ensures { IfOk result (λ words. string_bytes words ≡ verdict_words code number) }
{
    if code == 1 {
        Ok(format!(in alloc; " rejected sum {number}")?)
    } else {
        Ok(format!(in alloc; " rejected opening {number}")?)
    }
}

/// The line of a session that was accepted.
fn write_accepted(alloc: Global, granted: Option<Span>) -> Result<String, AllocError>
    ensures { IfOk result (λ line. string_bytes line ≡ span_words granted ++ codes " accepted\n") }
{
    let words = write_span(alloc, granted)?;
    Ok(format!(in alloc; "{words} accepted\n")?)
}

/// The line of a session that was rejected.
fn write_rejected(
    alloc: Global,
    granted: Option<Span>,
    code: u8,
    number: u32,
) -> Result<String, AllocError>
    ensures { IfOk result (λ line. string_bytes line
        ≡ span_words granted ++ verdict_words code number ++ codes "\n") }
{
    let words = write_span(alloc, granted)?;
    let verdict = write_verdict(alloc, code, number)?;
    Ok(format!(in alloc; "{words}{verdict}\n")?)
}

/// The line that says which earlier claim has a unit of the grant.
fn write_overlap(alloc: Global, earlier: Span) -> Result<String, AllocError>
    ensures { IfOk result (λ line. string_bytes line
        ≡ codes "peer overlap " ++ decimal earlier.start ++ codes ".." ++ decimal earlier.end ++ codes "\n") }
{
    let Span { start, end } = earlier;
    Ok(format!(in alloc; "peer overlap {start}..{end}\n")?)
}

/// The line of a session for which these units were claimed, where the disk's calls have failed so often.
fn write_proved(
    alloc: Global,
    granted: Option<Span>,
    count: u64,
    outcome: &ProverOutcome,
) -> Result<String, AllocError>
    ensures { IfOk result (λ line. string_bytes line ≡ proved_line granted count outcome.now) }
{
    match *outcome {
        ProverOutcome::Accepted => write_accepted(alloc, granted),
        ProverOutcome::Rejected { code, number } => write_rejected(alloc, granted, code, number),
        ProverOutcome::PeerEnded { at } => Ok(format!(in alloc; "peer ended {at}\n")?),
        ProverOutcome::BadFrame { place } => Ok(format!(in alloc; "peer frame {place}\n")?),
        ProverOutcome::BadGrant => String::from_str(alloc, "peer grant\n"),
        ProverOutcome::PeerRefused { code } => Ok(format!(in alloc; "peer refused {code}\n")?),
        ProverOutcome::Overlap { earlier } => write_overlap(alloc, earlier),
        ProverOutcome::OutOfRange { total } => Ok(format!(in alloc; "peer range {total}\n")?),
        ProverOutcome::Full { slots } => Ok(format!(in alloc; "journal full {slots}\n")?),
        ProverOutcome::Broken { first } => Ok(format!(in alloc; "journal failed {first}\n")?),
        ProverOutcome::Device => Ok(format!(in alloc; "journal failed {count}\n")?),
        ProverOutcome::Link => String::from_str(alloc, "failed link\n"),
        ProverOutcome::NoMemory => String::from_str(alloc, "memory\n"),
    }
}

/// The status of a session.
fn status_of(outcome: &ProverOutcome) -> u8
    ensures { result ≡ proved_status outcome.now }
{
    match outcome {
        ProverOutcome::Accepted => 0,
        ProverOutcome::Rejected { .. } => 1,
        ProverOutcome::Link => 4,
        ProverOutcome::Device | ProverOutcome::Broken { .. } | ProverOutcome::Full { .. } => 5,
        ProverOutcome::NoMemory => 7,
        ProverOutcome::PeerEnded { .. }
        | ProverOutcome::BadFrame { .. }
        | ProverOutcome::BadGrant
        | ProverOutcome::PeerRefused { .. }
        | ProverOutcome::Overlap { .. }
        | ProverOutcome::OutOfRange { .. } => 8,
    }
}

/// Writes the line of a session, or says that there is no memory for it, and answers the status.
pub fn say_proved<O: Sink>(
    alloc: Global,
    out: &mut O,
    granted: Option<Span>,
    count: u64,
    outcome: &ProverOutcome,
) -> u8
    ensures { PrintsMade (proved_status outcome.now) (proved_line granted count outcome.now) result
        (change (O.state out.old) (O.state out.new)) }
{
    match write_proved(alloc, granted, count, outcome) {
        Ok(line) => say(alloc, out, line.as_bytes(), status_of(outcome)),
        Err(_) => say_memory(alloc, out),
    }
}
