// How the sessions of a run are said.
ghost use Rattle.std.specs.Prelude.{◌≡◌, ◌++◌, IfOk, OnOk, codes, map, string_bytes};
ghost use Rattle.std.specs.Fmt.{decimal};
ghost use Rattle.std.specs.List.{concat};
ghost use Rattle.std.specs.Option.{option_map, option_to_list};
ghost use Rattle.session_verifier.specs.NoteLines.{field_words, outcome_words, is_judged, unit_line, refusal_line, note_line};
ghost use Rattle.session_verifier.specs.NoteLines.{unit_lines, refusal_lines};
ghost use Rattle.session_verifier.specs.NoteLines.{IsServedText, start_of};
ghost use Rattle.std.specs.List.Sorted.{IsPermutation, IsNonDecreasingBy};
ghost use Rattle.session_verifier.specs.NoteLines.{outcome_status, has_status, served_status};

use crate::note::{SessionNote, VerifierOutcome};
use session_core::HelloDiffers;
use std::alloc::{AllocError, Global};
use zk_model::Span;

/// The name of what differs first in a hello.
fn field_name(differs: &HelloDiffers) -> &'static str
    ensures { result.now ≡ field_words differs.now }
{
    match differs {
        HelloDiffers::Id { .. } => "id",
        HelloDiffers::Version { .. } => "version",
        HelloDiffers::Statement { .. } => "statement",
    }
}

/// Which units are missing, in words.
fn write_exhausted(alloc: Global, at: u64, count: u32, total: u64) -> Result<String, AllocError>
    ensures { IfOk result (λ words. string_bytes words
        ≡ codes "exhausted " ++ decimal at ++ codes " " ++ decimal count ++ codes " " ++ decimal total) }
{
    Ok(format!(in alloc; "exhausted {at} {count} {total}")?)
}

/// How a session ended, in words.
fn write_outcome(alloc: Global, outcome: &VerifierOutcome) -> Result<String, AllocError>
    ensures { IfOk result (λ words. string_bytes words ≡ outcome_words outcome.now) }
{
    match outcome {
        VerifierOutcome::Accepted => String::from_str(alloc, "accepted"),
        VerifierOutcome::RejectedSum { section, .. } => {
            Ok(format!(in alloc; "rejected sum {section}")?)
        }
        VerifierOutcome::RejectedOpening { output, .. } => {
            Ok(format!(in alloc; "rejected opening {output}")?)
        }
        VerifierOutcome::PeerEnded { at } => Ok(format!(in alloc; "ended {at}")?),
        VerifierOutcome::BadFrame { place } => Ok(format!(in alloc; "frame {place}")?),
        VerifierOutcome::BadHello(differs) => {
            let field = field_name(differs);
            Ok(format!(in alloc; "hello {field}")?)
        }
        VerifierOutcome::Exhausted { at, count, total } => {
            write_exhausted(alloc, *at, *count, *total)
        }
        VerifierOutcome::Device => String::from_str(alloc, "device"),
        VerifierOutcome::Broken { first } => Ok(format!(in alloc; "journal {first}")?),
        VerifierOutcome::NoBlock { wants } => Ok(format!(in alloc; "block {wants}")?),
        VerifierOutcome::Broker => String::from_str(alloc, "broker"),
        VerifierOutcome::Link => String::from_str(alloc, "link"),
        VerifierOutcome::NoMemory => String::from_str(alloc, "memory"),
    }
}

/// Whether the verifier has judged.
fn is_judged(outcome: &VerifierOutcome) -> bool
    ensures { result ≡ is_judged outcome.now }
{
    matches!(
        outcome,
        VerifierOutcome::Accepted
            | VerifierOutcome::RejectedSum { .. }
            | VerifierOutcome::RejectedOpening { .. }
    )
}

/// The line of a session with these units, after which stand these words.
fn write_units(alloc: Global, span: Span, how: &str, words: &str) -> Result<String, AllocError>
    ensures { IfOk result (λ line. string_bytes line
        ≡ codes "units " ++ decimal span.start ++ codes ".." ++ decimal span.end
        ++ how.now ++ words.now ++ codes "\n") }
{
    let Span { start, end } = span;
    Ok(format!(in alloc; "units {start}..{end}{how}{words}\n")?)
}

/// The line of a session with these units that ended so.
fn write_session(alloc: Global, span: Span, outcome: &VerifierOutcome) -> Result<String, AllocError>
    ensures { IfOk result (λ line. string_bytes line ≡ unit_line span outcome.now) }
{
    let words = write_outcome(alloc, outcome)?;
    let how = if is_judged(outcome) { " " } else { " broken " };
    write_units(alloc, span, how, &words)
}

/// The line of a session, whether it was granted units or not.
pub fn write_note<L>(alloc: Global, note: &SessionNote<L>) -> Result<String, AllocError>
    ensures { IfOk result (λ line. string_bytes line ≡ note_line note.now) }
{
    match note.granted {
        Some(span) => write_session(alloc, span, &note.outcome),
        None => write_refusal(alloc, &note.outcome),
    }
}

/// The line of a session with these units that ended so, and no line where there are no units.
fn write_granted(
    alloc: Global,
    granted: Option<Span>,
    outcome: &VerifierOutcome,
) -> Result<String, AllocError>
    ensures { IfOk result (λ line. string_bytes line
        ≡ concat (option_to_list (option_map (λ span. unit_line span outcome.now) granted))) }
{
    let Some(span) = granted else {
        return Ok(String::new(alloc));
    };
    write_session(alloc, span, outcome)
}

/// The lines of the sessions that were granted units.
fn write_granted_lines<L>(alloc: Global, notes: &[SessionNote<L>]) -> Result<String, AllocError>
    ensures { IfOk result (λ text. string_bytes text ≡ concat (unit_lines notes.now)) }
{
    let mut text = String::new(alloc);
    let mut rest = notes;
    while let [note, behind @ ..] = rest {
        text.push_str(&write_granted(alloc, note.granted, &note.outcome)?)?;
        rest = behind;
    }
    Ok(text)
}

/// The line of a session that was granted no units.
fn write_refusal(alloc: Global, outcome: &VerifierOutcome) -> Result<String, AllocError>
    ensures { IfOk result (λ line. string_bytes line ≡ refusal_line outcome.now) }
{
    let words = write_outcome(alloc, outcome)?;
    Ok(format!(in alloc; "no grant {words}\n")?)
}

/// The lines of the sessions that were granted no units.
fn write_refusals<L>(alloc: Global, notes: &[SessionNote<L>]) -> Result<Vec<String>, AllocError>
    ensures { IfOk result (λ lines. map string_bytes lines.items ≡ refusal_lines notes.now) }
{
    let mut lines = Vec::new(alloc);
    let mut rest = notes;
    while let [note, behind @ ..] = rest {
        if note.granted.is_none() {
            lines.push(write_refusal(alloc, &note.outcome)?)?;
        }
        rest = behind;
    }
    Ok(lines)
}

/// Adds these lines to the text.
fn push_lines(text: &mut String, lines: &[String]) -> Result<(), AllocError>
    ensures { OnOk result (string_bytes text.new
        ≡ string_bytes text.old ++ concat (map string_bytes lines.now)) }
{
    let mut rest = lines;
    while let [line, behind @ ..] = rest {
        text.push_str(line)?;
        rest = behind;
    }
    Ok(())
}

/// The lines of the sessions that were granted units, in the order of the notes; those of the others in byte order; and that of the door
/// where it failed.
pub fn write_served<L>(
    alloc: Global,
    notes: &[SessionNote<L>],
    door_failed: bool,
) -> Result<String, AllocError>
    ensures { IfOk result (λ text. IsServedText notes.now door_failed (string_bytes text)) }
{
    let mut text = write_granted_lines(alloc, notes)?;
    let mut refusals = write_refusals(alloc, notes)?;
    refusals.sort_unstable();
    push_lines(&mut text, &refusals)?;
    text.push_str(if door_failed { "door failed\n" } else { "" })?;
    Ok(text)
}

/// Puts the notes in the order of their first units; those that were granted none come last.
pub fn order_notes<L>(notes: &mut Vec<SessionNote<L>>)
    ensures permutation { IsPermutation notes.old.items notes.new.items }
    ensures ordered { IsNonDecreasingBy (λ note. start_of note.granted) notes.new.items }
{
    notes.sort_unstable_by_key(|note| start_of(note.granted));
}

/// The first of these units, and a number above all units where there are none.
fn start_of(granted: Option<Span>) -> u64
    ensures { result ≡ start_of granted }
{
    match granted {
        Some(span) => span.start,
        None => u64::MAX,
    }
}

/// The status of a session.
fn outcome_status(outcome: &VerifierOutcome) -> u8
    ensures { result ≡ outcome_status outcome.now }
{
    match outcome {
        VerifierOutcome::Accepted => 0,
        VerifierOutcome::RejectedSum { .. }
        | VerifierOutcome::RejectedOpening { .. }
        | VerifierOutcome::PeerEnded { .. }
        | VerifierOutcome::BadFrame { .. }
        | VerifierOutcome::BadHello(_)
        | VerifierOutcome::NoBlock { .. } => 1,
        VerifierOutcome::Exhausted { .. } => 6,
        VerifierOutcome::Device | VerifierOutcome::Broken { .. } => 5,
        VerifierOutcome::Link | VerifierOutcome::Broker => 4,
        VerifierOutcome::NoMemory => 7,
    }
}

/// Whether one of the sessions has this status.
fn has_status<L>(notes: &[SessionNote<L>], status: u8) -> bool
    ensures { result ≡ has_status notes.now status }
{
    notes
        .iter()
        .any(|note| outcome_status(&note.outcome) == status)
}

/// What failed beside the sessions: a call of the door, a store of a log, and memory.
#[derive(Clone, Copy, Debug)]
pub struct Failures {
    pub door: bool,
    pub shelf: bool,
    pub memory: bool,
}

/// The status of these sessions: the first that applies of 7, 5, 6, 4, 1 and 0.
pub fn served_status<L>(notes: &[SessionNote<L>], failed: Failures) -> u8
    ensures { result ≡ served_status notes.now failed }
{
    if failed.memory || has_status(notes, 7) {
        7
    } else if has_status(notes, 5) {
        5
    } else if has_status(notes, 6) {
        6
    } else if failed.door || failed.shelf || has_status(notes, 4) {
        4
    } else if has_status(notes, 1) {
        1
    } else {
        0
    }
}
