// How the exchanges of a run are said.
ghost use Rattle.std.specs.Prelude.{◌≡◌, ◌++◌, IfOk, codes, flat_map, string_bytes};
ghost use Rattle.std.specs.Fmt.{decimal};
ghost use Rattle.zk_port.specs.Changes.{change};
ghost use Rattle.file_commands.specs.Stops.{PrintsMade};
ghost use Rattle.broker_command.specs.NoteLines.{answer_words, block_words, fault_words, out_words, outcome_words, note_line};
ghost use Rattle.broker_command.specs.NoteLines.{brokered_text, brokered_status, outcome_status, has_status};

use broker_links::{BrokerNote, BrokerOutcome, Reply};
use file_commands::{say, say_memory};
use lease_store::LeaseFault;
use std::alloc::{AllocError, Global};
use zk_model::{Block, Out, Want};
use zk_port::Sink;

/// That a want was answered by a block: from its first unit up to the first behind it, a number that may need more than 64 bits.
fn write_block(alloc: Global, want: Want, block: Block) -> Result<String, AllocError>
    ensures { IfOk result (λ words. string_bytes words ≡ block_words want block) }
{
    let node = want.node;
    let number = want.number;
    let start = block.start;
    let end = u128::from(start) + u128::from(block.count);
    Ok(format!(in alloc; "want {node} {number} block {start}..{end}")?)
}

/// That a want was answered by an Out.
fn write_out(alloc: Global, want: Want, out: Out) -> Result<String, AllocError>
    ensures { IfOk result (λ words. string_bytes words ≡ out_words want out) }
{
    let node = want.node;
    let number = want.number;
    let at = out.at;
    Ok(format!(in alloc; "want {node} {number} out {at}")?)
}

/// How a want was answered, in words.
fn write_answer(alloc: Global, want: Want, reply: Reply) -> Result<String, AllocError>
    ensures { IfOk result (λ words. string_bytes words ≡ answer_words want reply) }
{
    match reply {
        Reply::Block(block) => write_block(alloc, want, block),
        Reply::Out(out) => write_out(alloc, want, out),
    }
}

/// Which units are missing, in words.
fn write_exhausted(alloc: Global, at: u64, count: u32, total: u64) -> Result<String, AllocError>
    ensures { IfOk result (λ words. string_bytes words ≡ codes "no want "
        ++ (codes "exhausted " ++ decimal at ++ codes " " ++ decimal count ++ codes " " ++ decimal total)) }
{
    Ok(format!(in alloc; "no want exhausted {at} {count} {total}")?)
}

/// Why a lease was refused, in words.
fn write_fault(alloc: Global, fault: LeaseFault) -> Result<String, AllocError>
    ensures { IfOk result (λ words. string_bytes words ≡ codes "no want " ++ fault_words fault) }
{
    match fault {
        LeaseFault::Exhausted { at, count, total } => write_exhausted(alloc, at, count, total),
        LeaseFault::Device => String::from_str(alloc, "no want device"),
        LeaseFault::Broken { first } => Ok(format!(in alloc; "no want journal {first}")?),
    }
}

/// How an exchange ended, in words.
fn write_outcome(alloc: Global, outcome: &BrokerOutcome<LeaseFault>) -> Result<String, AllocError>
    ensures { IfOk result (λ words. string_bytes words ≡ outcome_words outcome.now) }
{
    match outcome {
        BrokerOutcome::Answered(want, reply) => write_answer(alloc, *want, *reply),
        BrokerOutcome::PeerEnded { at } => Ok(format!(in alloc; "no want ended {at}")?),
        BrokerOutcome::BadFrame { place } => Ok(format!(in alloc; "no want frame {place}")?),
        BrokerOutcome::Link => String::from_str(alloc, "no want link"),
        BrokerOutcome::NoMemory => String::from_str(alloc, "no want memory"),
        BrokerOutcome::Refused(fault) => write_fault(alloc, *fault),
    }
}

/// The line of an exchange.
pub(crate) fn write_note(
    alloc: Global,
    outcome: &BrokerOutcome<LeaseFault>,
) -> Result<String, AllocError>
    ensures { IfOk result (λ line. string_bytes line ≡ note_line outcome.now) }
{
    let mut line = write_outcome(alloc, outcome)?;
    line.push_str("\n")?;
    Ok(line)
}

/// The lines of the exchanges, in their order.
fn write_notes<L>(alloc: Global, notes: &[BrokerNote<L, LeaseFault>]) -> Result<String, AllocError>
    ensures { IfOk result (λ text. string_bytes text
        ≡ flat_map (λ note. note_line note.outcome) notes.now) }
{
    let mut text = String::new(alloc);
    let mut rest = notes;
    while let [note, behind @ ..] = rest {
        text.push_str(&write_note(alloc, &note.outcome)?)?;
        rest = behind;
    }
    Ok(text)
}

/// The lines of the exchanges, in their order, and that of the door where it failed.
fn write_brokered<L>(
    alloc: Global,
    notes: &[BrokerNote<L, LeaseFault>],
    door_failed: bool,
) -> Result<String, AllocError>
    ensures { IfOk result (λ text. string_bytes text ≡ brokered_text notes.now door_failed) }
{
    let mut text = write_notes(alloc, notes)?;
    text.push_str(if door_failed { "door failed\n" } else { "" })?;
    Ok(text)
}

/// The status of an exchange.
fn outcome_status(outcome: &BrokerOutcome<LeaseFault>) -> u8
    ensures { result ≡ outcome_status outcome.now }
{
    match outcome {
        BrokerOutcome::Answered(_, Reply::Block(_)) => 0,
        BrokerOutcome::PeerEnded { .. } | BrokerOutcome::BadFrame { .. } => 1,
        BrokerOutcome::Link => 4,
        BrokerOutcome::Refused(LeaseFault::Device | LeaseFault::Broken { .. }) => 5,
        BrokerOutcome::Answered(_, Reply::Out(_))
        | BrokerOutcome::Refused(LeaseFault::Exhausted { .. }) => 6,
        BrokerOutcome::NoMemory => 7,
    }
}

/// Whether one of the exchanges has this status.
fn has_status<L>(notes: &[BrokerNote<L, LeaseFault>], status: u8) -> bool
    ensures { result ≡ has_status notes.now status }
{
    notes
        .iter()
        .any(|note| outcome_status(&note.outcome) == status)
}

/// The status of these exchanges: the first that applies of 7, 5, 6, 4, 1 and 0.
fn brokered_status<L>(
    notes: &[BrokerNote<L, LeaseFault>],
    door_failed: bool,
    memory_failed: bool,
) -> u8
    ensures { result ≡ brokered_status notes.now door_failed memory_failed }
{
    if memory_failed || has_status(notes, 7) {
        7
    } else if has_status(notes, 5) {
        5
    } else if has_status(notes, 6) {
        6
    } else if door_failed || has_status(notes, 4) {
        4
    } else if has_status(notes, 1) {
        1
    } else {
        0
    }
}

/// Writes the lines of these exchanges, or that there is no memory for them, and answers the status.
pub(crate) fn say_brokered<O: Sink, L>(
    alloc: Global,
    out: &mut O,
    notes: &[BrokerNote<L, LeaseFault>],
    door_failed: bool,
    memory_failed: bool,
) -> u8
    ensures { PrintsMade (brokered_status notes.now door_failed memory_failed)
        (brokered_text notes.now door_failed) result (change (O.state out.old) (O.state out.new)) }
{
    match write_brokered(alloc, notes, door_failed) {
        Ok(text) => {
            let status = brokered_status(notes, door_failed, memory_failed);
            say(alloc, out, text.as_bytes(), status)
        }
        Err(_) => say_memory(alloc, out),
    }
}
