// The lines of a status.
ghost use Rattle.std.specs.Prelude.{◌≡◌, ◌≤◌, IfOk, string_bytes};
ghost use Rattle.zk_port.specs.Changes.{change};
ghost use Rattle.file_commands.specs.Stops.{PrintsMade};
ghost use Rattle.status_command.specs.StatusRuns.{head_lines, journal_side, kind_words, sessions_line, status_lines, status_text};

use crate::dealing::Dealing;
use file_commands::{say, say_memory};
use std::alloc::{AllocError, Global};
use zk_model::{Kind, Params, Side};
use zk_port::Sink;

/// What is said of a dealt file: its dealing, the number of the node that is asked about, if one is, how many of its units are used, and how
/// many sessions are left, if that was asked.
#[derive(Clone, Copy)]
pub struct FileStatus {
    pub dealing: Dealing,
    pub node: Option<u32>,
    pub used: u64,
    pub sessions: Option<u64>,
    ghost within: { used ≤ dealing.params.total },
}

/// The words that say a kind, with its numbers.
fn write_kind(alloc: Global, params: &Params) -> Result<String, AllocError>
    ensures { IfOk result (λ words. string_bytes words ≡ kind_words params.now) }
{
    let Params {
        kind,
        trees,
        height,
        base,
        ..
    } = *params;
    match kind {
        Kind::Direct => String::from_str(alloc, "direct"),
        Kind::Extended => Ok(format!(in alloc; "extended {trees} {height} {base}")?),
    }
}

/// The lines of the id and of the units.
fn write_head(alloc: Global, dealing: &Dealing) -> Result<String, AllocError>
    ensures { IfOk result (λ lines. string_bytes lines ≡ head_lines dealing.now) }
{
    let id = hex::encode(alloc, dealing.id.as_slice())?;
    let total = dealing.params.total;
    let kind = write_kind(alloc, &dealing.params)?;
    Ok(format!(in alloc; "id {id}\nunits {total} {kind}\n")?)
}

/// The lines that do not ask for a circuit.
fn write_lines(alloc: Global, status: &FileStatus) -> Result<String, AllocError>
    ensures { IfOk result (λ lines. string_bytes lines ≡ status_lines status.now.dealing status.now.used) }
{
    let head = write_head(alloc, &status.dealing)?;
    let used = status.used;
    let left = status.dealing.params.total - used;
    Ok(format!(in alloc; "{head}used {used} left {left}\n")?)
}

/// The side whose kind of journal is read.
fn journal_side(node: Option<u32>, side: Side) -> Side
    ensures { result ≡ journal_side node side }
{
    match node {
        None => side,
        Some(_) => Side::Prover,
    }
}

/// The line of the sessions.
fn write_sessions(alloc: Global, side: Side, sessions: u64) -> Result<String, AllocError>
    ensures { IfOk result (λ line. string_bytes line ≡ sessions_line side sessions) }
{
    match side {
        Side::Prover => Ok(format!(in alloc; "sessions at most {sessions}\n")?),
        Side::Verifier => Ok(format!(in alloc; "sessions {sessions}\n")?),
    }
}

/// All lines.
fn write_status(alloc: Global, status: &FileStatus) -> Result<String, AllocError>
    ensures { IfOk result (λ text. string_bytes text
        ≡ status_text status.now.node status.now.dealing status.now.used status.now.sessions) }
{
    let lines = write_lines(alloc, status)?;
    match status.sessions {
        None => Ok(lines),
        Some(sessions) => {
            let side = journal_side(status.node, status.dealing.side);
            let line = write_sessions(alloc, side, sessions)?;
            Ok(format!(in alloc; "{lines}{line}")?)
        }
    }
}

/// Says all lines, or that there is no memory for them, and answers the status.
pub fn say_status<O: Sink>(alloc: Global, out: &mut O, status: &FileStatus) -> u8
    ensures { PrintsMade 0
        (status_text status.now.node status.now.dealing status.now.used status.now.sessions) result
        (change (O.state out.old) (O.state out.new)) }
{
    match write_status(alloc, status) {
        Ok(text) => say(alloc, out, text.as_bytes(), 0),
        Err(_) => say_memory(alloc, out),
    }
}
