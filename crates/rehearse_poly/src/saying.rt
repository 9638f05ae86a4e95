// The lines of a rehearsal.
ghost use Rattle.std.specs.Prelude.{◌≡◌, IfOk, string_bytes};
ghost use Rattle.zk_port.specs.Changes.{change};
ghost use Rattle.file_commands.specs.Stops.{PrintsMade};
ghost use Rattle.rehearse_poly.specs.PolyRuns.{counts_text, lines_of, numbers_lines, takes_text};

use crate::rehearsing::PolyRehearsal;
use file_commands::{say, say_memory};
use std::alloc::{AllocError, Global};
use zk_port::Sink;

/// How many variables and constraints there are, and their degree.
fn write_counts(
    alloc: Global,
    variables: u32,
    constraints: u64,
    degree: u64,
) -> Result<String, AllocError>
    ensures { IfOk result (λ text. string_bytes text ≡ counts_text variables constraints degree) }
{
    Ok(format!(in alloc; "variables {variables} constraints {constraints} degree {degree} ")?)
}

/// What a session takes.
fn write_takes(alloc: Global, need: u64, units: u64) -> Result<String, AllocError>
    ensures { IfOk result (λ text. string_bytes text ≡ takes_text need units) }
{
    Ok(format!(in alloc; "correlations {need} units {units}\n")?)
}

/// The line of the numbers, and that the verifier accepts.
fn write_lines(
    alloc: Global,
    variables: u32,
    constraints: u64,
    degree: u64,
    need: u64,
    units: u64,
) -> Result<String, AllocError>
    ensures { IfOk result (λ lines. string_bytes lines ≡ numbers_lines variables constraints degree need units) }
{
    let counts = write_counts(alloc, variables, constraints, degree)?;
    let takes = write_takes(alloc, need, units)?;
    Ok(format!(in alloc; "{counts}{takes}accepted\n")?)
}

/// Says what came of the rehearsal, or that there is no memory for its lines, and answers the status.
pub(crate) fn say_rehearsal<O: Sink>(alloc: Global, out: &mut O, made: &PolyRehearsal) -> u8
    ensures { PrintsMade 0 (lines_of made.now) result (change (O.state out.old) (O.state out.new)) }
{
    let (need, units) = (made.rehearsal.need, made.rehearsal.units);
    match write_lines(
        alloc,
        made.variables,
        made.constraints,
        made.degree,
        need,
        units,
    ) {
        Ok(lines) => say(alloc, out, lines.as_bytes(), 0),
        Err(_) => say_memory(alloc, out),
    }
}
