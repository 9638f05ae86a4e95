// `rehearse CIRCUIT BITS [--section G] [--extended] [--public BITS]`
ghost use Rattle.std.specs.Prelude.{◌≡◌, ◌≤◌, IfOk, IfErr, string_bytes};
ghost use Rattle.zk_model.specs.declared.limits.TheConstants.{MAX_SECTION_LENGTH};
ghost use Rattle.zk_port.specs.Changes.{change};
ghost use Rattle.command_words.specs.Commands.{known_bits, rehearse_of};
ghost use Rattle.zk_cli.specs.RehearseRuns.{Rehearses, RehearseStop, IsRehearsed, lines_with, numbers_line, rehearsal_lines, verdict_line, verdict_status};
ghost use Rattle.file_commands.specs.Effects.{OnlyLoads, IsName, effects};
ghost use Rattle.file_commands.specs.Stops.{PrintsMade};

use crate::finish::{Ending, Part};
use bristol_reader::one_circuit;
use command_words::{RehearseAsk, write_bits};
use file_commands::{Refusal, check_public, load_circuit, say, say_memory, say_stop};
use session_rehearsal::{Bits, Rehearsal, RehearseFault, Verdict, rehearse};
use std::alloc::{AllocError, Global};
use std::thread::Threads;
use zk_port::{Shelf, Sink};

/// A rehearsal of the circuit that the words name, at their bits.
fn rehearse_file<R: Threads + Sync, F: Shelf>(
    rt: &R,
    alloc: Global,
    shelf: &mut F,
    ask: &RehearseAsk<String, Vec<bool>>,
    seed: &[u8; 32],
) -> Result<Rehearsal<Bits>, Refusal>
    requires at_least_one { 1 ≤ ask.now.section }
    requires at_most { ask.now.section ≤ MAX_SECTION_LENGTH }
    ensures rehearsed { IfOk result
        (IsRehearsed (F.state shelf.old).told (rehearse_of known_bits ask.now) seed.now) }
    ensures stop { IfErr result (RehearseStop (rehearse_of known_bits ask.now)
        (change (F.state shelf.old) (F.state shelf.new))) }
    ensures kept { OnlyLoads (IsName (string_bytes ask.now.circuit))
        (change (F.state shelf.old) (F.state shelf.new)) }
{
    let circuit = load_circuit(alloc, shelf, &ask.circuit)?;
    check_public(&circuit, &ask.public)?;
    match rehearse(
        rt,
        alloc,
        circuit,
        &ask.public,
        &ask.bits,
        ask.kind,
        ask.section,
        seed,
    ) {
        Ok(rehearsal) => Ok(rehearsal),
        Err(RehearseFault::WrongLength { need, got }) => Err(Refusal::WrongBits { need, got }),
        Err(RehearseFault::TooLarge { need, units }) => Err(Refusal::TooLarge { need, units }),
        Err(RehearseFault::NoMemory) => Err(Refusal::NoMemory),
    }
}

/// The line of the verdict.
fn write_verdict(alloc: Global, verdict: Verdict) -> Result<String, AllocError>
    ensures { IfOk result (λ line. string_bytes line ≡ verdict_line verdict) }
{
    match verdict {
        Verdict::Accepted => String::from_str(alloc, "accepted\n"),
        Verdict::RejectedSum { section } => Ok(format!(in alloc; "rejected sum {section}\n")?),
        Verdict::RejectedOpening { output } => Ok(format!(in alloc;
            "rejected opening {output}\n"
        )?),
    }
}

/// The line of the numbers.
fn write_counts(
    alloc: Global,
    products: u64,
    sections: u64,
    need: u64,
    units: u64,
) -> Result<String, AllocError>
    ensures { IfOk result (λ line. string_bytes line ≡ numbers_line products sections need units) }
{
    Ok(format!(in alloc;
        "products {products} sections {sections} correlations {need} units {units}\n"
    )?)
}

/// The lines of a rehearsal whose outputs are written so.
pub(crate) fn write_rehearsal<O>(
    alloc: Global,
    outputs: &str,
    rehearsal: &Rehearsal<O>,
) -> Result<String, AllocError>
    ensures { IfOk result (λ lines. string_bytes lines ≡ lines_with outputs.now rehearsal.now) }
{
    let (products, sections) = (rehearsal.products, rehearsal.sections);
    let counts = write_counts(alloc, products, sections, rehearsal.need, rehearsal.units)?;
    let verdict = write_verdict(alloc, rehearsal.verdict)?;
    Ok(format!(in alloc; "outputs {outputs}\n{counts}{verdict}")?)
}

/// The lines of a rehearsal of a Boolean circuit.
fn write_bits_rehearsal(alloc: Global, rehearsal: &Rehearsal<Bits>) -> Result<String, AllocError>
    ensures { IfOk result (λ lines. string_bytes lines ≡ rehearsal_lines rehearsal.now) }
{
    let outputs = write_bits(alloc, rehearsal.outputs.as_slice())?;
    write_rehearsal(alloc, &outputs, rehearsal)
}

/// The status of the verdict.
pub(crate) fn status_of(verdict: Verdict) -> u8
    ensures { result ≡ verdict_status verdict }
{
    match verdict {
        Verdict::Accepted => 0,
        Verdict::RejectedSum { .. } | Verdict::RejectedOpening { .. } => 1,
    }
}

/// Says what came of the rehearsal, or that there is no memory for its lines, and answers the status.
pub(crate) fn say_rehearsal<O: Sink>(alloc: Global, out: &mut O, rehearsal: &Rehearsal<Bits>) -> u8
    ensures { PrintsMade (verdict_status rehearsal.now.verdict) (rehearsal_lines rehearsal.now) result
        (change (O.state out.old) (O.state out.new)) }
{
    match write_bits_rehearsal(alloc, rehearsal) {
        Ok(lines) => say(alloc, out, lines.as_bytes(), status_of(rehearsal.verdict)),
        Err(_) => say_memory(alloc, out),
    }
}

/// `rehearse CIRCUIT BITS [--section G] [--extended] [--public BITS]`: rehearses a session over the circuit of this name at these
/// bits, says what came of it and hands it back, or says why there is no rehearsal; with the status.
pub fn run_rehearse<R: Threads + Sync, F: Shelf, O: Sink, L: Drop>(
    rt: &R,
    alloc: Global,
    shelf: &mut F,
    out: &mut O,
    ask: &RehearseAsk<String, Vec<bool>>,
    seed: &[u8; 32],
) -> Ending<L>
    requires at_least_one { 1 ≤ ask.now.section }
    requires at_most { ask.now.section ≤ MAX_SECTION_LENGTH }
    ensures { Rehearses (rehearse_of known_bits ask.now) seed.now result.part
        (effects result.status (change (F.state shelf.old) (F.state shelf.new))
        (change (O.state out.old) (O.state out.new))) }
{
    one_circuit();
    match rehearse_file(rt, alloc, shelf, ask, seed) {
        Ok(rehearsal) => Ending {
            status: say_rehearsal(alloc, out, &rehearsal),
            part: Part::Rehearsed(rehearsal),
        },
        Err(stop) => Ending {
            status: say_stop(alloc, out, stop),
            part: Part::Plain,
        },
    }
}
