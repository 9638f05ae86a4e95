// `rehearse-arith CIRCUIT VALUES [--section G] [--extended]`
ghost use Rattle.std.specs.Prelude.{◌≡◌, ◌≤◌, IfOk, IfErr, OnOk, string_bytes};
ghost use Rattle.zk_model.specs.declared.limits.TheConstants.{MAX_SECTION_LENGTH};
ghost use Rattle.zk_port.specs.Changes.{change};
ghost use Rattle.command_words.specs.Commands.{rehearse_arith_of};
ghost use Rattle.claim_files.specs.ArithFiles.{IsEither};
ghost use Rattle.file_commands.specs.Effects.{OnlyLoads, effects};
ghost use Rattle.file_commands.specs.Stops.{PrintsMade};
ghost use Rattle.zk_cli.specs.ArithRuns.{ArithRehearseStop, IsArithRehearsed, RehearsesArith};
ghost use Rattle.zk_cli.specs.RehearseRuns.{arith_lines, verdict_status};

use crate::finish::{Ending, Part};
use crate::rehearse_command::{status_of, write_rehearsal};
use arith_reader::texts_are_exact;
use claim_files::{load_arith, load_elements};
use command_words::RehearseArithAsk;
use element_file::{elements_are_exact, write_elements};
use file_commands::{Refusal, say, say_memory, say_stop};
use session_rehearsal::{ArithRehearseFault, Elements, Rehearsal, rehearse_arith};
use std::alloc::{AllocError, Global};
use std::thread::Threads;
use zk_port::{Shelf, Sink};

/// A rehearsal of the arithmetic circuit of this file at the values of that one.
fn rehearse_files<R: Threads + Sync, F: Shelf>(
    rt: &R,
    alloc: Global,
    shelf: &mut F,
    ask: &RehearseArithAsk<String>,
    seed: &[u8; 32],
) -> Result<Rehearsal<Elements>, Refusal>
    requires at_least_one { 1 ≤ ask.now.section }
    requires at_most { ask.now.section ≤ MAX_SECTION_LENGTH }
    ensures rehearsed { IfOk result
        (IsArithRehearsed (F.state shelf.old).told (rehearse_arith_of ask.now) seed.now) }
    ensures stop { IfErr result (ArithRehearseStop (rehearse_arith_of ask.now)
        (change (F.state shelf.old) (F.state shelf.new))) }
    ensures kept { OnlyLoads (IsEither (string_bytes ask.now.circuit) (string_bytes ask.now.values))
        (change (F.state shelf.old) (F.state shelf.new)) }
    ensures quiet { OnOk result (F.state shelf.new ≡ F.state shelf.old) }
{
    let circuit = load_arith(alloc, shelf, &ask.circuit)?;
    let values = load_elements(alloc, shelf, &ask.values, circuit.inputs() as u64)?;
    let outputs = circuit.outputs() as u64;
    match rehearse_arith(rt, alloc, circuit, &values, ask.kind, ask.section, seed) {
        Ok(rehearsal) => Ok(rehearsal),
        Err(ArithRehearseFault::WrongLength { .. }) => unreachable!(),
        Err(ArithRehearseFault::AssertFailed { assert, .. }) => Err(Refusal::Unsatisfied {
            output: outputs + u64::from(assert),
        }),
        Err(ArithRehearseFault::TooLarge { need, units }) => Err(Refusal::TooLarge { need, units }),
        Err(ArithRehearseFault::NoMemory) => Err(Refusal::NoMemory),
    }
}

/// The lines of a rehearsal of an arithmetic circuit.
fn write_elements_rehearsal(
    alloc: Global,
    rehearsal: &Rehearsal<Elements>,
) -> Result<String, AllocError>
    ensures { IfOk result (λ lines. string_bytes lines ≡ arith_lines rehearsal.now) }
{
    let outputs = write_elements(alloc, rehearsal.outputs.as_slice())?;
    write_rehearsal(alloc, &outputs, rehearsal)
}

/// Says what came of the rehearsal, or that there is no memory for its lines, and answers the status.
fn say_elements_rehearsal<O: Sink>(
    alloc: Global,
    out: &mut O,
    rehearsal: &Rehearsal<Elements>,
) -> u8
    ensures { PrintsMade (verdict_status rehearsal.now.verdict) (arith_lines rehearsal.now) result
        (change (O.state out.old) (O.state out.new)) }
{
    match write_elements_rehearsal(alloc, rehearsal) {
        Ok(lines) => say(alloc, out, lines.as_bytes(), status_of(rehearsal.verdict)),
        Err(_) => say_memory(alloc, out),
    }
}

/// `rehearse-arith CIRCUIT VALUES [--section G] [--extended]`: rehearses a session over the arithmetic circuit of this name at the values of
/// that file, says what came of it and hands it back, or says why there is no rehearsal; with the status.
pub fn run_rehearse_arith<R: Threads + Sync, F: Shelf, O: Sink, L: Drop>(
    rt: &R,
    alloc: Global,
    shelf: &mut F,
    out: &mut O,
    ask: &RehearseArithAsk<String>,
    seed: &[u8; 32],
) -> Ending<L>
    requires at_least_one { 1 ≤ ask.now.section }
    requires at_most { ask.now.section ≤ MAX_SECTION_LENGTH }
    ensures { RehearsesArith (rehearse_arith_of ask.now) seed.now result.part
        (effects result.status (change (F.state shelf.old) (F.state shelf.new))
        (change (O.state out.old) (O.state out.new))) }
{
    texts_are_exact();
    elements_are_exact();
    match rehearse_files(rt, alloc, shelf, ask, seed) {
        Ok(rehearsal) => Ending {
            status: say_elements_rehearsal(alloc, out, &rehearsal),
            part: Part::RehearsedElements(rehearsal),
        },
        Err(stop) => Ending {
            status: say_stop(alloc, out, stop),
            part: Part::Plain,
        },
    }
}
