// `rehearse --gates N --number S [--section G] [--extended]`
ghost use Rattle.std.specs.Prelude.{◌≡◌, ◌≤◌, IfOk, IfErr};
ghost use Rattle.zk_model.specs.declared.limits.TheConstants.{MAX_GENERATED_GATES, MAX_SECTION_LENGTH};
ghost use Rattle.zk_port.specs.Changes.{change};
ghost use Rattle.zk_cli.specs.RehearseRuns.{Generates, GenerateStop, IsGenerated};
ghost use Rattle.file_commands.specs.Effects.{effects};

use crate::finish::{Ending, Part};
use crate::rehearse_command::say_rehearsal;
use bristol_reader::{ReadError, read};
use circuit_gen::{Generated, generate};
use command_words::GenerateAsk;
use file_commands::{Refusal, say_stop};
use session_rehearsal::{Bits, Rehearsal, RehearseFault, rehearse};
use std::alloc::Global;
use std::thread::Threads;
use zk_port::{Shelf, Sink};

/// A rehearsal of the circuit that is drawn from the number, at its input bits.
fn rehearse_generated<R: Threads + Sync>(
    rt: &R,
    alloc: Global,
    ask: &GenerateAsk,
    seed: &[u8; 32],
) -> Result<Rehearsal<Bits>, Refusal>
    requires some_gates { 1 ≤ ask.now.gates }
    requires few_gates { ask.now.gates ≤ MAX_GENERATED_GATES }
    requires at_least_one { 1 ≤ ask.now.section }
    requires at_most { ask.now.section ≤ MAX_SECTION_LENGTH }
    ensures rehearsed { IfOk result (IsGenerated ask.now seed.now) }
    ensures stop { IfErr result (GenerateStop ask.now) }
{
    let Generated { text, bits, .. } = generate(alloc, ask.gates, ask.number)?;
    let circuit = match read(alloc, &text) {
        Ok(circuit) => circuit,
        Err(ReadError::Fault(_)) => unreachable!(),
        Err(ReadError::NoMemory) => return Err(Refusal::NoMemory),
    };
    drop(text);
    let (kind, section) = (ask.kind, ask.section);
    match rehearse(rt, alloc, circuit, &[], &bits, kind, section, seed) {
        Ok(rehearsal) => Ok(rehearsal),
        Err(RehearseFault::WrongLength { .. }) => unreachable!(),
        Err(RehearseFault::TooLarge { need, units }) => Err(Refusal::TooLarge { need, units }),
        Err(RehearseFault::NoMemory) => Err(Refusal::NoMemory),
    }
}

/// `rehearse --gates N --number S [--section G] [--extended]`: rehearses a session over the circuit of N gates that is drawn from the
/// number S, says what came of it and hands it back, or says why there is no rehearsal; with the status.
pub fn run_generate<R: Threads + Sync, F: Shelf, O: Sink, L: Drop>(
    rt: &R,
    alloc: Global,
    shelf: &mut F,
    out: &mut O,
    ask: &GenerateAsk,
    seed: &[u8; 32],
) -> Ending<L>
    requires some_gates { 1 ≤ ask.now.gates }
    requires few_gates { ask.now.gates ≤ MAX_GENERATED_GATES }
    requires at_least_one { 1 ≤ ask.now.section }
    requires at_most { ask.now.section ≤ MAX_SECTION_LENGTH }
    ensures kept { shelf.new ≡ shelf.old }
    ensures generates { Generates ask.now seed.now result.part
        (effects result.status (change (F.state shelf.old) (F.state shelf.new))
        (change (O.state out.old) (O.state out.new))) }
{
    match rehearse_generated(rt, alloc, ask, seed) {
        Ok(rehearsal) => Ending {
            status: say_rehearsal(alloc, out, &rehearsal),
            part: Part::Rehearsed(rehearsal),
        },
        Err(stop) => Ending {
            status: say_stop(alloc, out, stop),
            part: Part::Plain,
        },
    }
}
