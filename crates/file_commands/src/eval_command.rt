// `eval CIRCUIT BITS`
ghost use Rattle.std.specs.Prelude.{◌≡◌, IfOk, IfErr, string_bytes};
ghost use Rattle.zk_port.specs.Changes.{change};
ghost use Rattle.command_words.specs.Words.{eval_ask};
ghost use Rattle.file_commands.specs.EvalRuns.{Evaluates, EvalStop, GivesOutputs, outputs_line};
ghost use Rattle.file_commands.specs.Effects.{OnlyLoads, IsName, effects};
ghost use Rattle.file_commands.specs.Stops.{PrintsMade};

use crate::circuit_file::load_circuit;
use crate::refusal::Refusal;
use crate::saying::{say, say_memory, say_stop};
use bool_eval::{EvalFault, eval};
use bristol_reader::one_circuit;
use command_words::write_bits;
use std::alloc::{AllocError, Global};
use zk_port::{Shelf, Sink};

/// The outputs of the circuit that the file of this name says, at these bits.
fn eval_file<F: Shelf>(
    alloc: Global,
    shelf: &mut F,
    name: &str,
    bits: &[bool],
) -> Result<Vec<bool>, Refusal>
    ensures gives { IfOk result (λ outputs.
        GivesOutputs (F.state shelf.old).told (eval_ask name.now bits.now) outputs.items) }
    ensures stop { IfErr result (EvalStop (eval_ask name.now bits.now)
        (change (F.state shelf.old) (F.state shelf.new))) }
    ensures kept { OnlyLoads (IsName name.now) (change (F.state shelf.old) (F.state shelf.new)) }
{
    let circuit = load_circuit(alloc, shelf, name)?;
    match eval(alloc, &circuit, bits) {
        Ok(outputs) => Ok(outputs),
        Err(EvalFault::WrongLength { need, got }) => Err(Refusal::WrongBits {
            need: need as u64,
            got: got as u64,
        }),
        Err(EvalFault::NoMemory) => Err(Refusal::NoMemory),
    }
}

/// The line of the outputs.
fn write_outputs(alloc: Global, outputs: &[bool]) -> Result<String, AllocError>
    ensures { IfOk result (λ line. string_bytes line ≡ outputs_line outputs.now) }
{
    let word = write_bits(alloc, outputs)?;
    Ok(format!(in alloc; "{word}\n")?)
}

/// Says the outputs, or that there is no memory for their line, and answers the status.
fn say_outputs<O: Sink>(alloc: Global, out: &mut O, outputs: &[bool]) -> u8
    ensures { PrintsMade 0 (outputs_line outputs.now) result
        (change (O.state out.old) (O.state out.new)) }
{
    match write_outputs(alloc, outputs) {
        Ok(line) => say(alloc, out, line.as_bytes(), 0),
        Err(_) => say_memory(alloc, out),
    }
}

/// `eval CIRCUIT BITS`: evaluates the circuit of this name at these bits, says the outputs, or why there are none,
/// and answers the status.
pub fn run_eval<F: Shelf, O: Sink>(
    alloc: Global,
    shelf: &mut F,
    out: &mut O,
    name: &str,
    bits: &[bool],
) -> u8
    ensures { Evaluates (eval_ask name.now bits.now) (effects result
        (change (F.state shelf.old) (F.state shelf.new)) (change (O.state out.old) (O.state out.new))) }
{
    one_circuit();
    match eval_file(alloc, shelf, name, bits) {
        Ok(outputs) => say_outputs(alloc, out, &outputs),
        Err(stop) => say_stop(alloc, out, stop),
    }
}
