// How many units a session takes.
ghost use Rattle.std.specs.Prelude.{◌≡◌, ◌≤◌, IfOk, IfErr};
ghost use Rattle.std.specs.Option.{option_map};
ghost use Rattle.zk_model.specs.Files.{AreParams};
ghost use Rattle.zk_port.specs.Changes.{change};
ghost use Rattle.file_commands.specs.Effects.{IsName, OnlyLoads};
ghost use Rattle.file_commands.specs.Stops.{CircuitStop, HasCircuit};
ghost use Rattle.status_command.specs.StatusRuns.{IsReportedName, LacksCircuit, TakesUnits, session_units, sessions_in};

use bristol_reader::Circuit;
use file_commands::{Refusal, load_circuit};
use gate_translate::translate;
use session_core::units_for;
use std::alloc::{AllocError, Global};
use zk_model::{MAX_SECTION_LENGTH, MAX_UNITS, Params};
use zk_port::Shelf;

/// How many units a session takes: at least one.
#[derive(Clone, Copy)]
pub struct SessionSize {
    pub units: u64,
    ghost some: { 1 ≤ units },
}

/// The size of a session about the circuit.
fn size_of(alloc: Global, circuit: Circuit, params: &Params) -> Result<SessionSize, AllocError>
    requires { AreParams params.now }
    ensures { IfOk result (λ size. size.units ≡ session_units params.now circuit) }
{
    let program = translate(alloc, circuit)?;
    let need = program.need(u64::from(MAX_SECTION_LENGTH));
    let units = units_for(params, need);
    Ok(SessionSize { units })
}

/// The size of a session about the circuit that the file of this name says.
fn load_size<F: Shelf>(
    alloc: Global,
    shelf: &mut F,
    name: &str,
    params: &Params,
) -> Result<SessionSize, Refusal>
    requires { AreParams params.now }
    ensures size { IfOk result (λ size. HasCircuit (F.state shelf.old).told name.now
        (λ circuit. size.units ≡ session_units params.now circuit)) }
    ensures stop { IfErr result (CircuitStop name.now (change (F.state shelf.old) (F.state shelf.new))) }
    ensures kept { OnlyLoads (IsName name.now) (change (F.state shelf.old) (F.state shelf.new)) }
{
    let circuit = load_circuit(alloc, shelf, name)?;
    match size_of(alloc, circuit, params) {
        Ok(size) => Ok(size),
        Err(_) => Err(Refusal::NoMemory),
    }
}

/// The size of a session about the circuit whose file is named, if one is.
pub fn load_session<F: Shelf>(
    alloc: Global,
    shelf: &mut F,
    circuit: Option<&str>,
    params: &Params,
) -> Result<Option<SessionSize>, Refusal>
    requires { AreParams params.now }
    ensures session { IfOk result (λ session. TakesUnits (F.state shelf.old).told
        (option_map (λ p. p.now) circuit.entry) params.now (option_map (λ s. s.units) session)) }
    ensures stop { IfErr result (LacksCircuit (option_map (λ p. p.now) circuit.entry)
        (change (F.state shelf.old) (F.state shelf.new))) }
    ensures kept { OnlyLoads (IsReportedName (option_map (λ p. p.now) circuit.entry))
        (change (F.state shelf.old) (F.state shelf.new)) }
{
    match circuit {
        None => Ok(None),
        Some(name) => match load_size(alloc, shelf, name, params) {
            Ok(size) => Ok(Some(size)),
            Err(stop) => Err(stop),
        },
    }
}

/// How many sessions of this size so many units are enough for.
fn sessions_in(size: SessionSize, left: u64) -> u64
    ensures { result ≡ sessions_in size.units left }
{
    if size.units > MAX_UNITS {
        0
    } else {
        left / size.units
    }
}

/// How many sessions these units are enough for, where their size is known.
pub fn sessions_of(session: Option<SessionSize>, left: u64) -> Option<u64>
    ensures { result ≡ option_map (λ s. sessions_in s.units left) session }
{
    session.map(|size| sessions_in(size, left))
}
