// Files that are loaded, and circuits that stand as such.
ghost use Rattle.std.specs.Prelude.{◌≡◌, ◌⊎◌, ◌≤◌, length, IfOk, IfErr, OnOk};
ghost use Rattle.sha2.specs.Sha256.{sha256};
ghost use Rattle.zk_model.specs.Bristol.{IsText};
ghost use Rattle.zk_model.specs.declared.ReadFault.{ReadFault};
ghost use Rattle.zk_port.specs.Changes.{change};
ghost use Rattle.bristol_reader.specs.Reads.{IsOnlyFault};
ghost use Rattle.file_commands.specs.Effects.{OnlyLoads, IsName};
ghost use Rattle.zk_model.specs.Statement.{circuit_statement};
ghost use Rattle.zk_model.specs.Bytes.{AreBytes};
ghost use Rattle.file_commands.specs.Stops.{IsLoaded, IsClaim, IsCircuitFile, LoadStop, CircuitStop, ClaimStop, OutputsStop, PublicStop};
ghost use Rattle.file_commands.specs.declared.refusal.Refusal.TheVariants as stops;

use crate::refusal::Refusal;
use bristol_reader::{Circuit, ReadError, read};
use sha2::{Digest, Sha256};
use std::alloc::Global;
use std::thread::{self, Threads};
use zk_model::FILE_LIMIT;
use zk_port::{LoadFault, Shelf};

/// The bytes of the file of this name.
#[tactic(auto, using(crate::proofs::Asking::loads_only))]
pub fn load_file<F: Shelf>(alloc: Global, shelf: &mut F, name: &str) -> Result<Vec<u8>, Refusal>
    ensures loaded { IfOk result (λ bytes. IsLoaded (F.state shelf.old).told name.now bytes.items) }
    ensures stop { IfErr result (LoadStop name.now (change (F.state shelf.old) (F.state shelf.new))) }
    ensures kept { OnlyLoads (IsName name.now) (change (F.state shelf.old) (F.state shelf.new)) }
    ensures quiet { OnOk result (F.state shelf.new ≡ F.state shelf.old) }
{
    match shelf.load(alloc, name, FILE_LIMIT) {
        Ok(bytes) => Ok(bytes),
        Err(LoadFault::Failed) => Err(Refusal::ShelfFailed),
        Err(LoadFault::TooLong { limit }) => Err(Refusal::TooLong { limit }),
        Err(LoadFault::NoMemory) => Err(Refusal::NoMemory),
    }
}

/// The circuit that a text says.
pub fn read_circuit(alloc: Global, text: &[u8]) -> Result<Circuit, Refusal>
    ensures says { IfOk result (λ circuit. IsText circuit text.now) }
    ensures stop { IfErr result (λ stop. (stop ≡ stops.NoMemory)
        ⊎ ((fault : ReadFault) × IsOnlyFault text.now fault × (stop ≡ stops.BadText fault))) }
{
    match read(alloc, text) {
        Ok(circuit) => Ok(circuit),
        Err(ReadError::Fault(fault)) => Err(Refusal::BadText(fault)),
        Err(ReadError::NoMemory) => Err(Refusal::NoMemory),
    }
}

/// Whether the circuit has as many inputs as there are public bits, at least.
pub fn check_public(circuit: &Circuit, public: &[bool]) -> Result<(), Refusal>
    ensures fits { OnOk result (length public.now ≤ circuit.now.inputs) }
    ensures stop { IfErr result (PublicStop circuit.now public.now) }
{
    let (inputs, got) = (circuit.inputs() as u64, public.len() as u64);
    if got > inputs {
        return Err(Refusal::ManyPublic { inputs, got });
    }
    Ok(())
}

/// The circuit that the file of this name says.
pub fn load_circuit<F: Shelf>(alloc: Global, shelf: &mut F, name: &str) -> Result<Circuit, Refusal>
    ensures file { IfOk result (IsCircuitFile (F.state shelf.old).told name.now) }
    ensures stop { IfErr result (CircuitStop name.now (change (F.state shelf.old) (F.state shelf.new))) }
    ensures kept { OnlyLoads (IsName name.now) (change (F.state shelf.old) (F.state shelf.new)) }
{
    let text = load_file(alloc, shelf, name)?;
    read_circuit(alloc, &text)
}

/// Whether as many outputs are claimed as the circuit has.
fn check_outputs(circuit: &Circuit, outputs: &[bool]) -> Result<(), Refusal>
    ensures fits { OnOk result (length outputs.now ≡ circuit.now.outputs) }
    ensures stop { IfErr result (OutputsStop circuit.now outputs.now) }
{
    let (need, got) = (circuit.outputs() as u64, outputs.len() as u64);
    if need != got {
        return Err(Refusal::WrongOutputs { need, got });
    }
    Ok(())
}

/// A circuit about whose outputs a claim is, with SHA-256 of its text.
#[derive(Drop)]
pub struct ClaimedCircuit {
    pub circuit: Circuit,
    pub digest: [u8; 32],
}

/// Texts from this length on are worth a thread for their digest.
const LONG_TEXT: usize = 1 << 20;

/// The circuit that a text says, with SHA-256 of the text, which of a long one another thread makes meanwhile.
pub fn read_and_digest<R: Threads + Sync>(
    rt: &R,
    alloc: Global,
    text: &[u8],
) -> Result<ClaimedCircuit, Refusal>
    ensures says { IfOk result (λ claimed. IsText claimed.circuit text.now) }
    ensures digest { IfOk result (λ claimed. claimed.digest ≡ sha256 text.now) }
    ensures stop { IfErr result (λ stop. (stop ≡ stops.NoMemory)
        ⊎ ((fault : ReadFault) × IsOnlyFault text.now fault × (stop ≡ stops.BadText fault))) }
{
    if text.len() < LONG_TEXT {
        let circuit = read_circuit(alloc, text)?;
        let digest = Sha256::digest(text);
        return Ok(ClaimedCircuit { circuit, digest });
    }
    let (digest, circuit) = thread::join(
        rt,
        || -> [u8; 32]
            ensures { result ≡ sha256 text.entry.now }
        { Sha256::digest(text) },
        || -> Result<Circuit, Refusal>
            ensures { IfOk result (λ circuit. IsText circuit text.entry.now)
                × IfErr result (λ stop. (stop ≡ stops.NoMemory)
                ⊎ ((fault : ReadFault) × IsOnlyFault text.entry.now fault × (stop ≡ stops.BadText fault))) }
        { read_circuit(alloc, text) },
    );
    let circuit = circuit?;
    Ok(ClaimedCircuit { circuit, digest })
}

/// The circuit that the file of this name says, of which with these public bits these outputs may be claimed.
pub fn load_claimed<R: Threads + Sync, F: Shelf>(
    rt: &R,
    alloc: Global,
    shelf: &mut F,
    name: &str,
    public: &[bool],
    outputs: &[bool],
) -> Result<ClaimedCircuit, Refusal>
    ensures claim { IfOk result (λ claimed. IsClaim (F.state shelf.old).told name.now public.now outputs.now
        claimed.circuit (circuit_statement claimed.circuit claimed.digest public.now outputs.now)) }
    ensures digest { IfOk result (λ claimed. AreBytes 32 claimed.digest) }
    ensures stop { IfErr result (ClaimStop name.now public.now outputs.now
        (change (F.state shelf.old) (F.state shelf.new))) }
    ensures kept { OnlyLoads (IsName name.now) (change (F.state shelf.old) (F.state shelf.new)) }
    ensures quiet { OnOk result (F.state shelf.new ≡ F.state shelf.old) }
{
    let text = load_file(alloc, shelf, name)?;
    let claimed = read_and_digest(rt, alloc, &text)?;
    check_public(&claimed.circuit, public)?;
    check_outputs(&claimed.circuit, outputs)?;
    Ok(claimed)
}
