// Arithmetic circuits that stand as files, and claims about their outputs.
ghost use Rattle.std.specs.Prelude.{◌≡◌, ◌⊎◌, length, IfOk, IfErr, OnOk};
ghost use Rattle.sha2.specs.Sha256.{sha256};
ghost use Rattle.zk_model.specs.ArithTexts.{IsArithText};
ghost use Rattle.zk_model.specs.Bytes.{AreBytes};
ghost use Rattle.zk_model.specs.Statement.{arith_statement};
ghost use Rattle.zk_model.specs.declared.ReadFault.{ReadFault};
ghost use Rattle.zk_port.specs.Changes.{change};
ghost use Rattle.arith_reader.specs.Reads.{IsOnlyFault};
ghost use Rattle.claim_files.specs.ArithFiles.{ArithClaimStop, ArithStop, HasArithText, IsArithClaim, IsArithFile, IsEither};
ghost use Rattle.file_commands.specs.Effects.{OnlyLoads, IsName};
ghost use Rattle.file_commands.specs.declared.refusal.Refusal.TheVariants as stops;

use crate::elements_file::load_elements;
use arith_reader::{Arith, ReadError, read};
use file_commands::{Refusal, load_file};
use mersenne_field::Fe;
use sha2::{Digest, Sha256};
use std::alloc::Global;
use std::thread::{self, Threads};
use zk_port::Shelf;

/// The arithmetic circuit that a text says.
fn read_arith(alloc: Global, text: &[u8]) -> Result<Arith, Refusal>
    ensures says { IfOk result (λ circuit. IsArithText circuit text.now) }
    ensures stop { IfErr result (λ stop. (stop ≡ stops.NoMemory)
        ⊎ ((fault : ReadFault) × IsOnlyFault text.now fault × (stop ≡ stops.BadText fault))) }
{
    match read(alloc, text) {
        Ok(circuit) => Ok(circuit),
        Err(ReadError::Fault(fault)) => Err(Refusal::BadText(fault)),
        Err(ReadError::NoMemory) => Err(Refusal::NoMemory),
    }
}

/// The arithmetic circuit that the file of this name says.
pub fn load_arith<F: Shelf>(alloc: Global, shelf: &mut F, name: &str) -> Result<Arith, Refusal>
    ensures file { IfOk result (IsArithFile (F.state shelf.old).told name.now) }
    ensures stop { IfErr result (ArithStop name.now (change (F.state shelf.old) (F.state shelf.new))) }
    ensures kept { OnlyLoads (IsName name.now) (change (F.state shelf.old) (F.state shelf.new)) }
    ensures quiet { OnOk result (F.state shelf.new ≡ F.state shelf.old) }
{
    let text = load_file(alloc, shelf, name)?;
    read_arith(alloc, &text)
}

/// An arithmetic circuit, with SHA-256 of its text.
#[derive(Drop)]
pub struct DigestedArith {
    pub circuit: Arith,
    pub digest: [u8; 32],
}

/// Texts from this length on are worth a thread for their digest.
const LONG_TEXT: usize = 1 << 20;

/// The arithmetic circuit that a text says, with SHA-256 of the text, which of a long one another thread makes meanwhile.
fn read_digested_arith<R: Threads + Sync>(
    rt: &R,
    alloc: Global,
    text: &[u8],
) -> Result<DigestedArith, Refusal>
    ensures says { IfOk result (λ read. IsArithText read.circuit text.now) }
    ensures digest { IfOk result (λ read. read.digest ≡ sha256 text.now) }
    ensures stop { IfErr result (λ stop. (stop ≡ stops.NoMemory)
        ⊎ ((fault : ReadFault) × IsOnlyFault text.now fault × (stop ≡ stops.BadText fault))) }
{
    if text.len() < LONG_TEXT {
        let circuit = read_arith(alloc, text)?;
        let digest = Sha256::digest(text);
        return Ok(DigestedArith { circuit, digest });
    }
    let (digest, circuit) = thread::join(
        rt,
        || -> [u8; 32]
            ensures { result ≡ sha256 text.entry.now }
        { Sha256::digest(text) },
        || -> Result<Arith, Refusal>
            ensures { IfOk result (λ circuit. IsArithText circuit text.entry.now)
                × IfErr result (λ stop. (stop ≡ stops.NoMemory)
                ⊎ ((fault : ReadFault) × IsOnlyFault text.entry.now fault × (stop ≡ stops.BadText fault))) }
        { read_arith(alloc, text) },
    );
    let circuit = circuit?;
    Ok(DigestedArith { circuit, digest })
}

/// The arithmetic circuit that the file of this name says, with SHA-256 of its text.
pub fn load_digested_arith<R: Threads + Sync, F: Shelf>(
    rt: &R,
    alloc: Global,
    shelf: &mut F,
    name: &str,
) -> Result<DigestedArith, Refusal>
    ensures file { IfOk result (λ read.
        HasArithText (F.state shelf.old).told name.now read.circuit read.digest) }
    ensures digest { IfOk result (λ read. AreBytes 32 read.digest) }
    ensures stop { IfErr result (ArithStop name.now (change (F.state shelf.old) (F.state shelf.new))) }
    ensures kept { OnlyLoads (IsName name.now) (change (F.state shelf.old) (F.state shelf.new)) }
    ensures quiet { OnOk result (F.state shelf.new ≡ F.state shelf.old) }
{
    let text = load_file(alloc, shelf, name)?;
    let read = read_digested_arith(rt, alloc, &text)?;
    Ok(read)
}

/// What is claimed: an arithmetic circuit, with SHA-256 of its text, and its outputs.
#[derive(Drop)]
pub struct ArithOutputs {
    pub circuit: Arith,
    pub digest: [u8; 32],
    pub outputs: Vec<Fe>,
}

/// The arithmetic circuit that the file of this name says, and its claimed outputs, which another file says.
pub fn load_arith_claim<R: Threads + Sync, F: Shelf>(
    rt: &R,
    alloc: Global,
    shelf: &mut F,
    name: &str,
    outputs: &str,
) -> Result<ArithOutputs, Refusal>
    ensures claim { IfOk result (λ claim. IsArithClaim (F.state shelf.old).told name.now outputs.now
        claim.circuit claim.outputs.items
        (arith_statement claim.circuit claim.digest claim.outputs.items)) }
    ensures digest { IfOk result (λ claim. AreBytes 32 claim.digest) }
    ensures stop { IfErr result (ArithClaimStop name.now outputs.now
        (change (F.state shelf.old) (F.state shelf.new))) }
    ensures kept { OnlyLoads (IsEither name.now outputs.now)
        (change (F.state shelf.old) (F.state shelf.new)) }
    ensures quiet { OnOk result (F.state shelf.new ≡ F.state shelf.old) }
{
    let read = load_digested_arith(rt, alloc, shelf, name)?;
    let need = read.circuit.outputs() as u64;
    let outputs = load_elements(alloc, shelf, outputs, need)?;
    let DigestedArith { circuit, digest } = read;
    Ok(ArithOutputs {
        circuit,
        digest,
        outputs,
    })
}
