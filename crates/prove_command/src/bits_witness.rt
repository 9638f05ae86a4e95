// A Boolean circuit, and the bits that prove what is claimed of it.
ghost use Rattle.std.specs.Prelude.{◌≡◌, ◌≤◌, ◌++◌, IfOk, IfErr, OnOk, None, IfSome, drop, length};
ghost use Rattle.zk_model.specs.Circuit.{Circuit, AreWireBits, output_wire};
ghost use Rattle.zk_port.specs.Changes.{change};
ghost use Rattle.file_commands.specs.Effects.{OnlyLoads, IsName};
ghost use Rattle.prove_command.specs.BitsProofs.{BitDiffersFirst, BitsProofStop, HasWires, WiresStop};
ghost use Rattle.prove_command.specs.ProveRuns.{HasWitness};
ghost use Rattle.prove_command.specs.declared.proof.ProofNames.TheVariants as names;

use crate::proof::BitsProof;
use crate::witness::Witness;
use bool_eval::{EvalFault, eval_wires, output_bits};
use bristol_reader::Circuit;
use circuit_laws::{bits_solve, one_outcome};
use file_commands::{ClaimedCircuit, Refusal, check_public, load_file, read_and_digest};
use session_core::{CircuitClaim, WireValues, elements_of, input_bits_prove};
use std::alloc::{AllocError, Global};
use std::thread::Threads;
use zk_port::Shelf;

/// The first place where two lists of one length differ.
fn first_difference(some: &[bool], others: &[bool]) -> Option<usize>
    requires { length others.now ≡ length some.now }
    ensures same { result ≡ None → some.now ≡ others.now }
    ensures first { IfSome result (λ place. BitDiffersFirst place some.now others.now) }
{
    for place in 0..some.len() {
        if some[place] != others[place] {
            return Some(place);
        }
    }
    None
}

/// The public bits, and then the private ones.
fn all_inputs(alloc: Global, public: &[bool], bits: &[bool]) -> Result<Vec<bool>, AllocError>
    ensures { IfOk result (λ inputs. inputs.items ≡ public.now ++ bits.now) }
{
    let mut inputs = public.to_vec(alloc)?;
    inputs.extend_from_slice(bits)?;
    Ok(inputs)
}

/// The bits of all wires of a circuit, which has inputs for the bits that are named.
fn wires_at(alloc: Global, circuit: &Circuit, proof: &BitsProof) -> Result<Vec<bool>, Refusal>
    ensures wires { IfOk result (λ wires.
        AreWireBits circuit.now (proof.now.public ++ proof.now.bits) wires.items) }
    ensures inputs { OnOk result (length (proof.now.public ++ proof.now.bits) ≡ circuit.now.inputs) }
    ensures few { OnOk result (length proof.now.public ≤ circuit.now.inputs) }
    ensures stop { IfErr result (WiresStop circuit.now proof.now) }
{
    let public = proof.public();
    let bits = proof.bits();
    check_public(circuit, public)?;
    let need = circuit.inputs() - public.len();
    let got = bits.len();
    if need != got {
        return Err(Refusal::WrongBits {
            need: need as u64,
            got: got as u64,
        });
    }
    let inputs = all_inputs(alloc, public, bits)?;
    match eval_wires(alloc, circuit, &inputs) {
        Ok(wires) => Ok(wires),
        Err(EvalFault::WrongLength { .. }) => unreachable!(),
        Err(EvalFault::NoMemory) => Err(Refusal::NoMemory),
    }
}

/// The bits of all wires of a circuit that gives the claimed outputs.
fn satisfying_wires(
    alloc: Global,
    circuit: &Circuit,
    proof: &BitsProof,
) -> Result<Vec<bool>, Refusal>
    ensures wires { IfOk result (λ wires.
        AreWireBits circuit.now (proof.now.public ++ proof.now.bits) wires.items) }
    ensures outputs { IfOk result (λ wires.
        drop (output_wire circuit.now 0) wires.items ≡ proof.now.outputs) }
    ensures inputs { OnOk result (length (proof.now.public ++ proof.now.bits) ≡ circuit.now.inputs) }
    ensures few { OnOk result (length proof.now.public ≤ circuit.now.inputs) }
    ensures count { OnOk result (length proof.now.outputs ≡ circuit.now.outputs) }
    ensures stop { IfErr result (WiresStop circuit.now proof.now) }
{
    one_outcome();
    let _wires = circuit.wires();
    let wires = wires_at(alloc, circuit, proof)?;
    let outputs = proof.outputs();
    if outputs.len() != circuit.outputs() {
        return Err(Refusal::WrongOutputs {
            need: circuit.outputs() as u64,
            got: outputs.len() as u64,
        });
    }
    match first_difference(output_bits(circuit, &wires), outputs) {
        None => Ok(wires),
        Some(output) => Err(Refusal::Unsatisfied {
            output: output as u64,
        }),
    }
}

/// The claim that is named, with the bits that prove it.
pub fn load_bits<R: Threads + Sync, F: Shelf>(
    rt: &R,
    alloc: Global,
    shelf: &mut F,
    proof: &BitsProof,
) -> Result<Witness, Refusal>
    ensures witness { IfOk result (λ w.
        HasWitness (F.state shelf.old).told (names.Boolean proof.now) w.claim w.inputs.items
        w.wires) }
    ensures inputs { IfOk result (λ w. length w.inputs.items ≡ w.claim.program.inputs) }
    ensures stop { IfErr result (BitsProofStop proof.now (change (F.state shelf.old) (F.state shelf.new))) }
    ensures kept { OnlyLoads (IsName proof.now.circuit) (change (F.state shelf.old) (F.state shelf.new)) }
    ensures quiet { OnOk result (F.state shelf.new ≡ F.state shelf.old) }
{
    bits_solve();
    input_bits_prove();
    let name = proof.circuit();
    let text = load_file(alloc, shelf, name)?;
    let claimed = read_and_digest(rt, alloc, &text)?;
    drop(text);
    let ClaimedCircuit { circuit, digest } = claimed;
    let wires = satisfying_wires(alloc, &circuit, proof)?;
    let public = proof.public();
    let outputs = proof.outputs();
    let claim = CircuitClaim::new(alloc, circuit, digest, public, outputs)?;
    let bits = proof.bits();
    let inputs = elements_of(alloc, bits)?;
    Ok(Witness {
        claim,
        inputs,
        wires: WireValues::Bits(wires),
    })
}
