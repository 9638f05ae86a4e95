// An arithmetic circuit, and the elements that prove what is claimed of it.
ghost use Rattle.std.specs.Prelude.{◌≡◌, ℕ, List, IfOk, IfErr, OnOk, None, IfSome, length};
ghost use Rattle.arith_eval.specs.Answers.{IsCause};
ghost use Rattle.zk_model.specs.Arithmetic.{SatisfiesElements};
ghost use Rattle.zk_port.specs.Changes.{change};
ghost use Rattle.file_commands.specs.Effects.{OnlyLoads};
ghost use Rattle.prove_command.specs.ElementsProofs.{AreGivenValues, ElementDiffersFirst, ElementsProofStop, ValuesStop};
ghost use Rattle.prove_command.specs.ProveRuns.{HasWitness, IsWitnessName};
ghost use Rattle.prove_command.specs.declared.proof.ProofNames.TheVariants as names;

use crate::proof::ElementsProof;
use crate::witness::Witness;
use arith_eval::{ArithEvalFault, output_elements, satisfying_wires};
use arith_laws::one_list;
use arith_reader::Arith;
use claim_files::{DigestedArith, load_digested_arith, load_elements};
use file_commands::Refusal;
use mersenne_field::Fe;
use session_core::{CircuitClaim, WireValues};
use std::alloc::Global;
use std::thread::Threads;
use zk_port::Shelf;

/// The first place where two lists of one length differ.
fn first_difference(some: &[Fe], others: &[Fe]) -> Option<usize>
    requires { length others.now ≡ length some.now }
    ensures same { result ≡ None → some.now ≡ others.now }
    ensures first { IfSome result (λ place. ElementDiffersFirst place some.now others.now) }
{
    for place in 0..some.len() {
        if some[place].value() != others[place].value() {
            return Some(place);
        }
    }
    None
}

/// Why values do not make a circuit give outputs that it does not give at all.
fn eval_stop(circuit: &Arith, values: &[Fe], fault: ArithEvalFault) -> Refusal
    requires cause { IsCause circuit.now values.now fault }
    requires count { length values.now ≡ circuit.now.inputs }
    ensures { (outputs : List ℕ) → ValuesStop circuit.now values.now outputs result }
{
    let _wires = circuit.wires();
    match fault {
        ArithEvalFault::WrongLength { .. } => unreachable!(),
        ArithEvalFault::AssertFailed { assert, .. } => Refusal::Unsatisfied {
            output: circuit.outputs() as u64 + u64::from(assert),
        },
        ArithEvalFault::NoMemory => Refusal::NoMemory,
    }
}

/// The given values of a circuit's program, where values make the circuit give these outputs, and meet its assertions.
fn check_values(
    alloc: Global,
    circuit: &Arith,
    values: &[Fe],
    outputs: &[Fe],
) -> Result<Vec<Fe>, Refusal>
    requires values { length values.now ≡ circuit.now.inputs }
    requires outputs { length outputs.now ≡ circuit.now.outputs }
    ensures given { IfOk result (λ given. AreGivenValues circuit.now values.now given.items) }
    ensures satisfied { OnOk result (SatisfiesElements circuit.now values.now outputs.now) }
    ensures stop { IfErr result (ValuesStop circuit.now values.now outputs.now) }
{
    one_list();
    let _wires = circuit.wires();
    let satisfied = match satisfying_wires(alloc, circuit, values) {
        Ok(satisfied) => satisfied,
        Err(fault) => return Err(eval_stop(circuit, values, fault)),
    };
    match first_difference(output_elements(circuit, &satisfied.elements), outputs) {
        None => Ok(satisfied.given),
        Some(output) => Err(Refusal::Unsatisfied {
            output: output as u64,
        }),
    }
}

/// The claim that is named, with the elements that prove it.
pub fn load_solution<R: Threads + Sync, F: Shelf>(
    rt: &R,
    alloc: Global,
    shelf: &mut F,
    proof: &ElementsProof,
) -> Result<Witness, Refusal>
    ensures witness { IfOk result (λ w.
        HasWitness (F.state shelf.old).told (names.Arithmetic proof.now) w.claim w.inputs.items
        w.wires) }
    ensures inputs { IfOk result (λ w. length w.inputs.items ≡ w.claim.program.inputs) }
    ensures stop { IfErr result (ElementsProofStop proof.now
        (change (F.state shelf.old) (F.state shelf.new))) }
    ensures kept { OnlyLoads (IsWitnessName (names.Arithmetic proof.now))
        (change (F.state shelf.old) (F.state shelf.new)) }
    ensures quiet { OnOk result (F.state shelf.new ≡ F.state shelf.old) }
{
    let name = proof.circuit();
    let read = load_digested_arith(rt, alloc, shelf, name)?;
    let values_name = proof.values();
    let need = read.circuit.inputs() as u64;
    let inputs = load_elements(alloc, shelf, values_name, need)?;
    let outputs_name = proof.outputs();
    let claimed = read.circuit.outputs() as u64;
    let outputs = load_elements(alloc, shelf, outputs_name, claimed)?;
    let given = check_values(alloc, &read.circuit, &inputs, &outputs)?;
    let DigestedArith { circuit, digest } = read;
    let claim = CircuitClaim::of_arith(alloc, circuit, digest, &outputs)?;
    Ok(Witness {
        claim,
        inputs,
        wires: WireValues::Given(given),
    })
}
