// The outputs of a circuit.
ghost use Rattle.std.specs.Prelude.{◌≡◌, ◌+◌, ◌≤◌, ◌++◌, length, drop, vec_capacity, IfOk, IfErr};
ghost use Rattle.zk_model.specs.Arithmetic.{AreWireElements, SatisfiesElements, first_output};
ghost use Rattle.arith_eval.specs.Answers.{AreOnlyOutputs, IsCause, IsLengthCause, products_in};
ghost use Rattle.arith_eval.specs.declared.fault.ArithEvalFault.TheVariants.{AssertFailed};

use crate::asserts::{Unmet, with_products};
use crate::fault::ArithEvalFault;
use crate::wires::eval_wires;
use arith_laws::{one_list, unmet_is_unsatisfied};
use arith_reader::Arith;
use mersenne_field::Fe;
use std::alloc::Global;

/// The output elements that a circuit gives at these input elements: the only ones that satisfy it.
///
/// # Errors
///
/// `WrongLength` exactly where the elements are not as many as the inputs, memory or not; `AssertFailed` with the first assertion that is
/// not met, so that no outputs satisfy the circuit; `NoMemory` where memory runs out.
pub fn eval(alloc: Global, circuit: &Arith, values: &[Fe]) -> Result<Vec<Fe>, ArithEvalFault>
    ensures satisfies { IfOk result (λ outputs. SatisfiesElements circuit.now values.now outputs.items) }
    ensures only { IfOk result (λ outputs. AreOnlyOutputs circuit.now values.now outputs.items) }
    ensures count { IfOk result (λ outputs. length outputs.items ≡ circuit.now.outputs) }
    ensures cause { IfErr result (IsCause circuit.now values.now) }
{
    one_list();
    let _wires = circuit.wires();
    let satisfied = satisfying_wires(alloc, circuit, values)?;
    let outputs = output_elements(circuit, &satisfied.elements).to_vec(alloc)?;
    Ok(outputs)
}

/// The elements of all wires of a circuit whose assertions are met, and those that its proof is given: of the inputs, and then of the wires
/// that products set, in order.
#[derive(Debug, Drop)]
pub struct Satisfied {
    pub elements: Vec<Fe>,
    pub given: Vec<Fe>,
}

/// The elements of all wires of a circuit at these input elements, which meet all its assertions, and those that its proof is given.
///
/// # Errors
///
/// As `eval`.
pub fn satisfying_wires(
    alloc: Global,
    circuit: &Arith,
    values: &[Fe],
) -> Result<Satisfied, ArithEvalFault>
    ensures wires { IfOk result (λ s. AreWireElements circuit.now values.now s.elements.items) }
    ensures given { IfOk result (λ s. s.given.items
        ≡ values.now ++ products_in s.elements.items circuit.now.gates) }
    ensures cause { IfErr result (IsCause circuit.now values.now) }
{
    unmet_is_unsatisfied();
    let _wires = circuit.wires();
    let inputs = roomy_inputs(alloc, circuit, values)?;
    let elements = eval_wires(alloc, circuit, values)?;
    match with_products(circuit, &elements, inputs) {
        Ok(given) => Ok(Satisfied { elements, given }),
        Err(unmet) => Err(assert_failed(unmet)),
    }
}

/// The input elements, with room for one more for each gate: what is read long after them comes before the elements of all wires, which
/// are soon given up.
fn roomy_inputs(alloc: Global, circuit: &Arith, values: &[Fe]) -> Result<Vec<Fe>, ArithEvalFault>
    ensures inputs { IfOk result (λ inputs. inputs.items ≡ values.now) }
    ensures room { IfOk result (λ inputs.
        length inputs.items + length circuit.now.gates ≤ vec_capacity inputs) }
    ensures cause { IfErr result (IsLengthCause circuit.now values.now) }
{
    let _wires = circuit.wires();
    let need = circuit.inputs();
    let got = values.len();
    if need != got {
        return Err(ArithEvalFault::WrongLength { need, got });
    }
    let mut inputs = Vec::with_capacity(alloc, need + circuit.gates())?;
    inputs.extend_from_slice(values)?;
    Ok(inputs)
}

/// The elements of the output wires, where all wires have these.
pub fn output_elements<'a>(circuit: &Arith, elements: &'a [Fe]) -> &'a [Fe]
    requires { length elements.now ≡ circuit.now.wires }
    ensures { result.now ≡ drop (first_output circuit.now) elements.now }
{
    let first = circuit.wires() - circuit.outputs();
    &elements[first..]
}

/// The fault of an assertion that is not met.
fn assert_failed(unmet: Unmet) -> ArithEvalFault
    ensures { result ≡ AssertFailed unmet.number unmet.value }
{
    ArithEvalFault::AssertFailed {
        assert: unmet.number,
        value: unmet.value,
    }
}
