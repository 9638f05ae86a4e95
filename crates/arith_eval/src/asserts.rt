// The assertions of a circuit, and the elements of its products.
ghost use Rattle.std.specs.Prelude.{◌≡◌, ◌+◌, ◌≤◌, ◌<◌, ◌^◌, ◌++◌, length, vec_capacity, IfOk, IfErr, OnOk, All};
ghost use Rattle.zk_model.specs.Arithmetic.{asserted, element_of};
ghost use Rattle.arith_eval.specs.Answers.{AreZero, IsUnmet, products_in};

use arith_reader::{Arith, ArithRow};
use mersenne_field::Fe;

/// An assertion that is not met, and the element of its wire.
#[derive(Clone, Copy)]
pub struct Unmet {
    pub number: u32,
    pub value: Fe,
}

/// Appends the elements of all products to those of the inputs, which leave room for them, where all assertions are met.
///
/// # Errors
///
/// The first assertion that is not met.
pub fn with_products(circuit: &Arith, elements: &[Fe], inputs: Vec<Fe>) -> Result<Vec<Fe>, Unmet>
    requires whole { length elements.now ≡ circuit.now.wires }
    requires room { length inputs.items + length circuit.now.gates ≤ vec_capacity inputs }
    ensures given { IfOk result (λ given. given.items
        ≡ inputs.items ++ products_in elements.now circuit.now.gates) }
    ensures zero { OnOk result (AreZero elements.now (asserted circuit.now)) }
    ensures unmet { IfErr result (IsUnmet circuit.now elements.now) }
{
    let _wires = circuit.wires();
    let mut given = inputs;
    let mut number = 0;
    for i in 0..circuit.gates() {
        match circuit.gate(i) {
            ArithRow::Assert { a } => {
                let value = elements[a as usize];
                if value.value() != 0 {
                    return Err(Unmet { number, value });
                }
                number += 1;
            }
            ArithRow::Mul { out, .. } => given.push_reserved(elements[out as usize]),
            ArithRow::Add { .. } | ArithRow::Const { .. } => {}
        }
    }
    Ok(given)
}
