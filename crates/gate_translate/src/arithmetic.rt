// From an arithmetic circuit to its program.
ghost use Rattle.std.specs.Prelude.{◌≡◌, ◌++◌, IfOk, OnOk};
ghost use Rattle.zk_model.specs.ArithProgram.{arith_program};
ghost use Rattle.gate_translate.specs.Assertions.{AreTabled, asserted_among, steps_among};

use crate::translation::last_wires;
use arith_laws::{arith_is_ordered, arith_is_program};
use arith_reader::Arith;
use field_program::{FieldProgram, PackedStep, Tables};
use std::alloc::{AllocError, Global};

/// Takes the assertions out of rules, in place, and puts the wires that they assert behind those that are opened.
fn take_assertions(rules: &mut Vec<PackedStep>, opened: &mut Vec<u32>) -> Result<(), AllocError>
    ensures steps { OnOk result (rules.new.items ≡ steps_among rules.old.items) }
    ensures opened { OnOk result (opened.new.items ≡ opened.old.items ++ asserted_among rules.old.items) }
{
    let mut kept = 0;
    for i in 0..rules.len() {
        let rule = rules[i];
        if let PackedStep::Assert { a } = rule {
            opened.push(a)?;
        } else {
            rules[kept] = rule;
            kept += 1;
        }
    }
    rules.truncate(kept);
    Ok(())
}

/// The same, but the rules are looked at only where they are more than the steps in the tables, so that there are assertions among them.
#[tactic(auto, using(crate::proofs::NoAssertions::few_steps))]
fn take_if_any(
    rules: &mut Vec<PackedStep>,
    tables: &Tables,
    opened: &mut Vec<u32>,
) -> Result<(), AllocError>
    requires { AreTabled rules.old.items tables.now }
    ensures steps { OnOk result (rules.new.items ≡ steps_among rules.old.items) }
    ensures opened { OnOk result (opened.new.items ≡ opened.old.items ++ asserted_among rules.old.items) }
{
    let steps = tables.factors.len() + tables.sums.len() + tables.constants.len();
    if steps == rules.len() {
        return Ok(());
    }
    take_assertions(rules, opened)
}

/// The program of an arithmetic circuit, all of whose inputs are private: a step for each ADD, MUL and CONST, a product for each MUL, and
/// the outputs are opened, and then the asserted wires. No input is checked to be a bit (products, each checked over a correlation of its own:
/// Yang, Sarkar, Weng and Wang, QuickSilver, ACM CCS 2021). Of a circuit with i inputs and n gates MUL it has n products and i + n given
/// values. The circuit's list of gates becomes that of the steps.
///
/// # Errors
///
/// Only where memory runs out.
pub fn translate_arith(alloc: Global, circuit: Arith) -> Result<FieldProgram, AllocError>
    ensures { IfOk result (λ program. program ≡ arith_program circuit) }
{
    arith_is_program();
    arith_is_ordered();
    let wires = circuit.wires() as u32;
    let inputs = circuit.inputs() as u32;
    let mut opened = last_wires(alloc, wires, circuit.outputs() as u32)?;
    let (mut rules, tables) = circuit.into_rows().into_parts();
    take_if_any(&mut rules, &tables, &mut opened)?;
    Ok(FieldProgram::from_parts(wires, 0, inputs, inputs, rules, tables, opened))
}
