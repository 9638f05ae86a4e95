// From a Boolean circuit to its program.
ghost use Rattle.std.specs.Prelude.{◌≡◌, ◌≤◌, ◌+◌, ◌-◌, map, IfOk};
ghost use Rattle.std.specs.List.{range_with_len};
ghost use Rattle.zk_model.specs.Boolean.{circuit_program};

use bristol_reader::Circuit;
use circuit_laws::{circuit_is_ordered, circuit_is_program, gates_are_few};
use field_program::{FieldProgram, Tables};
use std::alloc::{AllocError, Global};

/// The last wires, so many of them.
pub(crate) fn last_wires(alloc: Global, wires: u32, count: u32) -> Result<Vec<u32>, AllocError>
    requires { count ≤ wires }
    ensures { IfOk result (λ v. v.items ≡ map (λ o. wires - count + o) (range_with_len 0 count)) }
{
    let first = wires - count;
    (0..count).map(|o| first + o).collect(alloc)
}

/// The program of a circuit, so many of whose first inputs are public: a bit check for each private input, a step for each
/// gate, a product for each XOR and AND, and the outputs are opened (gates: Bristol Fashion; products, each checked over a
/// correlation of its own: Yang, Sarkar, Weng and Wang, QuickSilver, ACM CCS 2021). Of a circuit with i private inputs and n
/// gates XOR or AND it has i + n products and as many given values. The circuit's list of gates becomes that of the steps.
///
/// # Errors
///
/// Only where memory runs out.
pub fn translate_public(
    alloc: Global,
    circuit: Circuit,
    public: u32,
) -> Result<FieldProgram, AllocError>
    requires { public ≤ circuit.inputs }
    ensures { IfOk result (λ program. program ≡ circuit_program public circuit) }
{
    circuit_is_program();
    circuit_is_ordered();
    gates_are_few();
    let wires = circuit.wires() as u32;
    let private = circuit.inputs() as u32 - public;
    let opened = last_wires(alloc, wires, circuit.outputs() as u32)?;
    let (rules, factors) = circuit.into_gates().into_parts();
    let tables = Tables {
        factors,
        sums: Vec::new(alloc),
        constants: Vec::new(alloc),
    };
    Ok(FieldProgram::from_parts(wires, public, private, 0, rules, tables, opened))
}

/// The program of a circuit, all of whose inputs are private.
///
/// # Errors
///
/// Only where memory runs out.
pub fn translate(alloc: Global, circuit: Circuit) -> Result<FieldProgram, AllocError>
    ensures { IfOk result (λ program. program ≡ circuit_program 0 circuit) }
{
    translate_public(alloc, circuit, 0)
}
