// A circuit's text, read.
ghost use Rattle.std.specs.Prelude.{IfOk, IfErr};
ghost use Rattle.zk_model.specs.Bristol.{IsText};
ghost use Rattle.bristol_reader.specs.Reads.{IsOnlyCircuit, ReadCause, TextCause};

use crate::body::read_body;
use crate::circuit::Circuit;
use crate::fault::ReadError;
use crate::header::read_header;
use crate::laws::{fault_or_circuit, one_circuit, one_first_fault};
use crate::tokens::Tokens;
use std::alloc::Global;

/// Reads a circuit in Bristol Fashion: the numbers of gates and of wires, the sizes of the input values and of the
/// output values, and then each gate, by the numbers of its inputs and outputs, its wires and its name. Gates are XOR,
/// AND, INV, EQ and EQW; the input of EQ is a constant, 0 or 1. Tokens stand between blanks, however many: spaces,
/// tabs, carriage returns and line feeds. A gate reads wires that are inputs or that a gate before it sets, and sets
/// one that is neither.
///
/// # Errors
///
/// `Fault` where the text is that of no circuit of at most 2^24 gates, 2^24 wires, and 1,024 values of inputs and of
/// outputs, with the text's first fault: that of the first token that is not what is wanted there, gate by gate, and
/// in each gate before the faults of its wires, which go in their order; after all those that of the lowest output
/// that is not set. `NoMemory` where memory runs out.
///
/// The format is that of the page "Bristol Fashion" MPC circuits, of Smart and others.
pub fn read(alloc: Global, text: &[u8]) -> Result<Circuit, ReadError>
    ensures found { IfOk result (IsOnlyCircuit text.now) }
    ensures cause { IfErr result (ReadCause text.now) }
{
    one_circuit();
    one_first_fault();
    fault_or_circuit();
    read_text(alloc, text)
}

/// The circuit that the text says, or its first fault.
fn read_text(alloc: Global, text: &[u8]) -> Result<Circuit, ReadError>
    ensures found { IfOk result (λ c. IsText c text.now) }
    ensures cause { IfErr result (TextCause text.now) }
{
    let mut tokens = Tokens::new(text);
    let header = read_header(&mut tokens)?;
    let gates = read_body(alloc, &mut tokens, header)?;
    Ok(Circuit::new(header.wires, header.inputs, header.outputs, gates))
}
