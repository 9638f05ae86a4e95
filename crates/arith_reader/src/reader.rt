// A circuit's text, read.
ghost use Rattle.std.specs.Prelude.{◌≡◌, Ok, IfOk, IfErr};
ghost use Rattle.zk_model.specs.ArithFaults.{judged};
ghost use Rattle.arith_reader.specs.Reads.{IsOnlyCircuit, ReadCause, TextCause};

use crate::body::read_body;
use crate::circuit::Arith;
use crate::fault::ReadError;
use crate::header::read_header;
use crate::laws::texts_are_exact;
use std::alloc::Global;
use text_tokens::Tokens;

/// Reads an arithmetic circuit: the numbers of gates, wires, inputs and outputs, and then each gate. `ADD a b out` and
/// `MUL a b out` set the wire `out` to the sum or the product of the wires `a` and `b`, modulo 2^61 - 1; `CONST value out` sets it to a
/// constant below 2^61 - 1; `ASSERT a` sets none and wants the wire `a` to be 0. Wires are numbered from 0, the inputs first and the
/// outputs last. Tokens stand between blanks, however many: spaces, tabs, carriage returns and line feeds. A gate reads wires
/// that are inputs or that a gate before it sets, and sets one that is neither.
///
/// # Errors
///
/// `Fault` where the text is that of no circuit of at most 2^24 gates and 2^24 wires, with the text's first fault: that of
/// the first token that is not right where it stands, and after all those that of the lowest output that is not set.
/// `NoMemory` where memory runs out.
///
/// The format is after that of the page "Bristol Fashion" MPC circuits, of Smart and others, with gates over a field.
pub fn read(alloc: Global, text: &[u8]) -> Result<Arith, ReadError>
    ensures found { IfOk result (IsOnlyCircuit text.now) }
    ensures cause { IfErr result (ReadCause text.now) }
{
    texts_are_exact();
    read_text(alloc, text)
}

/// The circuit that the text says, or its first fault.
fn read_text(alloc: Global, text: &[u8]) -> Result<Arith, ReadError>
    ensures found { IfOk result (λ c. judged text.now ≡ Ok c) }
    ensures cause { IfErr result (TextCause text.now) }
{
    let mut tokens = Tokens::new(text);
    let header = read_header(&mut tokens)?;
    let rows = read_body(alloc, &mut tokens, header)?;
    Ok(Arith::new(header.wires, header.inputs, header.outputs, rows))
}
