// The header of a circuit's text.
ghost use Rattle.std.specs.Prelude.{◌≡◌, ◌≤◌, ◌^◌, IfOk, IfErr, Ok, Err};
ghost use Rattle.zk_model.specs.ArithFaults.{counts_at};
ghost use Rattle.arith_reader.specs.Rows.{GivesCounts, RefusesCounts, IsHeader};

use crate::wants::{count, size};
use text_tokens::Tokens;
use zk_model::{MAX_GATES, MAX_WIRES, ReadFault};

/// The numbers of gates, wires, inputs and outputs.
#[derive(Clone, Copy)]
pub struct Header {
    pub gates: u32,
    pub wires: u32,
    pub inputs: u32,
    pub outputs: u32,
}

/// Takes the header of a text.
pub fn read_header(tokens: &mut Tokens) -> Result<Header, ReadFault>
    ensures header { IfOk result (GivesCounts tokens.old tokens.new) }
    ensures fault { IfErr result (RefusesCounts tokens.old) }
    ensures within { IfOk result IsHeader }
{
    let gates = count(tokens, MAX_GATES)?;
    let wires = count(tokens, MAX_WIRES)?;
    let inputs = size(tokens, wires)?;
    let outputs = size(tokens, wires)?;
    Ok(Header {
        gates,
        wires,
        inputs,
        outputs,
    })
}
