// The header of a circuit's text.
ghost use Rattle.std.specs.Prelude.{◌≤◌, ◌^◌, IfOk, IfErr};
ghost use Rattle.bristol_reader.specs.TextFaults.{HeaderWants};
ghost use Rattle.bristol_reader.specs.Wants.{IsFaultBehind};
ghost use Rattle.bristol_reader.specs.Headers.{ListWants, TakesHeader, TakesList};
ghost use Rattle.zk_model.specs.declared.limits.TheConstants.{MAX_WIRES};

use crate::tokens::Tokens;
use zk_model::{MAX_GATES, MAX_VALUES, MAX_WIRES, ReadFault};

/// The numbers of gates and of wires, and how many wires the input values and the output values have in all.
#[derive(Clone, Copy)]
pub struct Header {
    pub gates: u32,
    pub wires: u32,
    pub inputs: u32,
    pub outputs: u32,
}

/// Takes a number of values and the size of each, whose sum is within the wires, and gives the sum.
fn value_list(tokens: &mut Tokens, wires: u32) -> Result<u32, ReadFault>
    requires { wires ≤ MAX_WIRES }
    ensures within { IfOk result (λ total. total ≤ wires) }
    ensures list { IfOk result (TakesList tokens.old tokens.new) }
    ensures fault { IfErr result (IsFaultBehind (ListWants wires) tokens.old) }
{
    let values = tokens.count(MAX_VALUES)?;
    let mut sum = 0;
    'sizes: for _ in 0..values {
        sum += tokens.size(wires - sum)?;
    }
    Ok(sum)
}

/// Takes the header of a text.
pub fn read_header(tokens: &mut Tokens) -> Result<Header, ReadFault>
    ensures header { IfOk result (TakesHeader tokens.old tokens.new) }
    ensures fault { IfErr result (IsFaultBehind HeaderWants tokens.old) }
{
    let gates = tokens.count(MAX_GATES)?;
    let wires = tokens.count(MAX_WIRES)?;
    let inputs = value_list(tokens, wires)?;
    let outputs = value_list(tokens, wires)?;
    Ok(Header {
        gates,
        wires,
        inputs,
        outputs,
    })
}
