// A gate of a circuit's text.
ghost use Rattle.std.specs.Prelude.{◌≡◌, ◌≤◌, ◌<◌, ◌^◌, IfOk, IfErr, length};
ghost use Rattle.zk_model.specs.declared.limits.TheConstants.{MAX_WIRES};
ghost use Rattle.zk_model.specs.declared.ArithName.TheVariants as name;
ghost use Rattle.packed_gates.specs.PackedRows.{HasElement};
ghost use Rattle.arith_reader.specs.Rows.{GivesBehind, GivesRow, GivesPair, IsWithin, RefusesBehind, RefusesRow, RefusesPair};

use crate::lines::take_line;
use crate::wants::{constant, gate_name, read_wire, set_wire};
use text_tokens::Tokens;
use zk_model::{ArithName, ArithRow, ReadFault};

/// The wires of a gate that reads two.
#[derive(Clone, Copy)]
struct ThreeWires {
    a: u32,
    b: u32,
    out: u32,
}

/// Takes the wires of a gate that reads two.
#[inline(always)]
fn read_pair(tokens: &mut Tokens, set: &[bool]) -> Result<ThreeWires, ReadFault>
    requires { length set.now ≤ MAX_WIRES }
    ensures wires { IfOk result (GivesPair set.now tokens.old tokens.new) }
    ensures fault { IfErr result (RefusesPair set.now tokens.old) }
    ensures within { IfOk result (λ w. w.out < length set.now) }
{
    let a = read_wire(tokens, set)?;
    let b = read_wire(tokens, set)?;
    let out = set_wire(tokens, set)?;
    Ok(ThreeWires { a, b, out })
}

/// Takes the tokens of a constant behind its name.
fn read_const(tokens: &mut Tokens, set: &[bool]) -> Result<ArithRow, ReadFault>
    requires { length set.now ≤ MAX_WIRES }
    ensures row { IfOk result (GivesBehind name.Const set.now tokens.old tokens.new) }
    ensures fault { IfErr result (RefusesBehind name.Const set.now tokens.old) }
    ensures within { IfOk result (IsWithin (length set.now)) }
    ensures element { IfOk result HasElement }
{
    let value = constant(tokens)?;
    let out = set_wire(tokens, set)?;
    Ok(ArithRow::Const { value, out })
}

/// Takes the tokens of a gate behind its name.
#[inline(always)]
fn read_behind(tokens: &mut Tokens, set: &[bool], of: ArithName) -> Result<ArithRow, ReadFault>
    requires { length set.now ≤ MAX_WIRES }
    ensures row { IfOk result (GivesBehind of set.now tokens.old tokens.new) }
    ensures fault { IfErr result (RefusesBehind of set.now tokens.old) }
    ensures within { IfOk result (IsWithin (length set.now)) }
    ensures element { IfOk result HasElement }
{
    match of {
        ArithName::Add => {
            let ThreeWires { a, b, out } = read_pair(tokens, set)?;
            Ok(ArithRow::Add { a, b, out })
        }
        ArithName::Mul => {
            let ThreeWires { a, b, out } = read_pair(tokens, set)?;
            Ok(ArithRow::Mul { a, b, out })
        }
        ArithName::Const => read_const(tokens, set),
        ArithName::Assert => {
            let a = read_wire(tokens, set)?;
            Ok(ArithRow::Assert { a })
        }
    }
}

/// Takes the tokens of a gate, one after another.
#[inline(never)]
fn read_tokens(tokens: &mut Tokens, set: &[bool]) -> Result<ArithRow, ReadFault>
    requires { length set.now ≤ MAX_WIRES }
    ensures row { IfOk result (GivesRow set.now tokens.old tokens.new) }
    ensures fault { IfErr result (RefusesRow set.now tokens.old) }
    ensures within { IfOk result (IsWithin (length set.now)) }
    ensures element { IfOk result HasElement }
{
    let of = gate_name(tokens)?;
    let row = read_behind(tokens, set, of)?;
    Ok(row)
}

/// Takes the tokens of a gate: its line at once, if it is plain.
#[inline(always)]
pub fn read_row(tokens: &mut Tokens, set: &[bool]) -> Result<ArithRow, ReadFault>
    requires { length set.now ≤ MAX_WIRES }
    ensures row { IfOk result (GivesRow set.now tokens.old tokens.new) }
    ensures fault { IfErr result (RefusesRow set.now tokens.old) }
    ensures within { IfOk result (IsWithin (length set.now)) }
    ensures element { IfOk result HasElement }
{
    if let Some(row) = take_line(tokens, set) {
        return Ok(row);
    }
    read_tokens(tokens, set)
}
