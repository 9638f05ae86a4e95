// A gate of a circuit's text.
ghost use Rattle.std.specs.Prelude.{◌≡◌, ◌≤◌, ◌^◌, true, false, IfOk, IfErr, IfSome, IfNone, length};
ghost use Rattle.zk_model.specs.Bristol.{gate_lexemes};
ghost use Rattle.bristol_reader.specs.TextFaults.{GateWants};
ghost use Rattle.text_tokens.specs.Words.{Takes};
ghost use Rattle.bristol_reader.specs.Wants.{numbers_of, IsFaultBehind};
ghost use Rattle.bristol_reader.specs.Gates.{IsSetWire, IsNoSetWire, IsFreeWire, IsNoFreeWire};
ghost use Rattle.bristol_reader.specs.Gates.{MayBeInput, MayNotBeInput};
ghost use Rattle.bristol_reader.specs.Gates.{FitsFlags, pair_gate, single_gate, IsWrongPair, IsWrongSingle};
ghost use Rattle.bristol_reader.specs.Gates.{IsGateFault, IsGateBehind, IsFaultIn, IsRead};
ghost use Rattle.bristol_reader.specs.Lines.{IsGateAt};
ghost use Rattle.zk_model.specs.declared.limits.TheConstants.{MAX_WIRES};

use crate::lines::{PairLine, SingleLine};
use crate::set_wires::SetWires;
use crate::tokens::Tokens;
use crate::wants::{BinaryGate, Placed, UnaryGate};
use zk_model::{GateRow, ReadFault};

/// The wire that a gate reads, which is to be set.
#[inline(always)]
fn read_wire(set: &SetWires, wire: Placed) -> Result<u32, ReadFault>
    ensures wire { IfOk result (IsSetWire set.now wire) }
    ensures fault { IfErr result (IsNoSetWire set.now wire) }
{
    let Placed { number, token } = wire;
    if !set.contains(number) {
        let fault = if number as usize >= set.len() {
            ReadFault::WireRange { token }
        } else {
            ReadFault::ReadBeforeSet { token }
        };
        return Err(fault);
    }
    Ok(number)
}

/// The wire that a gate sets, which is not to be set before.
#[inline(always)]
fn set_wire(set: &SetWires, wire: Placed) -> Result<u32, ReadFault>
    ensures wire { IfOk result (IsFreeWire set.now wire) }
    ensures fault { IfErr result (IsNoFreeWire set.now wire) }
{
    let Placed { number, token } = wire;
    if number as usize >= set.len() {
        return Err(ReadFault::WireRange { token });
    }
    if set.contains(number) {
        return Err(ReadFault::SetTwice { token });
    }
    Ok(number)
}

/// Looks at the input of a gate: EQ has a constant, and the others a wire that is to be set.
#[inline(always)]
fn check_input(set: &SetWires, name: UnaryGate, input: Placed) -> Result<(), ReadFault>
    ensures input { IfOk result (λ _. MayBeInput set.now name input) }
    ensures fault { IfErr result (MayNotBeInput set.now name input) }
{
    match name {
        UnaryGate::Inv | UnaryGate::Eqw => {
            read_wire(set, input)?;
        }
        UnaryGate::Eq => {
            if input.number > 1 {
                return Err(ReadFault::BadConstant { token: input.token });
            }
        }
    }
    Ok(())
}

/// The gate of a name with two inputs.
#[inline(always)]
fn pair_gate(name: BinaryGate, a: u32, b: u32, out: u32) -> GateRow
    ensures { result ≡ pair_gate name a b out }
{
    match name {
        BinaryGate::And => GateRow::And { a, b, out },
        BinaryGate::Xor => GateRow::Xor { a, b, out },
    }
}

/// The gate of a name with one input.
#[inline(always)]
fn single_gate(name: UnaryGate, input: u32, out: u32) -> GateRow
    ensures { result ≡ single_gate name input out }
{
    match name {
        UnaryGate::Inv => GateRow::Inv { a: input, out },
        UnaryGate::Eqw => GateRow::Eqw { a: input, out },
        UnaryGate::Eq => GateRow::Eq {
            value: input == 1,
            out,
        },
    }
}

/// The gate with two inputs, if the wires that it reads are set and the one that it sets is not.
#[inline(always)]
fn pair_row(
    set: &SetWires,
    name: BinaryGate,
    a: Placed,
    b: Placed,
    out: Placed,
) -> Result<GateRow, ReadFault>
    requires { length set.now ≤ MAX_WIRES }
    ensures row { IfOk result (λ gate. gate ≡ pair_gate name a.number b.number out.number) }
    ensures fits { IfOk result (FitsFlags set.now) }
    ensures fault { IfErr result (IsWrongPair set.now name a b out) }
{
    let a = read_wire(set, a)?;
    let b = read_wire(set, b)?;
    let out = set_wire(set, out)?;
    Ok(pair_gate(name, a, b, out))
}

/// The gate with one input, if that is right, and the wire that it sets is not set before.
#[inline(always)]
fn single_row(
    set: &SetWires,
    name: UnaryGate,
    input: Placed,
    out: Placed,
) -> Result<GateRow, ReadFault>
    requires { length set.now ≤ MAX_WIRES }
    ensures row { IfOk result (λ gate. gate ≡ single_gate name input.number out.number) }
    ensures input { IfOk result (λ _. MayBeInput set.now name input) }
    ensures fits { IfOk result (FitsFlags set.now) }
    ensures fault { IfErr result (IsWrongSingle set.now name input out) }
{
    check_input(set, name, input)?;
    let out = set_wire(set, out)?;
    Ok(single_gate(name, input.number, out))
}

/// Takes the tokens of a gate with two inputs after their numbers of inputs and of outputs.
#[tactic(auto, using(crate::proofs::GateTokens::tokens_of_two))]
fn read_pair(tokens: &mut Tokens, set: &SetWires) -> Result<GateRow, ReadFault>
    requires { length set.now ≤ MAX_WIRES }
    ensures gate { IfOk result (IsGateBehind 2 tokens.old tokens.new) }
    ensures fits { IfOk result (FitsFlags set.now) }
    ensures fault { IfErr result (IsFaultIn 2 set.now tokens.old) }
{
    let a = tokens.number()?;
    let b = tokens.number()?;
    let out = tokens.number()?;
    let name = tokens.pair()?;
    let row = pair_row(set, name, a, b, out)?;
    Ok(row)
}

/// Takes the tokens of a gate with one input.
#[tactic(auto, using(crate::proofs::GateTokens::tokens_of_one))]
fn read_single(tokens: &mut Tokens, set: &SetWires) -> Result<GateRow, ReadFault>
    requires { length set.now ≤ MAX_WIRES }
    ensures gate { IfOk result (IsGateBehind 1 tokens.old tokens.new) }
    ensures fits { IfOk result (FitsFlags set.now) }
    ensures fault { IfErr result (IsFaultIn 1 set.now tokens.old) }
{
    let a = tokens.number()?;
    let out = tokens.number()?;
    let name = tokens.single()?;
    let row = single_row(set, name, a, out)?;
    Ok(row)
}

/// Takes a gate's numbers of inputs and of outputs, and says whether there are 2 inputs.
#[tactic(auto, using(crate::proofs::GateTokens::numbers_wanted))]
fn read_numbers(tokens: &mut Tokens) -> Result<bool, ReadFault>
    ensures numbers { IfOk result (λ two. Takes (numbers_of two) tokens.old tokens.new) }
    ensures fault { IfErr result (IsFaultBehind GateWants tokens.old) }
{
    let is_pair = tokens.two_inputs()?;
    tokens.one_output()?;
    Ok(is_pair)
}

/// Takes the tokens of a gate, one after another.
#[inline(never)]
fn read_tokens(tokens: &mut Tokens, set: &SetWires) -> Result<GateRow, ReadFault>
    requires { length set.now ≤ MAX_WIRES }
    ensures gate { IfOk result (λ gate. Takes (gate_lexemes gate) tokens.old tokens.new) }
    ensures fits { IfOk result (FitsFlags set.now) }
    ensures fault { IfErr result (IsGateFault set.now tokens.old) }
{
    let is_pair = read_numbers(tokens)?;
    if is_pair {
        let gate = read_pair(tokens, set)?;
        Ok(gate)
    } else {
        let gate = read_single(tokens, set)?;
        Ok(gate)
    }
}

/// Takes the line of a gate with two inputs, behind its first two numbers; nothing, if it is written otherwise.
#[inline(always)]
fn read_pair_line<'a, const SPACED: bool>(
    tokens: &mut Tokens<'a>,
    behind: &'a [u8],
    set: &SetWires,
) -> Option<Result<GateRow, ReadFault>>
    requires few { length set.now ≤ MAX_WIRES }
    requires begins { IsGateAt tokens.old true behind.now }
    ensures none { IfNone result (tokens.new ≡ tokens.old) }
    ensures read { IfSome result (IsRead set.now tokens.old tokens.new) }
{
    let PairLine { name, a, b, out } = tokens.pair_line::<SPACED>(behind)?;
    Some(pair_row(set, name, a, b, out))
}

/// The same of a gate with one input.
#[inline(always)]
fn read_single_line<'a, const SPACED: bool>(
    tokens: &mut Tokens<'a>,
    behind: &'a [u8],
    set: &SetWires,
) -> Option<Result<GateRow, ReadFault>>
    requires few { length set.now ≤ MAX_WIRES }
    requires begins { IsGateAt tokens.old false behind.now }
    ensures none { IfNone result (tokens.new ≡ tokens.old) }
    ensures read { IfSome result (IsRead set.now tokens.old tokens.new) }
{
    let SingleLine { name, input, out } = tokens.single_line::<SPACED>(behind)?;
    Some(single_row(set, name, input, out))
}

/// Takes the line of a gate; nothing, if it is written otherwise.
#[inline(always)]
fn read_line<const SPACED: bool>(
    tokens: &mut Tokens,
    set: &SetWires,
) -> Option<Result<GateRow, ReadFault>>
    requires { length set.now ≤ MAX_WIRES }
    ensures none { IfNone result (tokens.new ≡ tokens.old) }
    ensures read { IfSome result (IsRead set.now tokens.old tokens.new) }
{
    let (is_pair, behind) = tokens.heading::<SPACED>()?;
    if is_pair {
        read_pair_line::<SPACED>(tokens, behind, set)
    } else {
        read_single_line::<SPACED>(tokens, behind, set)
    }
}

/// Takes the tokens of a gate, whose line is not plain: all at once if it is spaced, else one by one.
#[inline(never)]
fn read_spaced(tokens: &mut Tokens, set: &SetWires) -> Result<GateRow, ReadFault>
    requires { length set.now ≤ MAX_WIRES }
    ensures { IsRead set.now tokens.old tokens.new result }
{
    if let Some(read) = read_line::<true>(tokens, set) {
        tokens.note_spaced();
        return read;
    }
    read_tokens(tokens, set)
}

/// Takes the tokens of a gate: its line at once, if it is plain.
#[inline(always)]
pub fn read_gate(tokens: &mut Tokens, set: &SetWires) -> Result<GateRow, ReadFault>
    requires { length set.now ≤ MAX_WIRES }
    ensures gate { IfOk result (λ gate. Takes (gate_lexemes gate) tokens.old tokens.new) }
    ensures fits { IfOk result (FitsFlags set.now) }
    ensures fault { IfErr result (IsGateFault set.now tokens.old) }
{
    if !tokens.is_spaced() {
        if let Some(read) = read_line::<false>(tokens, set) {
            return read;
        }
    }
    read_spaced(tokens, set)
}
