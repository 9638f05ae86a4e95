// The next token, where a number or a name of a kind is wanted.
ghost use Rattle.std.specs.Prelude.{◌≡◌, ◌≤◌, ◌<◌, ◌^◌, IfOk, IfErr, [], length};
ghost use Rattle.zk_model.specs.Field.{prime};
ghost use Rattle.zk_model.specs.Bristol.{name};
ghost use Rattle.zk_model.specs.declared.limits.TheConstants.{MAX_WIRES};
ghost use Rattle.zk_model.specs.ArithFaults.{constant_of, count_of, name_of, size_of};
ghost use Rattle.arith_reader.specs.Wants.{Gives, Refuses, GivesRead, GivesSet, RefusesRead, RefusesSet, IsExtra, IsNoNumber, TakesPlaced};

use text_tokens::{Next, Tokens};
use zk_model::{ArithName, ReadFault};

/// A number, and the number of the token that says it.
#[derive(Clone, Copy)]
pub struct Placed {
    pub number: u64,
    pub token: u64,
}

/// 2^61 - 1.
const PRIME: u64 = (1 << 61) - 1;

/// A number.
#[inline(always)]
fn number(tokens: &mut Tokens) -> Result<Placed, ReadFault>
    ensures number { IfOk result (TakesPlaced tokens.old tokens.new) }
    ensures fault { IfErr result (IsNoNumber tokens.old) }
{
    let token = tokens.taken();
    match tokens.next() {
        Next::End => Err(ReadFault::ShortText { token }),
        Next::Name(_) => Err(ReadFault::BadNumber { token }),
        Next::Number(number) => Ok(Placed { number, token }),
    }
}

/// A number up to the limit.
pub fn count(tokens: &mut Tokens, limit: u32) -> Result<u32, ReadFault>
    requires { limit ≤ MAX_WIRES }
    ensures number { IfOk result (Gives (count_of limit) tokens.old tokens.new) }
    ensures fault { IfErr result (Refuses (count_of limit) tokens.old) }
    ensures within { IfOk result (λ n. n ≤ limit) }
{
    let Placed { number, token } = number(tokens)?;
    if number > u64::from(limit) {
        return Err(ReadFault::TooLarge { token });
    }
    Ok(number as u32)
}

/// A number of at most so many wires.
pub fn size(tokens: &mut Tokens, wires: u32) -> Result<u32, ReadFault>
    requires { wires ≤ MAX_WIRES }
    ensures number { IfOk result (Gives (size_of wires) tokens.old tokens.new) }
    ensures fault { IfErr result (Refuses (size_of wires) tokens.old) }
    ensures within { IfOk result (λ n. n ≤ wires) }
{
    let Placed { number, token } = number(tokens)?;
    if number > u64::from(wires) {
        return Err(ReadFault::WireRange { token });
    }
    Ok(number as u32)
}

/// A constant.
pub fn constant(tokens: &mut Tokens) -> Result<u64, ReadFault>
    ensures number { IfOk result (Gives constant_of tokens.old tokens.new) }
    ensures fault { IfErr result (Refuses constant_of tokens.old) }
    ensures within { IfOk result (λ n. n < prime) }
{
    let Placed { number, token } = number(tokens)?;
    if number >= PRIME {
        return Err(ReadFault::BadConstant { token });
    }
    Ok(number)
}

/// A wire that a gate reads, which is to be set.
#[inline(always)]
pub fn read_wire(tokens: &mut Tokens, set: &[bool]) -> Result<u32, ReadFault>
    requires { length set.now ≤ MAX_WIRES }
    ensures wire { IfOk result (GivesRead set.now tokens.old tokens.new) }
    ensures fault { IfErr result (RefusesRead set.now tokens.old) }
    ensures within { IfOk result (λ n. n < length set.now) }
{
    let Placed { number, token } = number(tokens)?;
    if number >= set.len() as u64 {
        return Err(ReadFault::WireRange { token });
    }
    if !set[number as usize] {
        return Err(ReadFault::ReadBeforeSet { token });
    }
    Ok(number as u32)
}

/// A wire that a gate sets, which is not to be set before.
#[inline(always)]
pub fn set_wire(tokens: &mut Tokens, set: &[bool]) -> Result<u32, ReadFault>
    requires { length set.now ≤ MAX_WIRES }
    ensures wire { IfOk result (GivesSet set.now tokens.old tokens.new) }
    ensures fault { IfErr result (RefusesSet set.now tokens.old) }
    ensures within { IfOk result (λ n. n < length set.now) }
{
    let Placed { number, token } = number(tokens)?;
    if number >= set.len() as u64 {
        return Err(ReadFault::WireRange { token });
    }
    if set[number as usize] {
        return Err(ReadFault::SetTwice { token });
    }
    Ok(number as u32)
}

/// The gate that a word names, where its token has this number.
#[inline(always)]
fn named(word: &[u8], token: u64) -> Result<ArithName, ReadFault>
    ensures { result ≡ name_of token (name word.now) }
{
    if word == b"ADD".as_slice() {
        Ok(ArithName::Add)
    } else if word == b"MUL".as_slice() {
        Ok(ArithName::Mul)
    } else if word == b"CONST".as_slice() {
        Ok(ArithName::Const)
    } else if word == b"ASSERT".as_slice() {
        Ok(ArithName::Assert)
    } else {
        Err(ReadFault::BadGate { token })
    }
}

/// The name of a gate.
#[inline(always)]
pub fn gate_name(tokens: &mut Tokens) -> Result<ArithName, ReadFault>
    ensures name { IfOk result (Gives name_of tokens.old tokens.new) }
    ensures fault { IfErr result (Refuses name_of tokens.old) }
{
    let token = tokens.taken();
    match tokens.next() {
        Next::End => Err(ReadFault::ShortText { token }),
        Next::Number(_) => Err(ReadFault::BadGate { token }),
        Next::Name(word) => named(word, token),
    }
}

/// The end of the text.
pub fn end(tokens: &mut Tokens) -> Result<(), ReadFault>
    ensures none { IfOk result (λ _. tokens.old.left ≡ []) }
    ensures fault { IfErr result (IsExtra tokens.old) }
{
    let token = tokens.taken();
    match tokens.next() {
        Next::End => Ok(()),
        Next::Name(_) | Next::Number(_) => Err(ReadFault::ExtraText { token }),
    }
}
