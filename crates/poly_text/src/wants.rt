// The next token, where a number of a kind is wanted.
ghost use Rattle.std.specs.Prelude.{◌≡◌, ◌≤◌, ◌<◌, ◌^◌, IfOk, IfErr, []};
ghost use Rattle.poly_model.specs.declared.limits.TheConstants.{MAX_CONSTRAINTS, MAX_VARIABLES};
ghost use Rattle.poly_text.specs.TextFaults.{coefficient_of, count_of, factor_of, next};
ghost use Rattle.poly_text.specs.Steps.{Gives, Refuses, IsExtra, IsNoNumber, TakesPlaced};

use crate::fault::PolyFault;
use mersenne_field::Fe;
use text_tokens::{Next, Tokens};

/// A number, and the number of the token that says it.
#[derive(Clone, Copy)]
pub struct Placed {
    pub number: u64,
    pub token: u64,
}

/// 2^61 - 1.
const PRIME: u64 = (1 << 61) - 1;

/// A number.
fn number(tokens: &mut Tokens) -> Result<Placed, PolyFault>
    ensures number { IfOk result (TakesPlaced tokens.old tokens.new) }
    ensures fault { IfErr result (IsNoNumber tokens.old) }
{
    let token = tokens.taken();
    match tokens.next() {
        Next::End => Err(PolyFault::ShortText { token }),
        Next::Name(_) => Err(PolyFault::BadNumber { token }),
        Next::Number(number) => Ok(Placed { number, token }),
    }
}

/// How many values, constraints, terms or factors there are, up to a limit.
pub fn count(tokens: &mut Tokens, limit: u32) -> Result<u32, PolyFault>
    requires { limit ≤ MAX_CONSTRAINTS }
    ensures number { IfOk result (Gives (next (count_of limit)) tokens.old tokens.new) }
    ensures fault { IfErr result (Refuses (next (count_of limit)) tokens.old) }
    ensures within { IfOk result (λ n. n ≤ limit) }
{
    let Placed { number, token } = number(tokens)?;
    if number > u64::from(limit) {
        return Err(PolyFault::TooLarge { token });
    }
    Ok(number as u32)
}

/// A coefficient.
pub fn coefficient(tokens: &mut Tokens) -> Result<Fe, PolyFault>
    ensures number { IfOk result (Gives (next coefficient_of) tokens.old tokens.new) }
    ensures fault { IfErr result (Refuses (next coefficient_of) tokens.old) }
{
    let Placed { number, token } = number(tokens)?;
    if number >= PRIME {
        return Err(PolyFault::TooLarge { token });
    }
    Ok(Fe::from_word(number))
}

/// The number of a factor, one of so many values.
pub fn factor(tokens: &mut Tokens, variables: u32) -> Result<u16, PolyFault>
    requires { variables ≤ MAX_VARIABLES }
    ensures number { IfOk result (Gives (next (factor_of variables)) tokens.old tokens.new) }
    ensures fault { IfErr result (Refuses (next (factor_of variables)) tokens.old) }
{
    let Placed { number, token } = number(tokens)?;
    if number >= u64::from(variables) {
        return Err(PolyFault::VarRange { token });
    }
    Ok(number as u16)
}

/// The end of the text.
pub fn end(tokens: &mut Tokens) -> Result<(), PolyFault>
    ensures none { IfOk result (λ _. tokens.old.left ≡ []) }
    ensures fault { IfErr result (IsExtra tokens.old) }
{
    let token = tokens.taken();
    match tokens.next() {
        Next::End => Ok(()),
        Next::Name(_) | Next::Number(_) => Err(PolyFault::ExtraText { token }),
    }
}
