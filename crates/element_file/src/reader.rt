// Reads a file of elements.
ghost use Rattle.std.specs.Prelude.{◌≡◌, ◌≢◌, length, IfOk, IfErr, OnOk};
ghost use Rattle.element_file.specs.Elements.{LacksElements, SaysElements, SaysNoElements};
ghost use Rattle.element_file.specs.Steps.{IsBadValue, TakesElement};
ghost use Rattle.element_file.specs.declared.fault.ElementsError.TheVariants as error;
ghost use Rattle.element_file.specs.declared.fault.ElementsFault.TheVariants.{Count};

use crate::fault::{ElementsError, ElementsFault};
use mersenne_field::Fe;
use std::alloc::{AllocFailed, Global};
use text_tokens::{Next, Tokens};

/// 2^61 - 1.
const PRIME: u64 = (1 << 61) - 1;

impl<T: Drop> From<AllocFailed<T>> for ElementsError {
    ghost from_gives = { λ _ e. e ≡ error.NoMemory };

    fn from(_: AllocFailed<T>) -> Self {
        ElementsError::NoMemory
    }
}

/// The element that the next token is, if there is one.
fn next_element(tokens: &mut Tokens) -> Result<Option<Fe>, ElementsFault>
    ensures element { IfOk result (TakesElement tokens.old tokens.new) }
    ensures fault { IfErr result (IsBadValue tokens.old) }
{
    let token = tokens.taken();
    match tokens.next() {
        Next::End => Ok(None),
        Next::Number(number) if number < PRIME => Ok(Some(Fe::from_word(number))),
        Next::Number(_) | Next::Name(_) => Err(ElementsFault::BadValue { token }),
    }
}

/// The elements that a text says: its tokens, in order, each the digits of a number below 2^61 - 1, however many zeros lead it. Tokens
/// stand between blanks, however many: spaces, tabs, carriage returns and line feeds. A text without tokens says no elements.
///
/// # Errors
///
/// `ElementsFault::BadValue` where a token is no element, and of the first such token; `ElementsError::NoMemory` where memory is
/// missing.
pub fn read_elements(alloc: Global, text: &[u8]) -> Result<Vec<Fe>, ElementsError>
    ensures elements { IfOk result (λ elements. SaysElements text.now elements.items) }
    ensures fault { IfErr result (SaysNoElements text.now) }
{
    let mut elements = Vec::new(alloc);
    let mut tokens = Tokens::new(text);
    while let Some(element) = next_element(&mut tokens)? {
        elements.push(element)?;
    }
    Ok(elements)
}

/// Whether there are so many elements.
fn check_count(elements: &[Fe], need: u64) -> Result<(), ElementsFault>
    ensures count { OnOk result (length elements.now ≡ need) }
    ensures fault { IfErr result (λ fault. (fault ≡ Count need (length elements.now))
        × (need ≢ length elements.now)) }
{
    let got = elements.len() as u64;
    if got != need {
        return Err(ElementsFault::Count { need, got });
    }
    Ok(())
}

/// The same of a text that is to say so many elements.
///
/// # Errors
///
/// As those of `read_elements`; and `ElementsFault::Count` where each token is an element, and there are not so many.
pub fn read_counted(alloc: Global, text: &[u8], need: u64) -> Result<Vec<Fe>, ElementsError>
    ensures elements { IfOk result (λ elements. SaysElements text.now elements.items) }
    ensures count { IfOk result (λ elements. length elements.items ≡ need) }
    ensures fault { IfErr result (LacksElements need text.now) }
{
    let elements = read_elements(alloc, text)?;
    check_count(&elements, need)?;
    Ok(elements)
}
