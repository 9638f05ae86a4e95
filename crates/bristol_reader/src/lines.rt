// Lines of gates that are read at once. A plain line has one space between tokens, as most have, and any blanks after the
// name; a spaced one has any blanks anywhere. What is neither, as a number of nine digits, is read token by token.
ghost use Rattle.std.specs.Prelude.{◌≡◌, true, [], ◌∷◌, ◌++◌, IfSome, take};
ghost use Rattle.bristol_reader.specs.Wants.{pair_text, single_text};
ghost use Rattle.bristol_reader.specs.Lines.{IsWord, StartsGate, StartsName};

use crate::wants::{BinaryGate, Placed, UnaryGate};
use text_tokens::{is_blank, next_token, short_number, skip_blanks};

/// The line of a gate with two inputs.
#[derive(Clone, Copy)]
pub struct PairLine {
    pub name: BinaryGate,
    pub a: Placed,
    pub b: Placed,
    pub out: Placed,
}

/// The line of a gate with one input.
#[derive(Clone, Copy)]
pub struct SingleLine {
    pub name: UnaryGate,
    pub input: Placed,
    pub out: Placed,
}

/// Whether two texts of four bytes are the same, of which all bytes are compared at once.
#[inline(always)]
fn are_same(some: &[u8; 4], other: &[u8; 4]) -> bool
    ensures { result ≡ true → some.now ≡ other.now }
{
    u32::from_le_bytes(*some) == u32::from_le_bytes(*other)
}

/// Four bytes, with a line feed for the last.
#[inline(always)]
fn with_line_feed(line: &[u8; 4]) -> [u8; 4]
    ensures { result ≡ take 3 line.now ++ 10 ∷ [] }
{
    [line[0], line[1], line[2], b'\n']
}

/// Whether the gate of a plain line has two inputs, by its numbers of inputs and of outputs, and the text after them.
#[inline(always)]
fn plain_heading(text: &[u8]) -> Option<(bool, &[u8])>
    ensures { IfSome result (λ r. StartsGate text.now r.0 r.1.now) }
{
    let (front, behind) = text.split_first_chunk::<4>()?;
    if are_same(front, b"2 1 ") {
        return Some((true, behind));
    }
    if are_same(front, b"1 1 ") {
        return Some((false, behind));
    }
    None
}

/// The same of a line that is spaced.
#[inline(always)]
fn spaced_heading(text: &[u8]) -> Option<(bool, &[u8])>
    ensures { IfSome result (λ r. StartsGate text.now r.0 r.1.now) }
{
    let (inputs, behind) = short_number::<true>(text)?;
    let (outputs, behind) = short_number::<true>(behind)?;
    match (inputs, outputs) {
        (1, 1) => Some((false, behind)),
        (2, 1) => Some((true, behind)),
        _ => None,
    }
}

/// The same of either line.
#[tactic(auto, using(crate::proofs::PlainLines::gate_after))]
#[inline(always)]
pub fn heading<const SPACED: bool>(text: &[u8]) -> Option<(bool, &[u8])>
    ensures { IfSome result (λ r. StartsGate text.now r.0 r.1.now) }
{
    let start = next_token::<SPACED>(text);
    if let Some((is_pair, behind)) = plain_heading(start) {
        return Some((is_pair, behind));
    }
    if !SPACED {
        return None;
    }
    let (is_pair, behind) = spaced_heading(start)?;
    Some((is_pair, behind))
}

/// The text after a name and the blanks behind it, if it begins with that name and a blank.
#[inline(always)]
fn behind_name<'a>(text: &'a [u8], name: &[u8]) -> Option<&'a [u8]>
    requires { IsWord name.now }
    ensures { IfSome result (λ behind. StartsName text.now name.now behind.now) }
{
    let rest = text.strip_prefix(name)?;
    let (blank, behind) = rest.split_first()?;
    if !is_blank(*blank) {
        return None;
    }
    Some(skip_blanks(behind))
}

/// The name of a gate with two inputs that a text begins with, if a blank is after it, and the text after the blanks there; that
/// is mostly a line feed alone. The first letter tells which name it can be, and is no branch: which gates come is hard to
/// foretell.
#[inline(always)]
fn pair_here(text: &[u8]) -> Option<(BinaryGate, &[u8])>
    ensures { IfSome result (λ r. StartsName text.now (pair_text r.0) r.1.now) }
{
    let (line, behind) = text.split_first_chunk::<4>()?;
    let (name, wanted) = if line[0] == b'A' {
        (BinaryGate::And, b"AND\n")
    } else {
        (BinaryGate::Xor, b"XOR\n")
    };
    if are_same(line, wanted) {
        return Some((name, behind));
    }
    if !is_blank(line[3]) || !are_same(&with_line_feed(line), wanted) {
        return None;
    }
    Some((name, skip_blanks(behind)))
}

/// The same of a gate with one input.
#[inline(always)]
fn single_here(text: &[u8]) -> Option<(UnaryGate, &[u8])>
    ensures { IfSome result (λ r. StartsName text.now (single_text r.0) r.1.now) }
{
    let (line, behind) = text.split_first_chunk::<4>()?;
    let (name, wanted) = if line[0] == b'I' {
        (UnaryGate::Inv, b"INV\n")
    } else {
        (UnaryGate::Eqw, b"EQW\n")
    };
    if are_same(line, wanted) {
        return Some((name, behind));
    }
    if is_blank(line[3]) && are_same(&with_line_feed(line), wanted) {
        return Some((name, skip_blanks(behind)));
    }
    let behind = behind_name(text, b"EQ")?;
    Some((UnaryGate::Eq, behind))
}

/// The name of a gate with two inputs at the end of a line, and the text after it.
#[inline(always)]
pub fn pair_name<const SPACED: bool>(text: &[u8]) -> Option<(BinaryGate, &[u8])>
    ensures { IfSome result (λ r. StartsName text.now (pair_text r.0) r.1.now) }
{
    let start = next_token::<SPACED>(text);
    let (name, behind) = pair_here(start)?;
    Some((name, behind))
}

/// The same of a gate with one input.
#[inline(always)]
pub fn single_name<const SPACED: bool>(text: &[u8]) -> Option<(UnaryGate, &[u8])>
    ensures { IfSome result (λ r. StartsName text.now (single_text r.0) r.1.now) }
{
    let start = next_token::<SPACED>(text);
    let (name, behind) = single_here(start)?;
    Some((name, behind))
}
