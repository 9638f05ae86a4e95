// Lines of gates that are read at once: ADD or MUL and three wires, with one space between tokens and any blanks around. What is
// written otherwise, as a number of nine digits, or has a fault, is read token by token.
ghost use Rattle.std.specs.Prelude.{◌≡◌, true, IfSome, IfNone, length};
ghost use Rattle.packed_gates.specs.PackedRows.{HasElement};
ghost use Rattle.arith_reader.specs.Lines.{IsFree, IsNameAt, IsSet, StartsName, pair_row, pair_text};
ghost use Rattle.arith_reader.specs.Rows.{GivesRow, IsWithin};

use text_tokens::{Tokens, short_number, skip_blanks};
use zk_model::ArithRow;

/// The names of gates that read two wires.
#[derive(Clone, Copy)]
enum PairName {
    Add,
    Mul,
}

/// The gate of a name.
#[inline(always)]
fn pair_row(name: PairName, a: u32, b: u32, out: u32) -> ArithRow
    ensures { result ≡ pair_row name a b out }
{
    match name {
        PairName::Add => ArithRow::Add { a, b, out },
        PairName::Mul => ArithRow::Mul { a, b, out },
    }
}

/// Whether two texts of four bytes are the same, of which all bytes are compared at once.
#[inline(always)]
fn are_same(some: &[u8; 4], other: &[u8; 4]) -> bool
    ensures { result ≡ true → some.now ≡ other.now }
{
    u32::from_le_bytes(*some) == u32::from_le_bytes(*other)
}

/// The name that a text begins with, if a space is after it, and the text after these. The first letter tells which name it can
/// be, and is no branch: which gates come is hard to foretell.
#[inline(always)]
fn name_here(text: &[u8]) -> Option<(PairName, &[u8])>
    ensures { IfSome result (λ r. StartsName text.now (pair_text r.0) r.1.now) }
{
    let (front, behind) = text.split_first_chunk::<4>()?;
    let (name, wanted) = if front[0] == b'A' {
        (PairName::Add, b"ADD ")
    } else {
        (PairName::Mul, b"MUL ")
    };
    if !are_same(front, wanted) {
        return None;
    }
    Some((name, behind))
}

/// The name that comes next, if a space is after it, and the text after these. Blanks before it, as a line feed behind a carriage
/// return, are passed.
#[inline(always)]
fn next_name<'a>(tokens: &mut Tokens<'a>) -> Option<(PairName, &'a [u8])>
    ensures same { tokens.new ≡ tokens.old }
    ensures name { IfSome result (λ r. IsNameAt tokens.old (pair_text r.0) r.1.now) }
{
    let text = tokens.rest();
    if let Some((name, behind)) = name_here(text) {
        return Some((name, behind));
    }
    let start = skip_blanks(text);
    tokens.move_on(0, start);
    let (name, behind) = name_here(start)?;
    Some((name, behind))
}

/// Whether a wire is set, of those that there are.
#[inline(always)]
fn is_set(set: &[bool], wire: u32) -> bool
    ensures { result ≡ true → IsSet set.now wire }
{
    let wire = wire as usize;
    wire < set.len() && set[wire]
}

/// Whether a wire is one of those that there are, and is not set.
#[inline(always)]
fn is_free(set: &[bool], wire: u32) -> bool
    ensures { result ≡ true → IsFree set.now wire }
{
    let wire = wire as usize;
    wire < set.len() && !set[wire]
}

/// Takes the line of a gate that reads two wires, if it is plain and has no fault; else nothing.
#[inline(always)]
pub fn take_line(tokens: &mut Tokens, set: &[bool]) -> Option<ArithRow>
    ensures none { IfNone result (tokens.new ≡ tokens.old) }
    ensures row { IfSome result (GivesRow set.now tokens.old tokens.new) }
    ensures within { IfSome result (IsWithin (length set.now)) }
    ensures element { IfSome result HasElement }
{
    let (name, behind) = next_name(tokens)?;
    let (a, behind) = short_number::<false>(behind)?;
    let (b, behind) = short_number::<false>(behind)?;
    let (out, behind) = short_number::<true>(behind)?;
    if !is_set(set, a) || !is_set(set, b) || !is_free(set, out) {
        return None;
    }
    tokens.move_on(4, behind);
    Some(pair_row(name, a, b, out))
}
