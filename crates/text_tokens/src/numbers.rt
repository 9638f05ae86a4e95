// Short numbers, which are read at once. In a plain text one space ends each number, as in most; in a spaced one any blanks stand
// before and after it.
ghost use Rattle.std.specs.Prelude.{◌≡◌, ◌+◌, ◌<◌, ◌≤◌, true, false, IfSome, length};
ghost use Rattle.zk_model.specs.Bristol.{is_blank, tokens};
ghost use Rattle.text_tokens.specs.Words.{BeginsToken};
ghost use Rattle.text_tokens.specs.Scans.{StartsNumber};

use crate::blanks::{is_blank, skip_blanks};

/// How far a byte is above the digit 0, which is below 10 at digits alone.
#[inline(always)]
fn digit_value(byte: u8) -> u32
    ensures { result < 10 → byte ≡ result + 48 }
{
    u32::from(byte).wrapping_sub(u32::from(b'0'))
}

/// Whether a byte ends a number before it: a space, or any blank of a text that is spaced.
#[inline(always)]
fn ends_number<const SPACED: bool>(byte: u8) -> bool
    ensures { result ≡ true → is_blank byte ≡ true }
{
    byte == b' ' || (SPACED && is_blank(byte))
}

/// Where the next token of a text begins: after blanks, if it is spaced.
#[inline(always)]
pub fn next_token<const SPACED: bool>(text: &[u8]) -> &[u8]
    ensures within { length result.now ≤ length text.now }
    ensures begins { SPACED ≡ true → BeginsToken result.now }
    ensures plain { SPACED ≡ false → result.now ≡ text.now }
    ensures tokens_kept { tokens result.now ≡ tokens text.now }
{
    if SPACED {
        return skip_blanks(text);
    }
    text
}

/// The number that a text begins with, if it has at most eight digits and its end after it, and the text after that.
#[inline(always)]
fn number_here<const SPACED: bool>(text: &[u8]) -> Option<(u32, &[u8])>
    ensures { IfSome result (λ r. StartsNumber text.now r.0 r.1.now) }
{
    let front = text.first_chunk::<9>()?;
    let mut value = 0;
    for (i, byte) in front.iter().enumerate() {
        let digit = digit_value(*byte);
        if digit < 10 {
            value = value * 10 + digit;
        } else if i > 0 && ends_number::<SPACED>(*byte) {
            return Some((value, &text[i + 1..]));
        } else {
            return None;
        }
    }
    None
}

/// The next number, if it has at most eight digits and a blank after it, and the text after that blank. None says nothing of the
/// token: a number at the end of a text is none either.
#[tactic(auto, using(crate::proofs::Shorts::number_after))]
#[inline(always)]
pub fn short_number<const SPACED: bool>(text: &[u8]) -> Option<(u32, &[u8])>
    ensures { IfSome result (λ r. StartsNumber text.now r.0 r.1.now) }
{
    let start = next_token::<SPACED>(text);
    let (number, behind) = number_here::<SPACED>(start)?;
    Some((number, behind))
}
