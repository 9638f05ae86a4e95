// A text, token by token.
ghost use Rattle.std.specs.Prelude.{◌≡◌, ◌≤◌, ◌+◌, ◌*◌, ◌-◌, ◌<◌, ◌^◌, true, length, min};
ghost use Rattle.zk_model.specs.Bristol.{is_digit, lexeme};
ghost use Rattle.text_tokens.specs.Words.{greatest, left_of, place_of, word_of, IsNext};
ghost use Rattle.text_tokens.specs.Scans.{AreScanned, IsScanned};

use crate::blanks::{is_blank, skip_blanks};
use crate::numbers::short_number;
use std::marker::Model;

/// What the next token is. A name comes with its bytes; a number above 2^64 - 1 reads as 2^64 - 1.
#[derive(Clone, Copy)]
pub enum Next<'a> {
    End,
    Name(&'a [u8]),
    Number(u64),
}

/// What a token says: a number, of which those above 2^64 - 1 read as 2^64 - 1, or a name.
#[derive(Clone, Copy)]
enum Word {
    Number(u64),
    Name,
}

/// An ASCII digit.
fn is_digit(byte: u8) -> bool
    ensures { result ≡ is_digit byte }
{
    b'0' <= byte && byte <= b'9'
}

/// The number with one digit more, or 2^64 - 1 if it is greater.
fn with_digit(value: u64, digit: u8) -> u64
    requires { 48 ≤ digit }
    ensures { result ≡ min (10 * value + (digit - 48)) greatest }
{
    (value as u128 * 10 + (digit - b'0') as u128).min(u64::MAX as u128) as u64
}

/// What a token says, of which all bytes are digits or not, with the number that they say or 2^64 - 1 if it is greater.
#[tactic(auto, unfolding(crate::specs::Words::word_of))]
fn read_word(token: &[u8], is_number: bool, value: u64) -> Word
    requires { AreScanned token.now is_number value }
    ensures { result ≡ word_of (lexeme token.now) }
{
    let _token = token;
    if is_number {
        Word::Number(value)
    } else {
        Word::Name
    }
}

/// The first token of a text: how many bytes it has, and what it says.
#[derive(Clone, Copy)]
struct Scanned {
    length: usize,
    word: Word,
}

/// The first token of a text that begins with one.
fn scan(text: &[u8]) -> Scanned
    ensures { IsScanned text.now result }
{
    let mut is_number = true;
    let mut value = 0;
    for (i, byte) in text.iter().enumerate() {
        if is_digit(*byte) {
            value = with_digit(value, *byte);
        } else if is_blank(*byte) {
            let word = read_word(&text[..i], is_number, value);
            return Scanned { length: i, word };
        } else {
            is_number = false;
        }
    }
    let word = read_word(text, is_number, value);
    Scanned {
        length: text.len(),
        word,
    }
}

/// What is left of a text after its first tokens, and how many those are.
#[derive(Drop)]
pub struct Tokens<'a> {
    rest: &'a [u8],
    taken: u64,
}

impl<'a> Model for Tokens<'a> {
    ghost use Rattle.std.specs.Prelude.{◌+◌, ◌<◌, ◌^◌, length};
    ghost use Rattle.zk_model.specs.ArithFaults.{Place};
    ghost use Rattle.text_tokens.specs.Words.{place_of};

    ghost Value = { Place };

    ghost view = { λ t. place_of t.rest.now t.taken };

    ghost invariant = { λ t. t.taken + length t.rest.now < 2 ^ 64 };
}

impl<'a> Tokens<'a> {
    /// The tokens of a text.
    pub fn new(text: &'a [u8]) -> Tokens<'a>
        ensures { result ≡ place_of text.now 0 }
    {
        Tokens {
            rest: text,
            taken: 0,
        }
    }

    /// How many tokens were taken.
    pub fn taken(&self) -> u64
        ensures { result ≡ self.now.taken }
    {
        self.taken
    }

    /// What is left of the text.
    #[inline(always)]
    pub fn rest(&self) -> &'a [u8]
        ensures left { self.now.left ≡ left_of result.now }
        ensures fits { self.now.taken + length result.now < 2 ^ 64 }
    {
        self.rest
    }

    /// Moves on, past so many tokens that the caller has read itself, to what is left of the text behind them.
    #[inline(always)]
    pub fn move_on(&mut self, tokens: u64, behind: &'a [u8])
        requires { self.old.taken + tokens + length behind.now < 2 ^ 64 }
        ensures { self.new ≡ place_of behind.now (self.old.taken + tokens) }
    {
        self.rest = behind;
        self.taken += tokens;
    }

    /// Takes the next token, if there is one.
    #[inline(always)]
    pub fn next(&mut self) -> Next<'a>
        ensures { IsNext self.old self.new result }
    {
        if let Some((number, behind)) = short_number::<true>(self.rest) {
            self.rest = behind;
            self.taken += 1;
            return Next::Number(u64::from(number));
        }
        self.scan_next()
    }

    /// The same, byte by byte.
    fn scan_next(&mut self) -> Next<'a>
        ensures { IsNext self.old self.new result }
    {
        let start = skip_blanks(self.rest);
        if start.is_empty() {
            return Next::End;
        }
        let scanned = scan(start);
        let (token, behind) = start.split_at(scanned.length);
        self.rest = behind;
        self.taken += 1;
        match scanned.word {
            Word::Number(number) => Next::Number(number),
            Word::Name => Next::Name(token),
        }
    }
}
