// A text, token by token.
ghost use Rattle.std.specs.Prelude.{◌≡◌, IfSome, IfNone, true, false, [], min};
ghost use Rattle.text_tokens.specs.Words.{place_of};
ghost use Rattle.bristol_reader.specs.Words.{greatest, name_of, TakesWord};
ghost use Rattle.bristol_reader.specs.Lines.{IsGateAt, IsPairLine, IsSingleLine};

use crate::lines::{PairLine, SingleLine, heading, pair_name, single_name};
use crate::wants::Placed;
use std::marker::Model;
use text_tokens::{Next, Tokens as TextTokens, short_number, skip_blanks};

/// The name of a gate, or any other.
#[derive(Clone, Copy)]
pub enum GateName {
    And,
    Xor,
    Inv,
    Eq,
    Eqw,
    Other,
}

/// What a token says. A number above 2^32 - 1 reads as 2^32 - 1.
#[derive(Clone, Copy)]
pub enum Word {
    Number(u32),
    Name(GateName),
}

/// The gate's name that a token is.
#[tactic(auto, unfolding(crate::specs::Words::name_of))]
fn gate_name(token: &[u8]) -> GateName
    ensures { result ≡ name_of token.now }
{
    if token == b"AND".as_slice() {
        GateName::And
    } else if token == b"XOR".as_slice() {
        GateName::Xor
    } else if token == b"INV".as_slice() {
        GateName::Inv
    } else if token == b"EQ".as_slice() {
        GateName::Eq
    } else if token == b"EQW".as_slice() {
        GateName::Eqw
    } else {
        GateName::Other
    }
}

/// The number, or 2^32 - 1 if it is greater.
fn shown(number: u64) -> u32
    ensures { result ≡ min number greatest }
{
    number.min(u64::from(u32::MAX)) as u32
}

/// How many lines after a spaced one are taken for spaced ones before a plain one is looked for again.
const SPACED_LINES: u32 = 64;

/// What is left of a text after its first tokens, how many those are, and how many of its next lines are taken for spaced
/// ones.
#[derive(Drop)]
pub struct Tokens<'a> {
    tokens: TextTokens<'a>,
    spaced_lines: u32,
}

impl<'a> Model for Tokens<'a> {
    ghost use Rattle.zk_model.specs.ArithFaults.{Place};

    ghost Value = { Place };

    ghost view = { λ t. t.tokens };
}

impl<'a> Tokens<'a> {
    /// The tokens of a text.
    pub fn new(text: &'a [u8]) -> Tokens<'a>
        ensures { result ≡ place_of text.now 0 }
    {
        Tokens {
            tokens: TextTokens::new(text),
            spaced_lines: 0,
        }
    }

    /// How many tokens were taken.
    pub fn taken(&self) -> u64
        ensures { result ≡ self.now.taken }
    {
        self.tokens.taken()
    }

    /// Whether the next line is taken for a spaced one.
    #[inline(always)]
    pub fn is_spaced(&self) -> bool {
        self.spaced_lines > 0
    }

    /// Notes that a line was read as a spaced one.
    #[inline(always)]
    pub fn note_spaced(&mut self)
        ensures { self.new ≡ self.old }
    {
        if self.spaced_lines > 0 {
            self.spaced_lines -= 1;
        } else {
            self.spaced_lines = SPACED_LINES;
        }
    }

    /// Takes the next token, if there is one, and the blanks around it.
    pub fn next(&mut self) -> Option<Word>
        ensures end { IfNone result (self.old.left ≡ []) }
        ensures word { IfSome result (TakesWord self.old self.new) }
    {
        let word = match self.tokens.next() {
            Next::End => return None,
            Next::Name(name) => Word::Name(gate_name(name)),
            Next::Number(number) => Word::Number(shown(number)),
        };
        let behind = skip_blanks(self.tokens.rest());
        self.tokens.move_on(0, behind);
        Some(word)
    }

    /// Whether the gate that comes next has two inputs, and the text after its numbers of inputs and of outputs, if they
    /// are 1 or 2 and 1.
    #[inline(always)]
    pub fn heading<const SPACED: bool>(&self) -> Option<(bool, &'a [u8])>
        ensures { IfSome result (λ r. IsGateAt self.now r.0 r.1.now) }
    {
        let (is_pair, behind) = heading::<SPACED>(self.tokens.rest())?;
        Some((is_pair, behind))
    }

    /// Takes all tokens of a gate with two inputs, if its wires and its name come behind its first two; else none.
    #[inline(always)]
    pub fn pair_line<const SPACED: bool>(&mut self, behind: &'a [u8]) -> Option<PairLine>
        requires { IsGateAt self.old true behind.now }
        ensures none { IfNone result (self.new ≡ self.old) }
        ensures line { IfSome result (IsPairLine self.old self.new) }
    {
        let (a, behind) = short_number::<SPACED>(behind)?;
        let (b, behind) = short_number::<SPACED>(behind)?;
        let (out, behind) = short_number::<SPACED>(behind)?;
        let (name, behind) = pair_name::<SPACED>(behind)?;
        let first = self.tokens.taken();
        self.tokens.move_on(6, behind);
        Some(PairLine {
            name,
            a: Placed {
                number: a,
                token: first + 2,
            },
            b: Placed {
                number: b,
                token: first + 3,
            },
            out: Placed {
                number: out,
                token: first + 4,
            },
        })
    }

    /// The same of a gate with one input.
    #[inline(always)]
    pub fn single_line<const SPACED: bool>(&mut self, behind: &'a [u8]) -> Option<SingleLine>
        requires { IsGateAt self.old false behind.now }
        ensures none { IfNone result (self.new ≡ self.old) }
        ensures line { IfSome result (IsSingleLine self.old self.new) }
    {
        let (input, behind) = short_number::<SPACED>(behind)?;
        let (out, behind) = short_number::<SPACED>(behind)?;
        let (name, behind) = single_name::<SPACED>(behind)?;
        let first = self.tokens.taken();
        self.tokens.move_on(5, behind);
        Some(SingleLine {
            name,
            input: Placed {
                number: input,
                token: first + 2,
            },
            out: Placed {
                number: out,
                token: first + 3,
            },
        })
    }
}
