// The next token, where a number or a name of a kind is wanted.
ghost use Rattle.std.specs.Prelude.{◌≡◌, ◌≤◌, ◌^◌, IfOk, IfErr, Some, [], ◌∷◌};
ghost use Rattle.zk_model.specs.Bristol.{number, name};
ghost use Rattle.bristol_reader.specs.TextFaults.{a_count, a_size, input_number, output_number};
ghost use Rattle.bristol_reader.specs.TextFaults.{a_wire, a_name, no_token};
ghost use Rattle.text_tokens.specs.Words.{Takes};
ghost use Rattle.bristol_reader.specs.Wants.{inputs_of, pair_of, pair_text, single_of, single_text};
ghost use Rattle.bristol_reader.specs.Wants.{next_fault, TakesNumber};
ghost use Rattle.zk_model.specs.declared.limits.TheConstants.{MAX_WIRES};

use crate::tokens::{GateName, Tokens, Word};
use zk_model::ReadFault;

/// The names of gates with two inputs.
#[derive(Clone, Copy)]
pub enum BinaryGate {
    And,
    Xor,
}

/// The names of gates with one input.
#[derive(Clone, Copy)]
pub enum UnaryGate {
    Inv,
    Eq,
    Eqw,
}

/// The gate with two inputs that a word names.
fn pair_of(word: Word) -> Option<BinaryGate>
    ensures { result ≡ pair_of word }
{
    match word {
        Word::Name(GateName::And) => Some(BinaryGate::And),
        Word::Name(GateName::Xor) => Some(BinaryGate::Xor),
        _ => None,
    }
}

/// The gate with one input that a word names.
fn single_of(word: Word) -> Option<UnaryGate>
    ensures { result ≡ single_of word }
{
    match word {
        Word::Name(GateName::Inv) => Some(UnaryGate::Inv),
        Word::Name(GateName::Eq) => Some(UnaryGate::Eq),
        Word::Name(GateName::Eqw) => Some(UnaryGate::Eqw),
        _ => None,
    }
}

/// A number, and the number of the token that says it.
#[derive(Clone, Copy)]
pub struct Placed {
    pub number: u32,
    pub token: u64,
}

impl<'a> Tokens<'a> {
    /// A number.
    pub fn number(&mut self) -> Result<Placed, ReadFault>
        ensures number { IfOk result (TakesNumber self.old self.new) }
        ensures fault { IfErr result (λ fault. next_fault a_wire self.old ≡ Some fault) }
    {
        let token = self.taken();
        let Some(word) = self.next() else {
            return Err(ReadFault::ShortText { token });
        };
        let Word::Number(number) = word else {
            return Err(ReadFault::BadNumber { token });
        };
        Ok(Placed { number, token })
    }

    /// A number up to the limit.
    pub fn count(&mut self, limit: u32) -> Result<u32, ReadFault>
        requires { limit ≤ MAX_WIRES }
        ensures within { IfOk result (λ n. n ≤ limit) }
        ensures number { IfOk result (λ n. Takes (number n ∷ []) self.old self.new) }
        ensures fault { IfErr result (λ fault. next_fault (a_count limit) self.old ≡ Some fault) }
    {
        let Placed { number, token } = self.number()?;
        if number > limit {
            return Err(ReadFault::TooLarge { token });
        }
        Ok(number)
    }

    /// A size of a value, of at most the wires that are left.
    pub fn size(&mut self, left: u32) -> Result<u32, ReadFault>
        requires { left ≤ MAX_WIRES }
        ensures within { IfOk result (λ n. n ≤ left) }
        ensures number { IfOk result (λ n. Takes (number n ∷ []) self.old self.new) }
        ensures fault { IfErr result (λ fault. next_fault (a_size left) self.old ≡ Some fault) }
    {
        let Placed { number, token } = self.number()?;
        if number > left {
            return Err(ReadFault::WireRange { token });
        }
        Ok(number)
    }

    /// A gate's number of inputs, and whether it is 2.
    pub fn two_inputs(&mut self) -> Result<bool, ReadFault>
        ensures number { IfOk result (λ two. Takes (number (inputs_of two) ∷ []) self.old self.new) }
        ensures fault { IfErr result (λ fault. next_fault input_number self.old ≡ Some fault) }
    {
        let Placed { number, token } = self.number()?;
        match number {
            1 => Ok(false),
            2 => Ok(true),
            _ => Err(ReadFault::BadGate { token }),
        }
    }

    /// A gate's number of outputs.
    pub fn one_output(&mut self) -> Result<(), ReadFault>
        ensures number { IfOk result (λ _. Takes (number 1 ∷ []) self.old self.new) }
        ensures fault { IfErr result (λ fault. next_fault output_number self.old ≡ Some fault) }
    {
        let Placed { number, token } = self.number()?;
        if number != 1 {
            return Err(ReadFault::BadGate { token });
        }
        Ok(())
    }

    /// The name of a gate with two inputs.
    pub fn pair(&mut self) -> Result<BinaryGate, ReadFault>
        ensures name { IfOk result (λ pair. Takes (name (pair_text pair) ∷ []) self.old self.new) }
        ensures fault { IfErr result (λ fault. next_fault (a_name 2) self.old ≡ Some fault) }
    {
        let token = self.taken();
        let Some(word) = self.next() else {
            return Err(ReadFault::ShortText { token });
        };
        let Some(pair) = pair_of(word) else {
            return Err(ReadFault::BadGate { token });
        };
        Ok(pair)
    }

    /// The name of a gate with one input.
    pub fn single(&mut self) -> Result<UnaryGate, ReadFault>
        ensures name { IfOk result (λ single. Takes (name (single_text single) ∷ []) self.old self.new) }
        ensures fault { IfErr result (λ fault. next_fault (a_name 1) self.old ≡ Some fault) }
    {
        let token = self.taken();
        let Some(word) = self.next() else {
            return Err(ReadFault::ShortText { token });
        };
        let Some(single) = single_of(word) else {
            return Err(ReadFault::BadGate { token });
        };
        Ok(single)
    }

    /// The end of the text.
    pub fn end(&mut self) -> Result<(), ReadFault>
        ensures none { IfOk result (λ _. self.old.left ≡ []) }
        ensures fault { IfErr result (λ fault. next_fault no_token self.old ≡ Some fault) }
    {
        let token = self.taken();
        match self.next() {
            None => Ok(()),
            Some(_) => Err(ReadFault::ExtraText { token }),
        }
    }
}
