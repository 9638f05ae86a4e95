// What both ends of a session have: a circuit, bits, claimed outputs and files.
ghost use Rattle.std.specs.Prelude.{◌≡◌, ◌≤◌, length, IfOk};
ghost use Rattle.zk_model.specs.Files.{AreParams};

use crate::scenario::{Dealing, Dealt, Scenario};
use anyhow::{Error, Result};
use bool_eval::eval;
use bristol_reader::Circuit;
use command_words::read_bits;
use std::alloc::{AllocError, Global};
use zk_model::{Kind, MAX_BASE, MAX_DEALT_UNITS, MAX_HEIGHT, MAX_TREES, Params};

/// These bits over and over, so many in all; none where there are none.
fn repeated(alloc: Global, bits: &[bool], count: usize) -> Result<Vec<bool>, AllocError> {
    let mut all = Vec::new(alloc);
    if bits.is_empty() {
        return Ok(all);
    }
    for place in 0..count {
        all.push(bits[place % bits.len()])?;
    }
    Ok(all)
}

/// The bits of a word.
fn word_bits(alloc: Global, word: &str) -> Result<Vec<bool>> {
    match read_bits(alloc, word)? {
        Some(bits) => Ok(bits),
        None => Err(Error::msg("no bits")),
    }
}

/// The bits of a circuit's inputs, and how many of the first are public.
#[derive(Drop)]
pub struct InputBits {
    pub all: Vec<bool>,
    pub public: usize,
}

/// The bits of a circuit's inputs: those of the word over and over.
pub fn input_bits(alloc: Global, circuit: &Circuit, scenario: &Scenario<'_>) -> Result<InputBits>
    ensures whole { IfOk result (λ bits. length bits.all.items ≡ circuit.now.inputs) }
    ensures few { IfOk result (λ bits. bits.public ≤ circuit.now.inputs) }
{
    let public = scenario.public;
    let bits = word_bits(alloc, scenario.bits)?;
    let all = repeated(alloc, &bits, circuit.inputs())?;
    if all.len() != circuit.inputs() || public > all.len() {
        return Err(Error::msg("another number of bits"));
    }
    Ok(InputBits { all, public })
}

/// The claimed outputs: those of the word, or what the circuit gives at the bits.
pub fn claimed_outputs(
    alloc: Global,
    circuit: &Circuit,
    word: Option<&str>,
    bits: &[bool],
) -> Result<Vec<bool>>
    ensures { IfOk result (λ outputs. length outputs.items ≡ circuit.now.outputs) }
{
    let Some(word) = word else {
        let outputs = eval(alloc, circuit, bits)?;
        return Ok(outputs);
    };
    let outputs = word_bits(alloc, word)?;
    if outputs.len() != circuit.outputs() {
        return Err(Error::msg("another number of outputs"));
    }
    Ok(outputs)
}

/// What files are dealt for.
pub fn params_of(dealt: Dealt) -> Result<Params>
    ensures { IfOk result AreParams }
{
    let total = dealt.units;
    if total < 1 || total > MAX_DEALT_UNITS {
        return Err(Error::msg("no number of units"));
    }
    match dealt.dealing {
        Dealing::Direct => Ok(Params {
            kind: Kind::Direct,
            height: 0,
            trees: 0,
            base: 0,
            total,
        }),
        Dealing::Extended {
            trees,
            height,
            base,
        } => {
            if trees < 1 || trees > MAX_TREES || height < 1 || height > MAX_HEIGHT {
                return Err(Error::msg("no trees"));
            }
            if base < 10 || base > MAX_BASE {
                return Err(Error::msg("no base"));
            }
            Ok(Params {
                kind: Kind::Extended,
                height,
                trees,
                base,
                total,
            })
        }
    }
}
