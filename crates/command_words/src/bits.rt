// The word of a list of bits.
ghost use Rattle.std.specs.Prelude.{◌≡◌, IfOk, string_bytes};
ghost use Rattle.std.specs.Option.{option_map};
ghost use Rattle.command_words.specs.BitWords.{bits_of, bits_word, bits_word_of};
ghost use Rattle.command_words.specs.Commands.{bits_ask};

use std::alloc::{AllocError, Global};

/// Bits as a word gives them: the bits themselves, or the name of the file that has them.
#[derive(Debug, Drop)]
pub enum BitsWord {
    Said(Vec<bool>),
    Named(String),
}

/// The bits that a word says, or the name behind `@`.
pub fn read_bits_word(alloc: Global, word: &str) -> Result<Option<BitsWord>, AllocError>
    ensures { IfOk result (λ found. option_map bits_ask found ≡ bits_word_of word.now) }
{
    if let Some(name) = word.strip_prefix('@') {
        let name = String::from_str(alloc, name)?;
        return Ok(Some(BitsWord::Named(name)));
    }
    match read_bits(alloc, word)? {
        Some(bits) => Ok(Some(BitsWord::Said(bits))),
        None => Ok(None),
    }
}

/// The bits that a word of 0 and 1 says, or `none`.
pub fn read_bits(alloc: Global, word: &str) -> Result<Option<Vec<bool>>, AllocError>
    ensures { IfOk result (λ found. option_map (λ bits. bits.items) found ≡ bits_of word.now) }
{
    if word == "none" {
        return Ok(Some(Vec::new(alloc)));
    }
    if word.is_empty() {
        return Ok(None);
    }
    let mut items = Vec::new(alloc);
    let mut rest = word.as_bytes();
    while let [byte, behind @ ..] = rest {
        match byte {
            b'0' => items.push(false)?,
            b'1' => items.push(true)?,
            _ => return Ok(None),
        }
        rest = behind;
    }
    Ok(Some(items))
}

/// The word of these bits.
pub fn write_bits(alloc: Global, bits: &[bool]) -> Result<String, AllocError>
    ensures { IfOk result (λ word. string_bytes word ≡ bits_word bits.now) }
{
    if bits.is_empty() {
        return String::from_str(alloc, "none");
    }
    let mut word = String::new(alloc);
    for bit in bits {
        word.push_str(if *bit { "1" } else { "0" })?;
    }
    Ok(word)
}
