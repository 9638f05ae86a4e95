// The printed form of elements.
ghost use Rattle.std.specs.Prelude.{◌≡◌, IfOk, string_bytes};
ghost use Rattle.element_file.specs.Elements.{elements_word, spaced};

use mersenne_field::Fe;
use std::alloc::{AllocError, Global};

/// Elements in decimal, each behind a space.
fn write_spaced(alloc: Global, elements: &[Fe]) -> Result<String, AllocError>
    ensures { IfOk result (λ words. string_bytes words ≡ spaced elements.now) }
{
    let mut words = String::new(alloc);
    for element in elements {
        let value = element.value();
        let word = format!(in alloc; " {value}")?;
        words.push_str(&word)?;
    }
    Ok(words)
}

/// These elements in decimal, with one space between, or `none` where there are none.
pub fn write_elements(alloc: Global, elements: &[Fe]) -> Result<String, AllocError>
    ensures { IfOk result (λ words. string_bytes words ≡ elements_word elements.now) }
{
    let [first, rest @ ..] = elements else {
        return String::from_str(alloc, "none");
    };
    let value = first.value();
    let words = write_spaced(alloc, rest)?;
    Ok(format!(in alloc; "{value}{words}")?)
}
