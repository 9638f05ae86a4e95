// What the tests are about: small elements, and circuits and programs of texts.
ghost use Rattle.std.specs.Prelude.{◌≡◌};
ghost use Rattle.zk_model.specs.Field.{from_word};

use bristol_reader::{Circuit, read};
use field_program::FieldProgram;
use gate_translate::translate;
use mersenne_field::{Fe, Pair};
use std::alloc::Global;
use std::test::Fail;

/// The element of a small number.
pub fn small(number: u64) -> Fe
    ensures { result ≡ from_word number }
{
    Fe::from_word(number)
}

/// The pair of two small numbers.
pub fn small_pair(x: u64, m: u64) -> Pair
    ensures { result ≡ record { x = from_word x; m = from_word m } }
{
    Pair {
        x: small(x),
        m: small(m),
    }
}

/// The circuit of a text.
fn circuit_of(alloc: Global, text: &[u8]) -> Result<Circuit, Fail> {
    let Ok(circuit) = read(alloc, text) else {
        return Err(Fail::new("no circuit"));
    };
    Ok(circuit)
}

/// The program of a circuit's text.
pub fn program_of(alloc: Global, text: &[u8]) -> Result<FieldProgram, Fail> {
    let circuit = circuit_of(alloc, text)?;
    let program = translate(alloc, circuit)?;
    Ok(program)
}
