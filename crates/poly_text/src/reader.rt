// A text of constraints, read.
ghost use Rattle.std.specs.Prelude.{◌≡◌, Ok, IfOk, IfErr};
ghost use Rattle.poly_text.specs.TextFaults.{judged};
ghost use Rattle.poly_text.specs.Reads.{AreOnlyConstraints, ReadCause};
ghost use Rattle.poly_text.specs.Steps.{TextCause};

use crate::fault::ReadError;
use crate::laws::texts_are_exact;
use crate::parts::read_polynomial;
use crate::wants::{count, end};
use poly_model::{MAX_CONSTRAINTS, MAX_VARIABLES, Polys};
use std::alloc::Global;
use text_tokens::Tokens;

/// Reads constraints: the numbers of values and of constraints, and then each constraint. A constraint is its number of terms, and
/// then each term; a term is its coefficient, below 2^61 - 1, its number of factors, and then each factor, the number of a value. Values
/// are numbered from 0, and one that stands twice is squared. Tokens stand between blanks, however many: spaces, tabs, carriage returns
/// and line feeds.
///
/// # Errors
///
/// `Fault` where the text is that of no constraints of at most 65,536 values, 65,536 constraints, 4,096 terms of each and 8 factors of a
/// term, with the text's first fault: that of the first token that is not right where it stands. `NoMemory` where memory runs out.
pub fn read(alloc: Global, text: &[u8]) -> Result<Polys, ReadError>
    ensures found { IfOk result (AreOnlyConstraints text.now) }
    ensures cause { IfErr result (ReadCause text.now) }
{
    texts_are_exact();
    read_text(alloc, text)
}

/// The constraints that the text says, or its first fault.
fn read_text(alloc: Global, text: &[u8]) -> Result<Polys, ReadError>
    ensures found { IfOk result (λ polys. judged text.now ≡ Ok polys) }
    ensures cause { IfErr result (TextCause text.now) }
{
    let mut tokens = Tokens::new(text);
    let variables = count(&mut tokens, MAX_VARIABLES)?;
    let constraints = count(&mut tokens, MAX_CONSTRAINTS)?;
    let mut polys = Polys::new(alloc, variables);
    'constraints: for _ in 0..constraints {
        let polynomial = read_polynomial(alloc, &mut tokens, variables)?;
        polys.push(polynomial)?;
    }
    end(&mut tokens)?;
    Ok(polys)
}
