// The parts of a text of constraints.
ghost use Rattle.std.specs.Prelude.{◌≡◌, ◌≤◌, IfOk, IfErr, length};
ghost use Rattle.poly_model.specs.declared.limits.TheConstants.{MAX_VARIABLES};
ghost use Rattle.poly_text.specs.TextFaults.{polynomial_at, term_at};
ghost use Rattle.poly_text.specs.Steps.{Gives, Lacks, Refuses};

use crate::fault::{PolyFault, ReadError};
use crate::wants::{coefficient, count, factor};
use poly_model::{MAX_FACTORS, MAX_TERMS, Polynomial, Term};
use std::alloc::Global;
use text_tokens::Tokens;

/// Takes the tokens of a term.
fn read_term(tokens: &mut Tokens, variables: u32) -> Result<Term, PolyFault>
    requires { variables ≤ MAX_VARIABLES }
    ensures term { IfOk result (Gives (term_at variables) tokens.old tokens.new) }
    ensures fault { IfErr result (Refuses (term_at variables) tokens.old) }
{
    let coefficient = coefficient(tokens)?;
    let count = count(tokens, MAX_FACTORS as u32)?;
    let mut term = Term::new(coefficient);
    'factors: for _ in 0..count {
        let number = factor(tokens, variables)?;
        term.push(number);
    }
    Ok(term)
}

/// Takes the tokens of a constraint.
pub fn read_polynomial(
    alloc: Global,
    tokens: &mut Tokens,
    variables: u32,
) -> Result<Polynomial, ReadError>
    requires { variables ≤ MAX_VARIABLES }
    ensures polynomial { IfOk result (Gives (polynomial_at variables) tokens.old tokens.new) }
    ensures cause { IfErr result (Lacks (polynomial_at variables) tokens.old) }
{
    let count = count(tokens, MAX_TERMS)?;
    let mut terms = Vec::with_capacity(alloc, count as usize)?;
    'terms: for _ in 0..count {
        let term = read_term(tokens, variables)?;
        terms.push(term)?;
    }
    Ok(Polynomial::new(terms))
}
