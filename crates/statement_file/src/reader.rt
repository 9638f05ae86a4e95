// Reads a file of statements.
ghost use Rattle.std.specs.Prelude.{◌≡◌, ◌==◌, ◌∷◌, ◌++◌, [], ◌<◌, ◌≤◌, None, IfOk, IfErr, IfSome, IfNone, OnOk, length, position, take};
ghost use Rattle.zk_model.specs.declared.limits.TheConstants.{MAX_STATEMENTS};
ghost use Rattle.statement_file.specs.declared.fault.StatementError.TheVariants as error;
ghost use Rattle.statement_file.specs.Claims.{NamesClaims, SaysNoClaims, claim_in, claim_of_line, lines_of, words_of};

use crate::claim::NamedClaim;
use crate::fault::{StatementError, StatementFault};
use command_words::read_bits;
use std::alloc::{AllocError, AllocFailed, Global};

/// How many lines name claims that are kept: `MAX_STATEMENTS` of the limits.
const MOST_CLAIMS: usize = 256;

impl<T: Drop> From<AllocFailed<T>> for StatementError {
    ghost from_gives = { λ _ e. e ≡ error.NoMemory };

    fn from(_: AllocFailed<T>) -> Self {
        StatementError::NoMemory
    }
}

/// Where the first line feed stands.
fn line_end(text: &[u8]) -> Option<usize>
    ensures { result ≡ position (λ c. c == 10) text.now }
{
    text.iter().position(|byte| *byte == b'\n')
}

/// The first line of a text that is not empty, without its line feed, and what is behind it.
fn first_line(text: &[u8]) -> (&[u8], &[u8])
    requires { 0 < length text.now }
    ensures lines { lines_of text.now ≡ result.0.now ∷ lines_of result.1.now }
    ensures shorter { length result.1.now < length text.now }
{
    match line_end(text) {
        Some(end) => (&text[..end], &text[end + 1..]),
        None => (text, &[]),
    }
}

/// The words of a line, where there are three.
fn three_words(line: &str) -> Option<(&str, &str, &str)>
    ensures words { IfSome result (λ words.
        words_of line.now ≡ words.0.now ∷ words.1.now ∷ words.2.now ∷ []) }
    ensures other { IfNone result (claim_in (words_of line.now) ≡ None) }
{
    let (circuit, rest) = line.split_once(' ')?;
    let (public, outputs) = rest.split_once(' ')?;
    match outputs.split_once(' ') {
        None => Some((circuit, public, outputs)),
        Some(_) => None,
    }
}

/// The claim that a line names, if it names one.
fn read_line(alloc: Global, line: &[u8]) -> Result<Option<NamedClaim>, AllocError>
    ensures { IfOk result (λ found. found ≡ claim_of_line line.now) }
{
    let Ok(text) = str::from_utf8(line) else {
        return Ok(None);
    };
    let Some((circuit, public, outputs)) = three_words(text) else {
        return Ok(None);
    };
    if circuit.is_empty() {
        return Ok(None);
    }
    let Some(public) = read_bits(alloc, public)? else {
        return Ok(None);
    };
    let Some(outputs) = read_bits(alloc, outputs)? else {
        return Ok(None);
    };
    let circuit = String::from_str(alloc, circuit)?;
    Ok(Some(NamedClaim::new(circuit, public, outputs)))
}

/// Adds a claim, where fewer than 256 are kept.
fn keep(claims: &mut Vec<NamedClaim>, claim: NamedClaim) -> Result<(), AllocError>
    requires { length claims.old.items ≤ MAX_STATEMENTS }
    ensures { OnOk result (claims.new.items
        ≡ take MAX_STATEMENTS (claims.old.items ++ claim ∷ [])) }
{
    if claims.len() < MOST_CLAIMS {
        claims.push(claim)?;
    }
    Ok(())
}

/// The claims that the lines of a file of statements name, in order: 1 to 256.
///
/// `StatementFault::BadLine` where a line names none, and of the first such line; `StatementFault::Count` where each line
/// names one, but there are none or more than 256; `StatementError::NoMemory` where memory is missing.
pub fn read_statements(alloc: Global, text: &[u8]) -> Result<Vec<NamedClaim>, StatementError>
    ensures claims { IfOk result (λ claims. NamesClaims text.now claims.items) }
    ensures fault { IfErr result (SaysNoClaims text.now) }
{
    let mut claims = Vec::new(alloc);
    let mut count = 0;
    let mut rest = text;
    while !rest.is_empty() {
        let (line, behind) = first_line(rest);
        let Some(claim) = read_line(alloc, line)? else {
            return Err(StatementError::Fault(StatementFault::BadLine { line: count }));
        };
        keep(&mut claims, claim)?;
        count += 1;
        rest = behind;
    }
    if count == 0 || count > MOST_CLAIMS as u64 {
        return Err(StatementError::Fault(StatementFault::Count { lines: count }));
    }
    Ok(claims)
}
