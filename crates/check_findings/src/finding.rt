// What one section of products, or one opened wire, shows.
ghost use Rattle.std.specs.Prelude.{◌≡◌, ◌↔◌, ◌∷◌, ℕ, map, IsNone, IfOk, IfSome};
ghost use Rattle.zk_model.specs.Field.{IsElement};
ghost use Rattle.zk_model.specs.Polynomial.{IsZero};
ghost use Rattle.zk_model.specs.Check.{error_polynomial, key_polynomial, opening_polynomial};
ghost use Rattle.check_findings.specs.Findings.{SectionMeets, OpeningMeets, ShowsSection, ShowsOpening};

use mersenne_field::{Fe, Pair};
use mult_check::section_sums;
use poly_horner::{horner, is_zero_poly};
use std::alloc::{AllocError, Global};
use wire_auth::Triple;

/// What the prover's file and the log of a session show. A polynomial is the list of its coefficients, the constant first.
#[derive(Debug, PartialEq, Eq, Drop)]
pub enum Finding {
    /// Every product is right and every opened wire as claimed: these are the private inputs.
    Inputs(Vec<Fe>),
    /// The errors of the first section with a wrong product, of which the challenge is a root.
    ChallengeRoot { section: u32, polynomial: Vec<Fe> },
    /// A polynomial of which the verifier's key is a root.
    KeyRoot { polynomial: Vec<Fe> },
    /// The session was not accepted.
    NotAccepted,
}

/// The errors of products as a polynomial: 0, and then for each product how far it is from that of its factors.
fn errors_of(alloc: Global, products: &[Triple]) -> Result<Vec<Fe>, AllocError>
    ensures { IfOk result (λ errors. errors.items ≡ error_polynomial products.now) }
{
    let mut errors = Vec::with_capacity(alloc, products.len() + 1)?;
    errors.push(Fe::ZERO)?;
    for triple in products {
        let Triple { a, b, c } = *triple;
        errors.push(a.x * b.x - c.x)?;
    }
    Ok(errors)
}

/// What a section shows whose sums U and V met the check with some key: nothing where every product is that of its factors.
/// Else the challenge is a root of the errors, or the key is one of a polynomial of three coefficients: what U and V should
/// be less what they are, and the errors' value at the challenge (Yang, Sarkar, Weng and Wang, QuickSilver, ACM CCS 2021).
/// The section of a root at the challenge is 0.
///
/// # Errors
///
/// Only where memory runs out.
pub fn section_finding(
    alloc: Global,
    products: &[Triple],
    mask: Pair,
    challenge: Fe,
    u: Fe,
    v: Fe,
) -> Result<Option<Finding>, AllocError>
    requires met { (key : ℕ) × IsElement key × SectionMeets challenge products.now mask (u, v) key }
    ensures none { IfOk result (λ shown. IsNone shown ↔ IsZero (error_polynomial products.now)) }
    ensures some { IfOk result (λ shown. IfSome shown (ShowsSection challenge products.now mask (u, v))) }
{
    let errors = errors_of(alloc, products)?;
    if is_zero_poly(&errors) {
        return Ok(None);
    }
    let value = horner(&errors, challenge);
    if value == Fe::ZERO {
        return Ok(Some(Finding::ChallengeRoot {
            section: 0,
            polynomial: errors,
        }));
    }
    let (constant, linear) = section_sums(products, challenge, mask);
    let polynomial = Vec::from_array(alloc, [constant - u, linear - v, value])?;
    Ok(Some(Finding::KeyRoot { polynomial }))
}

/// What an opened wire shows whose MAC met the check with some key: nothing where its value is the claimed one. Else the key
/// is a root of a polynomial of two coefficients: the wire's MAC less what was sent, and its value less the claim (Weng, Yang,
/// Katz and Wang, Wolverine, IEEE S&P 2021).
///
/// # Errors
///
/// Only where memory runs out.
pub fn opening_finding(
    alloc: Global,
    output: Pair,
    mac: Fe,
    claimed: Fe,
) -> Result<Option<Finding>, AllocError>
    requires met { (key : ℕ) × IsElement key × OpeningMeets output mac claimed key }
    ensures none { IfOk result (λ shown. IsNone shown ↔ output.x ≡ claimed) }
    ensures some { IfOk result (λ shown. IfSome shown (ShowsOpening output mac claimed)) }
{
    let _element = output.x.value();
    let _claim = claimed.value();
    if output.x == claimed {
        return Ok(None);
    }
    let polynomial = Vec::from_array(alloc, [output.m - mac, output.x - claimed])?;
    Ok(Some(Finding::KeyRoot { polynomial }))
}
