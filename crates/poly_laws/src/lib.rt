//! Laws of the definitions of constraints and of their check (Yang, Sarkar, Weng and Wang, QuickSilver, ACM CCS 2021, the form for
//! sets of polynomials): each function takes nothing, does nothing, and ensures a statement.
//!
//! `part_expands` and `left_expands` say what the keys make of a prover's values, `check_shows` what a check that holds shows of them,
//! and `honest_sums_hold` that an honest prover's sums meet the check.
//!
//!     check_shows(); // from here on its statement is a premise
#![tactic(auto)]

ghost use Rattle.poly_laws.specs.Laws.{PartExpands, LeftExpands, CheckShows, HonestSumsHold};

/// Over keys that fit, what the verifier has of a constraint is a polynomial in the key, whose last coefficient is what the
/// constraint is at the prover's values.
pub fn part_expands()
    ensures { PartExpands }
{}

/// The left side of the check is what an honest prover's sums give, and the errors at the challenge times the key to the
/// degree.
pub fn left_expands()
    ensures { LeftExpands }
{}

/// Where the check holds, whatever was sent, the values meet every constraint, or the challenge is a root of the errors,
/// which are not all 0, or the key is a root of a polynomial that is not zero, of the constraints' degree at most.
pub fn check_shows()
    ensures { CheckShows }
{}

/// Where the values meet every constraint, what an honest prover sends meets the check, whatever the challenge and the key.
pub fn honest_sums_hold()
    ensures { HonestSumsHold }
{}
