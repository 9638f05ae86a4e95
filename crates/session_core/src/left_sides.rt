// What a verifier has of a session before the prover's sums and openings come, and what it finds once they are there.
ghost use Rattle.std.specs.Prelude.{◌≡◌, ◌<◌, ◌^◌, length};
ghost use Rattle.zk_model.specs.Check.{ProductCheck};
ghost use Rattle.wire_auth.specs.Sides.{VerifierSide};
ghost use Rattle.mult_check.specs.Checks.{all_left_sides, opened_keys, opening_check};
ghost use Rattle.session_core.specs.Judgements.{Judges};

use crate::judgement::Judgement;
use mersenne_field::Fe;
use mult_check::{check_left_sides, check_opened_keys};

/// What a verifier has of a session before the prover's sums and openings come: the left side of the equation of each section, and the key
/// of each opened wire, which is the left side of its equation.
#[derive(Debug, Drop)]
pub struct LeftSides {
    pub(crate) sections: Vec<Fe>,
    pub(crate) opened: Vec<Fe>,
}

/// What the checks of all sections and of all opened wires say.
pub(crate) fn judgement_from(
    left_sides: &LeftSides,
    key: Fe,
    sums: &[(Fe, Fe)],
    openings: &[Fe],
    claims: &[Fe],
) -> Judgement
    requires sums { length sums.now ≡ length left_sides.now.sections.items }
    requires openings { length openings.now ≡ length left_sides.now.opened.items }
    requires claims { length claims.now ≡ length left_sides.now.opened.items }
    requires few_sections { length left_sides.now.sections.items < 2 ^ 32 }
    requires few_opened { length left_sides.now.opened.items < 2 ^ 32 }
    ensures { (side : VerifierSide) (check : ProductCheck)
        → left_sides.now.sections.items ≡ all_left_sides check → check.key ≡ key → check.sums ≡ sums.now
        → left_sides.now.opened.items ≡ opened_keys side
        → Judges check (opening_check side key openings.now claims.now) result }
{
    if let Err(differs) = check_left_sides(&left_sides.sections, key, sums) {
        return Judgement::of_section(differs);
    }
    match check_opened_keys(&left_sides.opened, key, openings, claims) {
        Err(differs) => Judgement::of_opening(differs),
        Ok(()) => Judgement::Accepted,
    }
}
