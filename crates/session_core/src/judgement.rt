// What a verifier finds of a whole session.
ghost use Rattle.std.specs.Prelude.{◌≡◌};
ghost use Rattle.session_core.specs.Judgements.{verdict_in};
ghost use Rattle.session_core.specs.declared.judgement.Judgement.TheVariants as judgement;

use mersenne_field::Fe;
use mult_check::{Differs, OpeningDiffers};
use zk_model::Verdict;

/// What a verifier finds: that every check holds; or the first section whose sums fail, or else the first opened wire whose
/// MAC fails, with both sides of its equation.
#[derive(Clone, Copy, Debug, PartialEq, Eq)]
pub enum Judgement {
    Accepted,
    RejectedSum { section: u32, left: Fe, right: Fe },
    RejectedOpening { output: u32, left: Fe, right: Fe },
}

impl Judgement {
    /// That the sums of a section are refused, whose sides differ.
    pub(crate) fn of_section(differs: Differs) -> Self
        ensures { result ≡ judgement.RejectedSum differs.section differs.left differs.right }
    {
        Judgement::RejectedSum {
            section: differs.section,
            left: differs.left,
            right: differs.right,
        }
    }

    /// That the MAC of an opened wire is refused, whose sides differ.
    pub(crate) fn of_opening(differs: OpeningDiffers) -> Self
        ensures { result ≡ judgement.RejectedOpening differs.output differs.left differs.right }
    {
        Judgement::RejectedOpening {
            output: differs.output,
            left: differs.left,
            right: differs.right,
        }
    }

    /// What the verifier says of it.
    pub fn verdict(&self) -> Verdict
        ensures { result ≡ verdict_in self.now }
    {
        match self {
            Judgement::Accepted => Verdict::Accepted,
            Judgement::RejectedSum { section, .. } => Verdict::RejectedSum { section: *section },
            Judgement::RejectedOpening { output, .. } => Verdict::RejectedOpening {
                output: *output,
            },
        }
    }
}
