// Laws of what a log tells of how its session ended.
ghost use Rattle.session_laws.specs.Cuts.{CutIsNotWhole, CutIsNotAccepted, VerdictIsSaid, OneVerdictOfCode};

/// A log that is cut in a turn of the prover is not that of a whole session, with whatever grant: it has too few bytes of
/// the verifier.
pub fn cut_is_not_whole()
    ensures { CutIsNotWhole }
{}

/// No verifier accepts on a log that is cut in a turn of the prover.
pub fn cut_is_not_accepted()
    ensures { CutIsNotAccepted }
{}

/// The log of a whole session says one code and one number of its verdict.
pub fn verdict_is_said()
    ensures { VerdictIsSaid }
{}

/// The last frame of a session says one verdict at most.
pub fn one_verdict_of_code()
    ensures { OneVerdictOfCode }
{}
