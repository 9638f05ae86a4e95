// Laws of what an accepted session shows.
ghost use Rattle.session_verifier.specs.Laws.{ShownIsAccepted, ShownIsFound, ShownSolves};

use zk_laws::no_error_solves;

/// What the record of an accepted session says is that its log is accepted, with the record's transcript.
pub fn shown_is_accepted()
    ensures { ShownIsAccepted }
{}

/// Every prover's file that is dealt with the verifier's gives a finding of a transcript in order that the log is of.
pub fn shown_is_found()
    ensures { ShownIsFound }
{}

/// Whatever a prover with such a file sees of an accepted session: where no section has an error and all opened wires are as
/// claimed, its values solve the program and give the claims (Yang, Sarkar, Weng and Wang, QuickSilver, ACM CCS 2021).
pub fn shown_solves()
    ensures { ShownSolves }
{
    no_error_solves();
}
