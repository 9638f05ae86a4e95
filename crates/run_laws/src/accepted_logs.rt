// What follows of an accepted session's log.
ghost use Rattle.run_laws.specs.AcceptedLogs.{HeadlineIsOfAcceptedLog};

use zk_laws::no_error_solves;

/// A log with a headline is one that a verifier accepts; and for every prover's file that is dealt with the
/// verifier's there is a finding of its transcript, which says of the circuit's outputs what it finds.
pub fn headline_is_of_accepted_log()
    ensures { HeadlineIsOfAcceptedLog }
{
    no_error_solves();
}
