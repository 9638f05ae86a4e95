// Runs over one file's journals, one after the other.
ghost use Rattle.run_laws.specs.MachineRuns.{ClaimsAreEvents, RunsAreEvents};
ghost use Rattle.run_laws.specs.MigrationsInTurn.{MigrationsKeep};
ghost use Rattle.run_laws.specs.RunsInTurn.{RunsClaimOnce, RunsGrantOnce};

use claim_store::bytes_say_one_list;
use zk_port::Disk;

/// Runs over one file's journal, one after the other, grant no unit twice, whatever crashes between them leave.
pub fn runs_grant_once<B: Disk, L>()
    ensures { RunsGrantOnce L B.state }
{}

/// Runs over one file's journal, one after the other, claim no unit twice, whatever crashes between them leave.
pub fn runs_claim_once<B: Disk>()
    ensures { RunsClaimOnce B.state }
{
    bytes_say_one_list();
}

/// After a migration the next run begins with the very ceiling, or the very ranges, that the journal of one area said.
pub fn migrations_keep<B: Disk>()
    ensures { MigrationsKeep B.state }
{}

/// Any number of runs that lease over one file's journal are events of the lease machine (`lease_core`): what they are
/// granted is what it spends, in order, and the ceiling that the journal says is its durable one.
pub fn runs_are_events<B: Disk, L>()
    ensures { RunsAreEvents L B.state }
{}

/// So are runs that claim over the other end's journal: the claims that it says are the machine's.
pub fn claims_are_events()
    ensures { ClaimsAreEvents }
{}
