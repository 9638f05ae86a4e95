// The broker's step.
ghost use Rattle.std.specs.Prelude.{◌≡◌, ◌≤◌, ◌<◌, length, None, IfOk, IsErr};
ghost use Rattle.lease_words.specs.Calls.{RisesFrom};
ghost use Rattle.lease_store.specs.Ceilings.{NeverFails};
ghost use Rattle.lease_store.specs.Leases.{IsPassAt, PassGoesOn};
ghost use Rattle.broker_core.specs.Leases.{kept_of, repeated};
ghost use Rattle.broker_node.specs.BrokerSteps.{IsBrokerStep, IsLeasedFor, IsStoredReply};
ghost use Rattle.zk_model.specs.declared.limits.TheConstants.{MAX_UNITS};

use broker_core::{BrokerCore, block_of, repeated, rounded};
use lease_store::{LeaseFault, LeaseName, LeaseStore};
use lease_words::Pass;
use std::sync::Wait;
use zk_model::{Block, Out, Want};
use zk_port::Disk;

/// What the broker answers.
#[derive(Clone, Copy, Debug, PartialEq, Eq)]
pub enum Reply {
    Block(Block),
    Out(Out),
}

/// Leases units for a Want and keeps them.
fn lease_anew<R: Wait, B: Disk, N: LeaseName>(
    rt: &R,
    core: &mut BrokerCore,
    store: &LeaseStore<B, N>,
    pass: &mut Pass,
    want: Want,
) -> Result<Reply, LeaseFault>
    requires node { want.node < length core.old }
    requires count { (1 ≤ want.count) × (want.count ≤ MAX_UNITS) }
    requires own { IsPassAt N.table N.total pass.old }
    ensures own { IsPassAt N.table N.total pass.new }
    ensures goes { PassGoesOn pass.old pass.new }
    ensures rises { RisesFrom pass.old pass.new }
    ensures never { NeverFails B.state → IsErr result → ⊥ }
    ensures leased { IsLeasedFor core.old pass.old want result core.new pass.new }
    ensures stored { IfOk result (λ reply. IsStoredReply B.state reply) }
{
    let Want {
        node,
        number,
        count,
    } = want;
    match store.lease(rt, pass, rounded(count)) {
        Ok(span) => {
            core.keep(node, number, span);
            Ok(Reply::Block(block_of(node, number, span)))
        }
        Err(LeaseFault::Exhausted { at, .. }) => Ok(Reply::Out(Out { node, number, at })),
        Err(fault) => Err(fault),
    }
}

/// The broker answers a Want. One that comes again gets the same Block; any other leases the next units. The call may wait.
///
/// # Errors
///
/// As a lease, where the journal failed. An Out is the answer where no units are left.
pub fn broker_step<R: Wait, B: Disk, N: LeaseName>(
    rt: &R,
    core: &mut BrokerCore,
    store: &LeaseStore<B, N>,
    pass: &mut Pass,
    want: Want,
) -> Result<Reply, LeaseFault>
    requires node { want.node < length core.old }
    requires count { (1 ≤ want.count) × (want.count ≤ MAX_UNITS) }
    requires own { IsPassAt N.table N.total pass.old }
    ensures own { IsPassAt N.table N.total pass.new }
    ensures goes { PassGoesOn pass.old pass.new }
    ensures rises { RisesFrom pass.old pass.new }
    ensures never { NeverFails B.state → IsErr result → ⊥ }
    ensures step { IsBrokerStep core.old pass.old want result core.new pass.new }
    ensures stored { repeated (kept_of core.old want.node) want.number ≡ None
        → IfOk result (λ reply. IsStoredReply B.state reply) }
{
    match repeated(core, want) {
        Some(span) => Ok(Reply::Block(block_of(want.node, want.number, span))),
        None => lease_anew(rt, core, store, pass, want),
    }
}
