// What a Want does to the broker.
ghost use Rattle.std.specs.Prelude.{◌≡◌, ℕ, ◌≤◌, ◌<◌, ◌++◌, List, None, replicate, true, false, length};
ghost use Rattle.std.specs.Prelude.{nat_le, take, vec_len, vec_capacity, OnOk, OnErr, IfOk};
ghost use Rattle.lease_core.specs.Machine.{after, after_all, are_possible};
ghost use Rattle.lease_core.specs.declared.event.Event.TheVariants.{Begin, Crash};
ghost use Rattle.broker_core.specs.Leases.{AreSteps, TookSome, end_for, kept_after, reply_to, steps_for};
ghost use Rattle.broker_core.specs.Messages.{block_of};
ghost use Rattle.broker_core.specs.Sound.{Goes, IsServing};
ghost use Rattle.zk_model.specs.declared.limits.TheConstants.{MAX_UNITS};

use crate::keeping::BrokerCore;
use crate::leasing::{end_for, steps_for};
use crate::message::{LeaseEnd, Message};
use lease_core::{Event, State, run};
use std::alloc::{AllocError, Global};
use zk_model::{Block, Out, Span, Want};

/// The Block of a span.
pub fn block_of(node: u32, number: u64, span: Span) -> Block
    ensures { result ≡ block_of node number span }
{
    let count = span.end.saturating_sub(span.start).min(u64::from(u32::MAX));
    Block {
        node,
        number,
        start: span.start,
        count: count as u32,
    }
}

/// Steps that are possible in their order take place.
fn take_steps(lease: &mut State, steps: &[Event]) -> Result<(), AllocError>
    requires serving { IsServing lease.old }
    requires possible { are_possible lease.old steps.now ≡ true }
    requires kind { AreSteps steps.now }
    ensures taken { OnOk result (lease.new ≡ after_all lease.old steps.now) }
    ensures goes { Goes lease.old lease.new }
    ensures refused { OnErr result (TookSome lease.old steps.now lease.new) }
{
    if run(lease, steps)? {
        Ok(())
    } else {
        unreachable!()
    }
}

/// The first steps of the lease for a Want take place.
pub(crate) fn lease_some(
    alloc: Global,
    lease: &mut State,
    core: &BrokerCore,
    want: Want,
    count: usize,
) -> Result<bool, AllocError>
    requires serving { IsServing lease.old }
    requires fits { (1 ≤ want.count) × (want.count ≤ MAX_UNITS) }
    ensures enough { IfOk result (λ b. b ≡ nat_le count (length (steps_for lease.old core.now want))) }
    ensures taken { IfOk result (λ b. b ≡ true
        → lease.new ≡ after_all lease.old (take count (steps_for lease.old core.now want))) }
    ensures few { IfOk result (λ b. b ≡ false → lease.new ≡ lease.old) }
    ensures goes { Goes lease.old lease.new }
    ensures refused { OnErr result
        (TookSome lease.old (take count (steps_for lease.old core.now want)) lease.new) }
{
    let steps = steps_for(alloc, lease, core, want)?;
    if count > steps.len() {
        return Ok(false);
    }
    take_steps(lease, &steps[..count])?;
    Ok(true)
}

/// The broker answers a Want by how its lease ended, and keeps what was granted.
fn answer(core: &mut BrokerCore, sent: &mut Vec<Message>, want: Want, end: LeaseEnd)
    requires node { want.node < length core.old }
    requires room { vec_len sent.old < vec_capacity sent.old }
    ensures kept { core.new ≡ kept_after core.old want end }
    ensures sent { sent.new.items ≡ sent.old.items ++ reply_to want end }
{
    let Want { node, number, .. } = want;
    match end {
        LeaseEnd::Leased { span } => {
            core.keep(node, number, span);
            sent.push_reserved(Message::Block(block_of(node, number, span)));
        }
        LeaseEnd::Exhausted { at } => {
            sent.push_reserved(Message::Out(Out { node, number, at }));
        }
        LeaseEnd::Refused => {}
    }
}

/// All steps of the lease for a Want take place, and it is answered by how the lease ends.
pub(crate) fn serve(
    alloc: Global,
    lease: &mut State,
    core: &mut BrokerCore,
    sent: &mut Vec<Message>,
    want: Want,
) -> Result<(), AllocError>
    requires serving { IsServing lease.old }
    requires fits { (1 ≤ want.count) × (want.count ≤ MAX_UNITS) }
    requires node { want.node < length core.old }
    ensures lease { OnOk result (lease.new ≡ after_all lease.old (steps_for lease.old core.old want)) }
    ensures kept { OnOk result (core.new ≡ kept_after core.old want (end_for lease.old core.old want)) }
    ensures sent { OnOk result
        (sent.new.items ≡ sent.old.items ++ reply_to want (end_for lease.old core.old want)) }
    ensures goes { Goes lease.old lease.new }
    ensures refused { OnErr result ((core.new ≡ core.old) × (sent.new.items ≡ sent.old.items)) }
    ensures stopped { OnErr result (TookSome lease.old (steps_for lease.old core.old want) lease.new) }
{
    let steps = steps_for(alloc, lease, core, want)?;
    let end = end_for(lease, core, want);
    sent.reserve(1)?;
    take_steps(lease, &steps)?;
    answer(core, sent, want, end);
    Ok(())
}

/// The broker crashes, and starts anew: nothing is kept of any node.
pub(crate) fn restart(lease: &mut State, core: &mut BrokerCore, gate: u8) -> Result<(), AllocError>
    requires { IsServing lease.old }
    ensures lease { OnOk result
        ((body : List ℕ) → lease.new ≡ after (after lease.old (Crash body gate)) Begin) }
    ensures kept { OnOk result (core.new ≡ replicate (length core.old) None) }
    ensures refused { OnErr result ((lease.new ≡ lease.old) × (core.new ≡ core.old)) }
{
    let _crashed = lease.crash(gate)?;
    let _begun = lease.begin();
    core.forget();
    Ok(())
}
