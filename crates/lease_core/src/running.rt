// Events one after another.
ghost use Rattle.std.specs.Prelude.{◌≡◌, ℕ, ◌<◌, ◌≤◌, length, IfOk, OnErr};
ghost use Rattle.lease_core.specs.Machine.{durable};
ghost use Rattle.lease_core.specs.Spans.{EndBy};
ghost use Rattle.lease_core.specs.Kept.{LeasesAreSafe, IsReached, IsSafe, Took, TookFirst};
ghost use Rattle.lease_core.specs.Consistent.{IsConsistent, ReachedIsConsistent, ReachedGoesOn};

use crate::event::Event;
use crate::state::State;
use std::alloc::AllocError;

/// After any events that are possible in their order the machine is safe, and stays so.
pub fn leases_are_safe()
    ensures { LeasesAreSafe }
{}

/// A machine that possible events lead to keeps the invariant, and a possible event leads on from it.
pub fn reached_is_consistent()
    ensures consistent { ReachedIsConsistent }
    ensures goes_on { ReachedGoesOn }
{}

fn take_events(state: &mut State, events: &[Event]) -> Result<bool, AllocError>
    ensures took { IfOk result (λ b. Took state.old events.now b state.new) }
    ensures taken { (k : ℕ) × TookFirst state.old events.now k state.new }
{
    for event in events {
        if !state.step(*event)? {
            return Ok(false);
        }
    }
    Ok(true)
}

/// Takes events up to the first one that is not possible, and says whether it took all.
///
/// # Errors
///
/// Only where memory runs out; some of the first events are then taken.
pub fn run(state: &mut State, events: &[Event]) -> Result<bool, AllocError>
    ensures took { IfOk result (λ b. Took state.old events.now b state.new) }
    ensures refused { OnErr result ((k : ℕ) × TookFirst state.old events.now k state.new) }
    ensures safe { IsReached state.old → IsReached state.new × IsSafe state.new }
    ensures consistent { IsReached state.old → IsConsistent state.new }
    ensures stays_durable { IsReached state.old → EndBy (durable state.new) state.old.spent }
{
    take_events(state, events)
}
