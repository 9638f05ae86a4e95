// Runs of events.
ghost use Rattle.std.specs.Prelude.{◌≡◌, ℕ, IfOk, OnErr};
ghost use Rattle.broker_core.specs.Safe.{IsSafe, IsStoppedIn, Took, TookFirst};

use crate::event::BrokerEvent;
use crate::world::World;
use std::alloc::AllocError;

/// Takes events up to the first one that is not possible, and says whether it took all.
///
/// # Errors
///
/// Only where memory runs out: some of the first events are then taken, and of the next one at most the first steps of its lease.
pub fn run(world: &mut World, events: &[BrokerEvent]) -> Result<bool, AllocError>
    ensures took { IfOk result (λ b. Took world.old events.now b world.new) }
    ensures stopped { OnErr result (IsStoppedIn world.old events.now world.new) }
    ensures safe { IsSafe world.new }
{
    let taken = take_events(world, events);
    world.is_safe();
    taken
}

fn take_events(world: &mut World, events: &[BrokerEvent]) -> Result<bool, AllocError>
    ensures took { IfOk result (λ b. Took world.old events.now b world.new) }
    ensures stopped { OnErr result (IsStoppedIn world.old events.now world.new) }
{
    for event in events {
        if !world.step(*event)? {
            return Ok(false);
        }
    }
    Ok(true)
}
