// A node's calls and the broker's step as events of the world.
ghost use Rattle.broker_node.specs.Nodes.{AskIsEvent, DrawIsEvent, OthersLeaveRunning};
ghost use Rattle.broker_node.specs.Steps.{BrokerStepIsEvent, TurnsAreSeen};
ghost use Rattle.broker_node.specs.Takes.{CutIsEvent, StartIsEvent, TakeIsEvent, TakesAgree};
ghost use Rattle.broker_node.specs.Ties.{LeasesEndAlike};

use zk_port::Disk;

/// A store of claims refuses the same claims as the world does, slots and faults aside.
pub fn takes_agree()
    ensures { TakesAgree }
{}

/// What `take` does is an event of the world.
pub fn take_is_event<B: Disk>()
    ensures { TakeIsEvent B }
{}

/// What `ask` and `draw` do are events of the world; and a node runs on through the events of others.
pub fn asks_and_draws_are_events<B: Disk>()
    ensures ask { AskIsEvent B }
    ensures draw { DrawIsEvent B }
    ensures others { OthersLeaveRunning B }
{}

/// What a crash leaves within `take`, and what its disk has after a fault, is what an event of the world keeps; and a start on it is the node's
/// crash.
pub fn crashes_are_events<B: Disk>()
    ensures cut { CutIsEvent B }
    ensures start { StartIsEvent B }
{}

/// Where the world's lease machine has the broker's pass, a lease of the store ends as the world's does.
pub fn leases_end_alike()
    ensures { LeasesEndAlike }
{}

/// A pass's draws rise; and where it was the one pass of its store, the store's end tells that they were in turn.
pub fn turns_are_seen()
    ensures { TurnsAreSeen }
{}

/// What `broker_step` does with a Want that comes is an event of the world.
pub fn broker_step_is_event()
    ensures { BrokerStepIsEvent }
{}
