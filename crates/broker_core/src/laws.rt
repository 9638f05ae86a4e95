// Laws on all lists of events.
ghost use Rattle.broker_core.specs.Safe.{UnitsAreSpentOnce};
ghost use Rattle.broker_core.specs.Serving.{AskGivesBlock};

/// After any events that are possible in their order, no two spans that the nodes spent have a unit in common, and none ends above
/// the broker's durable ceiling.
pub fn units_are_spent_once()
    ensures { UnitsAreSpentOnce }
{}

/// One Ask gives the node a block, where its Want and the Block arrive, the broker has units for it and did not grant this number before, and
/// no put stands in its way.
pub fn one_ask_gives_a_block()
    ensures { AskGivesBlock }
{}
