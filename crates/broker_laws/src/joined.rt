// What histories of a broker and its nodes come to.
ghost use Rattle.broker_laws.specs.Joins.{JoinsDrawOnce, JoinsHappen};
ghost use Rattle.broker_laws.specs.Laws.{HistoriesAreEvents, HistoriesDrawOnce};
ghost use Rattle.broker_laws.specs.Runs.{RunsDrawOnce};

use zk_port::Disk;

/// What each party did for itself is a history in any order in which messages come after they were sent.
pub fn joins_happen<B: Disk, C: Disk>()
    ensures { JoinsHappen B.state C.state }
{}

/// So no unit is drawn twice in it.
pub fn joins_draw_once<B: Disk, C: Disk>()
    ensures { JoinsDrawOnce B.state C.state }
{}

/// Each history of a broker and its nodes is a list of events of the world that are possible in their order.
pub fn histories_are_events<B: Disk, C: Disk>()
    ensures { HistoriesAreEvents B.state C.state }
{}

/// No two spans that nodes draw in a history have a unit in common, whoever stops and starts, and each ends at or below the broker's ceiling.
pub fn histories_draw_once<B: Disk, C: Disk>()
    ensures { HistoriesDrawOnce B.state C.state }
{}

/// The same of the runs that a history interleaves.
pub fn runs_draw_once<B: Disk, C: Disk>()
    ensures { RunsDrawOnce B.state C.state }
{}
