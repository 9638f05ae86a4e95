// What the rule says, and which events the steps on the words and a store's puts, grants and stops are.
ghost use Rattle.lease_words.specs.Leased.{RuleIsLeased};
ghost use Rattle.lease_words.specs.Events.{StartIsEvent, DrawIsEvent, LookIsEvent, RaiseIsEvent};
ghost use Rattle.lease_words.specs.Events.{MarkIsNoEvent, MarkedIsNoEvent, JoinIsNoEvent};
ghost use Rattle.lease_words.specs.Storing.{DrawIsUnspent, StaysUnspent, SpendIsEvent, CrashIsEvent};
ghost use Rattle.lease_words.specs.Storing.{BodyIsEvent, BodySyncIsEvent, GateIsEvent, GateSyncIsEvent, PutStays, PutEnds};

/// Where the rule of the table holds, what was drawn tiles, and what each seat knows fits the words (`IsLeased`).
pub fn rule_is_leased()
    ensures { RuleIsLeased }
{}

/// The start is the event `Begin` of the lease machine, and a draw, a look and a raise are its events of those names.
pub fn steps_are_events()
    ensures start { StartIsEvent }
    ensures draw { DrawIsEvent }
    ensures look { LookIsEvent }
    ensures raise { RaiseIsEvent }
{}

/// Setting the mark, looking at it and taking in a pass are no events: the machine mirrors the words as it is.
pub fn other_steps_are_no_events()
    ensures mark { MarkIsNoEvent }
    ensures marked { MarkedIsNoEvent }
    ensures join { JoinIsNoEvent }
{}

/// A journal's put of a ceiling, by body, sync, gate and sync, is the four moments of the event `Put`, whatever passes do
/// in between.
pub fn puts_are_events()
    ensures body { BodyIsEvent }
    ensures body_sync { BodySyncIsEvent }
    ensures gate { GateIsEvent }
    ensures gate_sync { GateSyncIsEvent }
    ensures stays { PutStays }
    ensures ends { PutEnds }
{}

/// A pass's newest span is unspent until it is granted, and the grant is the event `Spend`.
pub fn grants_are_events()
    ensures drawn { DrawIsUnspent }
    ensures stays { StaysUnspent }
    ensures spend { SpendIsEvent }
{}

/// A stop is the event `Crash`, and leaves a durable ceiling at or above the one shown.
pub fn stops_are_events()
    ensures { CrashIsEvent }
{}
