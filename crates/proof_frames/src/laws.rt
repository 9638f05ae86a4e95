// What frames promise at a place.
ghost use Rattle.proof_frames.specs.Laws.{OneFrame, NoneBeginsAnother, GoesOnOrIsBad, NeverBoth, WholeWantsNothing, NothingWantedIsWhole};

/// Bytes are one whole frame at a place at most.
pub fn one_frame()
    ensures { OneFrame }
{}

/// Of two frames that a place allows, none begins with the other.
pub fn none_begins_another()
    ensures { NoneBeginsAnother }
{}

/// Bytes that are no more than a frame has either can go on or have a first bad one.
pub fn goes_on_or_is_bad()
    ensures either { GoesOnOrIsBad }
    ensures never_both { NeverBoth }
{}

/// What can go on is a whole frame exactly where it wants no more bytes.
pub fn whole_wants_nothing()
    ensures whole { WholeWantsNothing }
    ensures nothing_wanted { NothingWantedIsWhole }
{}
