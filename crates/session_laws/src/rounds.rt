// Laws of the rounds of a session.
ghost use Rattle.session_laws.specs.Rounds.{AsksAreInRange, RepliesAreInRange};

/// An honest prover asks for every tree of every unit of a grant, in range.
pub fn asks_are_in_range()
    ensures { AsksAreInRange }
{}

/// A verifier's replies to a round are in range, whatever was asked.
pub fn replies_are_in_range()
    ensures { RepliesAreInRange }
{}
