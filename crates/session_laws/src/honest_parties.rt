// Laws of logs whose bytes came from an honest prover.
ghost use Rattle.session_laws.specs.Peers.{HonestTurn, HonestTurnEnds, HonestWhole, HonestWholeIsAccepted};

/// What an honest prover sent after some turns of a session that a verifier leads is a beginning of its next turn in an
/// honest session with the same turns.
pub fn honest_turn()
    ensures { HonestTurn }
{}

/// Where the prover has sent all that an honest one sends, its next turn is whole.
pub fn honest_turn_ends()
    ensures { HonestTurnEnds }
{}

/// On the log of a whole session that a verifier serves, a prover that sent what an honest one sends is honest.
pub fn honest_whole()
    ensures { HonestWhole }
{}

/// So the session is accepted, where the prover's values give the claims.
pub fn honest_whole_is_accepted()
    ensures { HonestWholeIsAccepted }
{}
