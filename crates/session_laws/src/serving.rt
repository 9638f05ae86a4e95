// Laws of sessions that a verifier serves.
ghost use Rattle.session_laws.specs.Serving.{ServedSessionExists};

/// Whatever the prover asked and corrected, there is a session with it that the verifier serves: for every key some sums and
/// openings meet the equations.
pub fn served_session_exists()
    ensures { ServedSessionExists }
{}
