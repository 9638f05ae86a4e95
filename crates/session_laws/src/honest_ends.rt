// Laws of logs of which both ends are honest.
ghost use Rattle.session_laws.specs.Sessions.{HonestLog, HonestAnswer, HonestVerdict, HonestLogIsOfBoth};

/// A log that a verifier serves, and of which an honest prover sent its part, is a beginning of the log of an honest
/// session with the same grant, which is accepted: also where it ended early, on either side.
pub fn honest_log()
    ensures { HonestLog }
{}

/// A log of an honest prover that ends in an answer, of which an honest verifier sent its part, is a beginning of the log of
/// an honest session, which is accepted.
pub fn honest_answer()
    ensures { HonestAnswer }
{}

/// A whole log of an honest prover, of which an honest verifier sent its part, is that of an honest session, and is
/// accepted.
pub fn honest_verdict()
    ensures { HonestVerdict }
{}

/// Conversely, in a beginning of the log of an honest session, wherever it ends, each end sent its part of it.
pub fn honest_log_is_of_both()
    ensures { HonestLogIsOfBoth }
{}
