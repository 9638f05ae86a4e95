// Laws of a session on which neither end deviates.
ghost use Rattle.zk_laws.specs.Completeness.{HonestSessionIsAccepted};

/// Over files that are dealt together, whatever their kind: where the prover is honest and its values give the claims, and
/// the verifier serves the session, every check holds, and what passes is the log of an honest session (Weng, Yang, Katz and
/// Wang, Wolverine, IEEE S&P 2021; Yang, Sarkar, Weng and Wang, QuickSilver, ACM CCS 2021).
pub fn honest_session_is_accepted()
    ensures { HonestSessionIsAccepted }
{}
