// Laws of what is determined.
ghost use Rattle.zk_laws.specs.Uniqueness.{OneView, FixedBeforeChallenge, OneFinding};

/// Whatever was replied, a prover's file, a statement and a commitment determine what the prover sees: all correlations, all
/// given values, and the pair of every wire that is set.
pub fn one_view()
    ensures { OneView }
{}

/// Logs that agree up to the last byte before the challenge have one commitment, and so the same errors: no frame from the
/// challenge on takes part in them.
pub fn fixed_before_challenge()
    ensures { FixedBeforeChallenge }
{}

/// A prover's file and a whole session have one finding.
pub fn one_finding()
    ensures { OneFinding }
{}
