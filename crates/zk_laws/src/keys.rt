// Laws of the verifier's keys.
ghost use Rattle.zk_laws.specs.Keys.{KeysFit};

/// Whatever the prover asked, the verifier's keys fit the pairs that the prover sees (Weng, Yang, Katz and Wang, Wolverine,
/// IEEE S&P 2021).
pub fn keys_fit()
    ensures { KeysFit }
{}
