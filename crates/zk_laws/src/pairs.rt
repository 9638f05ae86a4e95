// Laws of the pairs that a prover sees.
ghost use Rattle.zk_laws.specs.SeenPairs.{PairsExist, OnePairs, PairsAreWhole};

/// Whatever the verifier replied, with the right counts and ranges, the prover sees pairs.
pub fn pairs_exist()
    ensures { PairsExist }
{}

/// A prover's file and the setup of a session determine the pairs that the prover sees.
pub fn one_pairs()
    ensures { OnePairs }
{}

/// The prover sees as many pairs as the units of its grant give, all of elements.
pub fn pairs_are_whole()
    ensures { PairsAreWhole }
{}
