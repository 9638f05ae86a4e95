// What noise vectors promise.
ghost use Rattle.sparse_vole.specs.Laws.{NoiseKeepsKeys};

/// The verifier's leaves are keys that fit the prover's noise vector.
pub fn noise_keeps_keys()
    ensures { NoiseKeepsKeys }
{}
