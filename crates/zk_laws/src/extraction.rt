// Laws of what an accepted session shows.
ghost use Rattle.zk_laws.specs.Extraction.{NoErrorSolves, FindingExists, FindingShows, Extraction, FoundBits};

/// Without errors the prover's values solve the program.
pub fn no_error_solves()
    ensures { NoErrorSolves }
{}

/// What the prover sees of a session gives a finding: by the first section with an error, or else by the first opened wire
/// that is not as claimed, or else by the inputs.
pub fn finding_exists()
    ensures { FindingExists }
{}

/// Where the keys fit what the prover sees and all checks hold, a finding shows what it says: inputs that make the program
/// give the claims, or a polynomial that is not zero with a root at the challenge or at the key (Yang, Sarkar, Weng and Wang,
/// QuickSilver, ACM CCS 2021).
pub fn finding_shows()
    ensures { FindingShows }
{}

/// Where all checks of a session hold, for every prover's file that is dealt with the verifier's there is a finding, and it
/// shows what it says (Weng, Yang, Katz and Wang, Wolverine, IEEE S&P 2021; Yang, Sarkar, Weng and Wang, QuickSilver, ACM
/// CCS 2021).
pub fn extraction_holds()
    ensures { Extraction }
{}

/// Of a session about a circuit's outputs, the inputs of a finding are bits that satisfy the circuit.
pub fn found_bits()
    ensures { FoundBits }
{}
