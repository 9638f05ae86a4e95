// Laws of sessions about the outputs of an arithmetic circuit.
ghost use Rattle.session_laws.specs.Ariths.{SolvedIsProved, ArithIsProved, ExtractedShowsElements};

/// A prover whose inputs make its program give the claims has a witness, and whatever solves the program with its inputs gives the
/// claims: public values and inputs determine every wire that is set.
pub fn solved_is_proved()
    ensures { SolvedIsProved }
{}

/// A prover whose inputs make an arithmetic circuit give the claimed outputs, and meet its assertions, has a witness, and whatever solves
/// the program with its inputs gives the claims.
pub fn arith_is_proved()
    ensures { ArithIsProved }
{}

/// What an accepted session about an arithmetic circuit's outputs shows of every prover's file that is dealt with the verifier's: its
/// inputs make the circuit give the outputs and meet its assertions, or the challenge is a root of a polynomial that was fixed before it,
/// or the key is one of a polynomial of degree two at most (Yang, Sarkar, Weng and Wang, QuickSilver, ACM CCS 2021).
pub fn extracted_shows_elements()
    ensures { ExtractedShowsElements }
{}
