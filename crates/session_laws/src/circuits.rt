// Laws of sessions about the outputs of a circuit.
ghost use Rattle.session_laws.specs.Circuits.{CircuitIsProved, ExtractedShowsOutputs};

/// A prover whose private bits, after the public ones, make a circuit give the claimed outputs has a witness, and whatever
/// solves the program with its inputs gives the claims.
pub fn circuit_is_proved()
    ensures { CircuitIsProved }
{}

/// What an accepted session about a circuit's outputs shows of every prover's file that is dealt with the verifier's: its private
/// bits, beside the public ones, make the circuit give the outputs, or the challenge is a root of a polynomial that was fixed
/// before it, or the key is one of a polynomial of degree two at most (Yang, Sarkar, Weng and Wang, QuickSilver, ACM CCS 2021).
pub fn extracted_shows_outputs()
    ensures { ExtractedShowsOutputs }
{}
