// What proves a claim.
use mersenne_field::Fe;
use session_core::{CircuitClaim, WireValues};

/// A claim, and the values of its inputs that prove it, with what makes the given values then.
#[derive(Drop)]
pub struct Witness {
    pub claim: CircuitClaim,
    pub inputs: Vec<Fe>,
    pub wires: WireValues,
}
