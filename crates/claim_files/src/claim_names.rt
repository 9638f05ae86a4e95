// Claims as words name them.
ghost use Rattle.std.specs.Prelude.{◌≡◌, string_bytes};

use statement_file::NamedClaim;
use std::marker::Model;

/// A claim about an arithmetic circuit as words name it: the file of the circuit, and that of the outputs. Contracts see both names as
/// one record.
#[derive(Debug, Drop)]
pub struct NamedElements {
    circuit: String,
    outputs: String,
}

impl Model for NamedElements {
    ghost use Rattle.std.specs.Prelude.{string_bytes};
    ghost use Rattle.claim_files.specs.NamedElements as claims;

    ghost Value = { claims.NamedElements };

    ghost view = { λ c. record { circuit = string_bytes c.circuit; outputs = string_bytes c.outputs } };
}

impl NamedElements {
    /// The claim that the arithmetic circuit of the first file gives the elements of the second.
    pub fn new(circuit: String, outputs: String) -> Self
        ensures { result ≡ record { circuit = string_bytes circuit; outputs = string_bytes outputs } }
    {
        NamedElements { circuit, outputs }
    }

    /// The name of the circuit's file.
    pub fn circuit(&self) -> &str
        ensures { result.now ≡ self.now.circuit }
    {
        &self.circuit
    }

    /// The name of the file of the outputs.
    pub fn outputs(&self) -> &str
        ensures { result.now ≡ self.now.outputs }
    {
        &self.outputs
    }
}

/// A claim as words name it: that with some public bits a Boolean circuit gives these outputs, or that an arithmetic circuit gives the
/// elements of a file.
#[derive(Debug, Drop)]
pub enum ClaimNames {
    Boolean(NamedClaim),
    Arithmetic(NamedElements),
}
