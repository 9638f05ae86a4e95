// A claim as words name it.
ghost use Rattle.std.specs.Prelude.{◌≡◌, string_bytes};

use std::marker::Model;

/// A claim as words name it: the file of its circuit, the public input bits, and the outputs. Contracts see these three as
/// one record.
#[derive(Debug, Drop)]
pub struct NamedClaim {
    circuit: String,
    public: Vec<bool>,
    outputs: Vec<bool>,
}

impl Model for NamedClaim {
    ghost use Rattle.std.specs.Prelude.{string_bytes};
    ghost use Rattle.statement_file.specs.Claims as claims;

    ghost Value = { claims.NamedClaim };

    ghost view = { λ c. record {
      circuit = string_bytes c.circuit;
      public = c.public.items;
      outputs = c.outputs.items;
    } };
}

impl NamedClaim {
    /// The claim that with these public bits the circuit of this file gives these outputs.
    pub fn new(circuit: String, public: Vec<bool>, outputs: Vec<bool>) -> Self
        ensures { result ≡ record {
          circuit = string_bytes circuit;
          public = public.items;
          outputs = outputs.items;
        } }
    {
        NamedClaim {
            circuit,
            public,
            outputs,
        }
    }

    /// The name of the circuit's file.
    pub fn circuit(&self) -> &str
        ensures { result.now ≡ self.now.circuit }
    {
        &self.circuit
    }

    /// The public input bits.
    pub fn public(&self) -> &[bool]
        ensures { result.now ≡ self.now.public }
    {
        &self.public
    }

    /// The outputs that are claimed.
    pub fn outputs(&self) -> &[bool]
        ensures { result.now ≡ self.now.outputs }
    {
        &self.outputs
    }
}
