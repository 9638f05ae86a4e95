// What words ask to be proved.
ghost use Rattle.std.specs.Prelude.{◌≡◌, string_bytes};
ghost use Rattle.command_words.specs.Commands.{known_bits, prove_arith_of, prove_of};
ghost use Rattle.prove_command.specs.Proofs.{proof_asked, proof_of_arith};

use command_words::{ProveArithAsk, ProveAsk};
use std::marker::Model;

/// That a Boolean circuit gives outputs, as words name it: the file of the circuit, the public input bits, the private ones, and the
/// outputs. Contracts see these four as one record.
#[derive(Debug, Drop)]
pub struct BitsProof {
    circuit: String,
    public: Vec<bool>,
    bits: Vec<bool>,
    outputs: Vec<bool>,
}

impl Model for BitsProof {
    ghost use Rattle.std.specs.Prelude.{string_bytes};
    ghost use Rattle.prove_command.specs.NamedProofs as named;

    ghost Value = { named.BitsProof };

    ghost view = { λ p. record {
      circuit = string_bytes p.circuit;
      public = p.public.items;
      bits = p.bits.items;
      outputs = p.outputs.items;
    } };
}

impl BitsProof {
    /// That behind these public bits the private ones make the circuit of this file give these outputs.
    pub fn new(circuit: String, public: Vec<bool>, bits: Vec<bool>, outputs: Vec<bool>) -> Self
        ensures { result ≡ record {
          circuit = string_bytes circuit;
          public = public.items;
          bits = bits.items;
          outputs = outputs.items;
        } }
    {
        BitsProof {
            circuit,
            public,
            bits,
            outputs,
        }
    }

    /// The name of the circuit's file.
    pub fn circuit(&self) -> &str
        ensures { result.now ≡ self.now.circuit }
    {
        &self.circuit
    }

    /// The public input bits.
    pub fn public(&self) -> &[bool]
        ensures { result.now ≡ self.now.public }
    {
        &self.public
    }

    /// The private input bits.
    pub fn bits(&self) -> &[bool]
        ensures { result.now ≡ self.now.bits }
    {
        &self.bits
    }

    /// The outputs that are claimed.
    pub fn outputs(&self) -> &[bool]
        ensures { result.now ≡ self.now.outputs }
    {
        &self.outputs
    }
}

/// That an arithmetic circuit gives outputs and meets its assertions, as words name it: the files of the circuit, of the input elements and
/// of the outputs. Contracts see the names as one record.
#[derive(Debug, Drop)]
pub struct ElementsProof {
    circuit: String,
    values: String,
    outputs: String,
}

impl Model for ElementsProof {
    ghost use Rattle.std.specs.Prelude.{string_bytes};
    ghost use Rattle.prove_command.specs.NamedProofs as named;

    ghost Value = { named.ElementsProof };

    ghost view = { λ p. record {
      circuit = string_bytes p.circuit;
      values = string_bytes p.values;
      outputs = string_bytes p.outputs;
    } };
}

impl ElementsProof {
    /// That the elements of the second file make the circuit of the first give those of the third.
    pub fn new(circuit: String, values: String, outputs: String) -> Self
        ensures { result ≡ record {
          circuit = string_bytes circuit;
          values = string_bytes values;
          outputs = string_bytes outputs;
        } }
    {
        ElementsProof {
            circuit,
            values,
            outputs,
        }
    }

    /// The name of the circuit's file.
    pub fn circuit(&self) -> &str
        ensures { result.now ≡ self.now.circuit }
    {
        &self.circuit
    }

    /// The name of the file of the input elements.
    pub fn values(&self) -> &str
        ensures { result.now ≡ self.now.values }
    {
        &self.values
    }

    /// The name of the file of the outputs.
    pub fn outputs(&self) -> &str
        ensures { result.now ≡ self.now.outputs }
    {
        &self.outputs
    }
}

/// What is to be proved, as words name it: of a Boolean circuit, or of an arithmetic one.
#[derive(Debug, Drop)]
pub enum ProofNames {
    Boolean(BitsProof),
    Arithmetic(ElementsProof),
}

/// What words ask to be proved, and to whom: where the verifier listens, the prover's file, for how many seconds a silent peer is waited
/// for, and what is to be proved. Contracts see these four as one record.
#[derive(Debug, Drop)]
pub struct Proof {
    address: String,
    file: String,
    timeout: u32,
    names: ProofNames,
}

impl Model for Proof {
    ghost use Rattle.std.specs.Prelude.{string_bytes};
    ghost use Rattle.prove_command.specs.Proofs as proofs;

    ghost Value = { proofs.Proof };

    ghost view = { λ p. record {
      address = string_bytes p.address;
      file = string_bytes p.file;
      timeout = p.timeout;
      names = p.names;
    } };
}

impl Proof {
    /// What `prove` asks for.
    pub fn by_bits(ask: ProveAsk<String, Vec<bool>>) -> Self
        ensures { result ≡ proof_asked (prove_of known_bits ask) }
    {
        let ProveAsk {
            address,
            file,
            circuit,
            public,
            bits,
            outputs,
            timeout,
        } = ask;
        let names = ProofNames::Boolean(BitsProof::new(circuit, public, bits, outputs));
        Proof {
            address,
            file,
            timeout,
            names,
        }
    }

    /// What `prove-arith` asks for.
    pub fn by_elements(ask: ProveArithAsk<String>) -> Self
        ensures { result ≡ proof_of_arith (prove_arith_of ask) }
    {
        let ProveArithAsk {
            address,
            file,
            circuit,
            values,
            outputs,
            timeout,
        } = ask;
        let names = ProofNames::Arithmetic(ElementsProof::new(circuit, values, outputs));
        Proof {
            address,
            file,
            timeout,
            names,
        }
    }

    /// Where the verifier listens.
    pub fn address(&self) -> &str
        ensures { result.now ≡ self.now.address }
    {
        &self.address
    }

    /// The name of the prover's file.
    pub fn file(&self) -> &str
        ensures { result.now ≡ self.now.file }
    {
        &self.file
    }

    /// For how many seconds a silent peer is waited for.
    pub fn timeout(&self) -> u32
        ensures { result ≡ self.now.timeout }
    {
        self.timeout
    }

    /// What is to be proved.
    pub fn names(&self) -> &ProofNames
        ensures { result.now ≡ self.now.names }
    {
        &self.names
    }
}
