// A dealt file of either side.
ghost use Rattle.std.specs.Prelude.{◌≡◌, None, IfOk, IfErr, OnOk};
ghost use Rattle.zk_model.specs.Files.{AreParams};
ghost use Rattle.zk_port.specs.Changes.{change};
ghost use Rattle.dealer_files.specs.Faults.{IsFirstFileFault};
ghost use Rattle.file_commands.specs.Effects.{IsName, OnlyLoads};
ghost use Rattle.status_command.specs.StatusRuns.{DealtStop, IsDealing, IsDealingOf, dealing_of, node_of, side_in, side_of};

use dealer_files::{FileFault, ProverFile, VerifierFile, decode_prover, decode_verifier};
use file_commands::{Refusal, load_file};
use std::alloc::Global;
use zk_model::{Params, Side};
use zk_port::Shelf;

/// What a dealt file says of its dealing: whose file it is, the id, and what it was made for.
#[derive(Clone, Copy)]
pub struct Dealing {
    pub side: Side,
    pub id: [u8; 32],
    pub params: Params,
}

/// A dealt file; or a verifier's file, and the number of a node that holds it.
#[derive(Drop)]
pub enum DealtFile {
    Prover(ProverFile),
    Verifier(VerifierFile),
    Node(VerifierFile, u32),
}

impl DealtFile {
    /// What it says of its dealing.
    pub fn dealing(&self) -> Dealing
        ensures dealing { result ≡ dealing_of self.now }
        ensures params { AreParams result.params }
    {
        match self {
            DealtFile::Prover(file) => Dealing {
                side: Side::Prover,
                id: file.id(),
                params: file.params(),
            },
            DealtFile::Verifier(file) | DealtFile::Node(file, _) => Dealing {
                side: Side::Verifier,
                id: file.id(),
                params: file.params(),
            },
        }
    }
}

/// The side whose file these bytes are to be.
fn side_in(bytes: &[u8]) -> Side
    ensures { result ≡ side_in bytes.now }
{
    if bytes.len() > 8 && bytes[8] == 1 {
        Side::Verifier
    } else {
        Side::Prover
    }
}

/// The dealt file that these bytes are, of the side that they say.
fn decode_told(alloc: Global, bytes: &[u8]) -> Result<DealtFile, FileFault>
    ensures file { IfOk result (λ file. IsDealingOf None bytes.now (dealing_of file)) }
    ensures node { IfOk result (λ file. node_of file ≡ None) }
    ensures fault { IfErr result (λ fault. IsFirstFileFault (side_in bytes.now) bytes.now fault) }
{
    match side_in(bytes) {
        Side::Prover => match decode_prover(alloc, bytes) {
            Ok(file) => {
                let _id = file.id();
                Ok(DealtFile::Prover(file))
            }
            Err(fault) => Err(fault),
        },
        Side::Verifier => match decode_verifier(alloc, bytes) {
            Ok(file) => {
                let _id = file.id();
                Ok(DealtFile::Verifier(file))
            }
            Err(fault) => Err(fault),
        },
    }
}

/// The dealt file that these bytes are: with a node a verifier's, and else of the side that they say.
fn decode_dealt(alloc: Global, bytes: &[u8], node: Option<u32>) -> Result<DealtFile, FileFault>
    ensures file { IfOk result (λ file. IsDealingOf node bytes.now (dealing_of file)) }
    ensures node { IfOk result (λ file. node_of file ≡ node) }
    ensures fault { IfErr result (λ fault. IsFirstFileFault (side_of node bytes.now) bytes.now fault) }
{
    match node {
        None => decode_told(alloc, bytes),
        Some(number) => match decode_verifier(alloc, bytes) {
            Ok(file) => {
                let _id = file.id();
                Ok(DealtFile::Node(file, number))
            }
            Err(fault) => Err(fault),
        },
    }
}

/// The dealt file of this name: with a node a verifier's, and else of the side that it says.
pub fn load_dealt<F: Shelf>(
    alloc: Global,
    shelf: &mut F,
    name: &str,
    node: Option<u32>,
) -> Result<DealtFile, Refusal>
    ensures file { IfOk result (λ file. IsDealing (F.state shelf.old).told name.now node (dealing_of file)) }
    ensures node { IfOk result (λ file. node_of file ≡ node) }
    ensures stop { IfErr result (DealtStop name.now node (change (F.state shelf.old) (F.state shelf.new))) }
    ensures kept { OnlyLoads (IsName name.now) (change (F.state shelf.old) (F.state shelf.new)) }
    ensures quiet { OnOk result (F.state shelf.new ≡ F.state shelf.old) }
{
    let bytes = load_file(alloc, shelf, name)?;
    let file = decode_dealt(alloc, &bytes, node)?;
    Ok(file)
}
