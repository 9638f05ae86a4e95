// Dealt files that are loaded.
ghost use Rattle.std.specs.Prelude.{◌≡◌, IfOk, IfErr, OnOk};
ghost use Rattle.zk_model.specs.declared.Side.TheVariants.{Prover, Verifier};
ghost use Rattle.zk_port.specs.Changes.{change};
ghost use Rattle.file_commands.specs.Effects.{OnlyLoads, IsName};
ghost use Rattle.file_commands.specs.Stops.{FileStop, IsProverFileAt, IsVerifierFileAt};

use crate::circuit_file::load_file;
use crate::refusal::Refusal;
use dealer_files::{ProverFile, VerifierFile, decode_prover, decode_verifier};
use std::alloc::Global;
use zk_port::Shelf;

/// The prover's file of this name.
pub fn load_prover<F: Shelf>(
    alloc: Global,
    shelf: &mut F,
    name: &str,
) -> Result<ProverFile, Refusal>
    ensures file { IfOk result (IsProverFileAt (F.state shelf.old).told name.now) }
    ensures stop { IfErr result
        (FileStop Prover name.now (change (F.state shelf.old) (F.state shelf.new))) }
    ensures kept { OnlyLoads (IsName name.now) (change (F.state shelf.old) (F.state shelf.new)) }
    ensures quiet { OnOk result (F.state shelf.new ≡ F.state shelf.old) }
{
    let bytes = load_file(alloc, shelf, name)?;
    let file = decode_prover(alloc, &bytes)?;
    Ok(file)
}

/// The verifier's file of this name.
pub fn load_verifier<F: Shelf>(
    alloc: Global,
    shelf: &mut F,
    name: &str,
) -> Result<VerifierFile, Refusal>
    ensures file { IfOk result (IsVerifierFileAt (F.state shelf.old).told name.now) }
    ensures stop { IfErr result
        (FileStop Verifier name.now (change (F.state shelf.old) (F.state shelf.new))) }
    ensures kept { OnlyLoads (IsName name.now) (change (F.state shelf.old) (F.state shelf.new)) }
    ensures quiet { OnOk result (F.state shelf.new ≡ F.state shelf.old) }
{
    let bytes = load_file(alloc, shelf, name)?;
    let file = decode_verifier(alloc, &bytes)?;
    Ok(file)
}
