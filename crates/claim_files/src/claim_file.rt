// The claims that words name, loaded.
ghost use Rattle.std.specs.Prelude.{◌≡◌, IfOk, IfErr, OnOk};
ghost use Rattle.zk_port.specs.Changes.{change};
ghost use Rattle.file_commands.specs.Effects.{OnlyLoads, IsName};
ghost use Rattle.file_commands.specs.Stops.{ClaimStop};
ghost use Rattle.claim_files.specs.ArithFiles.{ArithClaimStop, IsEither};
ghost use Rattle.claim_files.specs.NamedClaims.{IsClaimName, IsStatementOf, LacksStatement};
ghost use Rattle.claim_files.specs.declared.claim_names.ClaimNames.TheVariants as names;

use crate::arith_file::{ArithOutputs, load_arith_claim};
use crate::claim_names::{ClaimNames, NamedElements};
use file_commands::{ClaimedCircuit, Refusal, load_claimed};
use session_core::CircuitClaim;
use statement_file::NamedClaim;
use std::alloc::Global;
use std::thread::Threads;
use zk_port::Shelf;

/// The claim that the circuit under its name gives the outputs with these public bits.
fn load_boolean<R: Threads + Sync, F: Shelf>(
    rt: &R,
    alloc: Global,
    shelf: &mut F,
    named: &NamedClaim,
) -> Result<CircuitClaim, Refusal>
    ensures claim { IfOk result (IsStatementOf (F.state shelf.old).told (names.Boolean named.now)) }
    ensures stop { IfErr result (ClaimStop named.now.circuit named.now.public named.now.outputs
        (change (F.state shelf.old) (F.state shelf.new))) }
    ensures kept { OnlyLoads (IsName named.now.circuit) (change (F.state shelf.old) (F.state shelf.new)) }
    ensures quiet { OnOk result (F.state shelf.new ≡ F.state shelf.old) }
{
    let (public, outputs) = (named.public(), named.outputs());
    let claimed = load_claimed(rt, alloc, shelf, named.circuit(), public, outputs)?;
    let ClaimedCircuit { circuit, digest } = claimed;
    Ok(CircuitClaim::new(alloc, circuit, digest, public, outputs)?)
}

/// The claim that the arithmetic circuit under its name gives the elements under the other.
fn load_arithmetic<R: Threads + Sync, F: Shelf>(
    rt: &R,
    alloc: Global,
    shelf: &mut F,
    named: &NamedElements,
) -> Result<CircuitClaim, Refusal>
    ensures claim { IfOk result (IsStatementOf (F.state shelf.old).told (names.Arithmetic named.now)) }
    ensures stop { IfErr result (ArithClaimStop named.now.circuit named.now.outputs
        (change (F.state shelf.old) (F.state shelf.new))) }
    ensures kept { OnlyLoads (IsEither named.now.circuit named.now.outputs)
        (change (F.state shelf.old) (F.state shelf.new)) }
    ensures quiet { OnOk result (F.state shelf.new ≡ F.state shelf.old) }
{
    let claimed = load_arith_claim(rt, alloc, shelf, named.circuit(), named.outputs())?;
    let ArithOutputs {
        circuit,
        digest,
        outputs,
    } = claimed;
    Ok(CircuitClaim::of_arith(alloc, circuit, digest, &outputs)?)
}

/// The claim of these names, with its circuit's program.
///
/// # Errors
///
/// The refusal of what can't be had: the circuit's file, or that of the outputs; `Refusal::ManyPublic`, `Refusal::WrongOutputs` or
/// `Refusal::BadElements` where these do not fit the circuit; `Refusal::NoMemory`.
pub fn load_claim<R: Threads + Sync, F: Shelf>(
    rt: &R,
    alloc: Global,
    shelf: &mut F,
    names: &ClaimNames,
) -> Result<CircuitClaim, Refusal>
    ensures claim { IfOk result (IsStatementOf (F.state shelf.old).told names.now) }
    ensures stop { IfErr result (LacksStatement names.now (change (F.state shelf.old) (F.state shelf.new))) }
    ensures kept { OnlyLoads (IsClaimName names.now) (change (F.state shelf.old) (F.state shelf.new)) }
    ensures quiet { OnOk result (F.state shelf.new ≡ F.state shelf.old) }
{
    match names {
        ClaimNames::Boolean(named) => load_boolean(rt, alloc, shelf, named),
        ClaimNames::Arithmetic(named) => load_arithmetic(rt, alloc, shelf, named),
    }
}
