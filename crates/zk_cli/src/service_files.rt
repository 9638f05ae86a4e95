// The claims that are served, and the verifier's file.
ghost use Rattle.std.specs.Prelude.{◌≡◌, IfOk, IfErr, OnOk, string_bytes};
ghost use Rattle.std.specs.List.{AllZip};
ghost use Rattle.zk_port.specs.Changes.{change};
ghost use Rattle.claim_files.specs.NamedClaims.{IsStatementOf};
ghost use Rattle.file_commands.specs.Effects.{OnlyLoads};
ghost use Rattle.file_commands.specs.Stops.{IsVerifierFileAt};
ghost use Rattle.zk_cli.specs.ServeRuns.{IsClaimsName, IsLoadedName, LacksClaim, LacksFiles, service_of};

use crate::serve_command::Service;
use claim_files::{ClaimNames, load_claim};
use dealer_files::VerifierFile;
use file_commands::{Refusal, load_verifier};
use session_core::CircuitClaim;
use std::alloc::Global;
use std::thread::Threads;
use zk_port::Shelf;

/// What is served: the claims, by their numbers, and the file.
#[derive(Drop)]
pub struct ServiceFiles {
    pub claims: Vec<CircuitClaim>,
    pub file: VerifierFile,
}

/// The claims of these names, in order, up to the first that can't be had.
fn load_claims<R: Threads + Sync, F: Shelf>(
    rt: &R,
    alloc: Global,
    shelf: &mut F,
    named: &[ClaimNames],
) -> Result<Vec<CircuitClaim>, Refusal>
    ensures claims { IfOk result (λ claims.
        AllZip (IsStatementOf (F.state shelf.old).told) named.now claims.items) }
    ensures stop { IfErr result (LacksClaim named.now (change (F.state shelf.old) (F.state shelf.new))) }
    ensures kept { OnlyLoads (IsClaimsName named.now) (change (F.state shelf.old) (F.state shelf.new)) }
    ensures quiet { OnOk result (F.state shelf.new ≡ F.state shelf.old) }
{
    let mut claims = Vec::new(alloc);
    for name in named {
        let claim = load_claim(rt, alloc, shelf, name)?;
        match claims.push(claim) {
            Ok(()) => {}
            Err(_) => return Err(Refusal::NoMemory),
        }
    }
    Ok(claims)
}

/// The claims and the file that are named.
pub fn load_files<R: Threads + Sync, F: Shelf>(
    rt: &R,
    alloc: Global,
    shelf: &mut F,
    service: &Service<'_>,
) -> Result<ServiceFiles, Refusal>
    ensures claims { IfOk result (λ files.
        AllZip (IsStatementOf (F.state shelf.old).told) service.now.statements.now files.claims.items) }
    ensures file { IfOk result (λ files.
        IsVerifierFileAt (F.state shelf.old).told (string_bytes service.now.file) files.file) }
    ensures stop { IfErr result (LacksFiles (service_of service.now)
        (change (F.state shelf.old) (F.state shelf.new))) }
    ensures kept { OnlyLoads (IsLoadedName (service_of service.now))
        (change (F.state shelf.old) (F.state shelf.new)) }
    ensures quiet { OnOk result (F.state shelf.new ≡ F.state shelf.old) }
{
    let claims = load_claims(rt, alloc, shelf, service.statements)?;
    let file = load_verifier(alloc, shelf, &service.file)?;
    Ok(ServiceFiles { claims, file })
}
