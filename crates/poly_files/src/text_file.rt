// Constraints that stand as files.
ghost use Rattle.std.specs.Prelude.{◌≡◌, ◌⊎◌, ◌≤◌, IfOk, IfErr, OnOk};
ghost use Rattle.sha2.specs.Sha256.{sha256};
ghost use Rattle.zk_model.specs.Bytes.{AreBytes};
ghost use Rattle.zk_port.specs.Changes.{change};
ghost use Rattle.poly_model.specs.declared.limits.TheConstants.{MAX_VARIABLES};
ghost use Rattle.poly_text.specs.Reads.{IsOnlyFault};
ghost use Rattle.poly_text.specs.Texts.{IsPolyText};
ghost use Rattle.poly_text.specs.declared.fault.PolyFault.{PolyFault};
ghost use Rattle.file_commands.specs.Effects.{OnlyLoads, IsName};
ghost use Rattle.file_commands.specs.declared.refusal.Refusal.TheVariants as stops;
ghost use Rattle.poly_files.specs.PolyFiles.{HasPoly, PolyStop};

use file_commands::{Refusal, load_file};
use poly_model::Polys;
use poly_text::{ReadError, read};
use sha2::{Digest, Sha256};
use std::alloc::Global;
use zk_port::Shelf;

/// Constraints, with SHA-256 of their text.
#[derive(Drop)]
pub struct DigestedPolys {
    pub polys: Polys,
    pub digest: [u8; 32],
}

/// The constraints that a text says.
fn read_polys(alloc: Global, text: &[u8]) -> Result<Polys, Refusal>
    ensures says { IfOk result (λ polys. IsPolyText polys text.now) }
    ensures stop { IfErr result (λ stop. (stop ≡ stops.NoMemory)
        ⊎ ((fault : PolyFault) × IsOnlyFault text.now fault × (stop ≡ stops.BadConstraints fault))) }
{
    match read(alloc, text) {
        Ok(polys) => Ok(polys),
        Err(ReadError::Fault(fault)) => Err(Refusal::BadConstraints(fault)),
        Err(ReadError::NoMemory) => Err(Refusal::NoMemory),
    }
}

/// The constraints that the file of this name says, with SHA-256 of its text.
///
/// # Errors
///
/// `BadConstraints` where the text says none, with its first fault; `TooLong` where it is too long to be loaded; `ShelfFailed` where a call of
/// the shelf for it failed; `NoMemory`.
pub fn load_polys<F: Shelf>(
    alloc: Global,
    shelf: &mut F,
    name: &str,
) -> Result<DigestedPolys, Refusal>
    ensures file { IfOk result (λ read. HasPoly (F.state shelf.old).told name.now read.polys read.digest) }
    ensures octets { IfOk result (λ read. AreBytes 32 read.digest) }
    ensures few { IfOk result (λ read. read.polys.variables ≤ MAX_VARIABLES) }
    ensures stop { IfErr result (PolyStop name.now (change (F.state shelf.old) (F.state shelf.new))) }
    ensures kept { OnlyLoads (IsName name.now) (change (F.state shelf.old) (F.state shelf.new)) }
    ensures quiet { OnOk result (F.state shelf.new ≡ F.state shelf.old) }
{
    let text = load_file(alloc, shelf, name)?;
    let polys = read_polys(alloc, &text)?;
    let digest = Sha256::digest(&text);
    Ok(DigestedPolys { polys, digest })
}
