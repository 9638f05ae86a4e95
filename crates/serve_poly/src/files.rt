// The constraints that are served, and the verifier's file.
ghost use Rattle.std.specs.Prelude.{◌≡◌, ◌≤◌, IfOk, IfErr, OnOk, string_bytes};
ghost use Rattle.zk_model.specs.Bytes.{AreBytes};
ghost use Rattle.zk_port.specs.Changes.{change};
ghost use Rattle.command_words.specs.Commands.{serve_poly_of};
ghost use Rattle.poly_model.specs.declared.limits.TheConstants.{MAX_VARIABLES};
ghost use Rattle.poly_files.specs.PolyFiles.{HasPoly};
ghost use Rattle.file_commands.specs.Effects.{OnlyLoads};
ghost use Rattle.file_commands.specs.Stops.{IsVerifierFileAt};
ghost use Rattle.serve_poly.specs.PolyServices.{IsLoadedName, LacksFiles};

use command_words::ServePolyAsk;
use dealer_files::VerifierFile;
use file_commands::{Refusal, load_verifier};
use poly_files::{DigestedPolys, load_polys};
use std::alloc::Global;
use zk_port::Shelf;

/// What is served: the constraints, with the digest of their text, and the file.
#[derive(Drop)]
pub(crate) struct ServedFiles {
    pub(crate) constraints: DigestedPolys,
    pub(crate) file: VerifierFile,
}

/// The constraints and the file that are named.
pub(crate) fn load_files<F: Shelf>(
    alloc: Global,
    shelf: &mut F,
    ask: &ServePolyAsk<String>,
) -> Result<ServedFiles, Refusal>
    ensures constraints { IfOk result (λ files. HasPoly (F.state shelf.old).told (string_bytes ask.now.text)
        files.constraints.polys files.constraints.digest) }
    ensures octets { IfOk result (λ files. AreBytes 32 files.constraints.digest) }
    ensures few { IfOk result (λ files. files.constraints.polys.variables ≤ MAX_VARIABLES) }
    ensures file { IfOk result (λ files.
        IsVerifierFileAt (F.state shelf.old).told (string_bytes ask.now.file) files.file) }
    ensures stop { IfErr result (LacksFiles (serve_poly_of ask.now)
        (change (F.state shelf.old) (F.state shelf.new))) }
    ensures kept { OnlyLoads (IsLoadedName (serve_poly_of ask.now))
        (change (F.state shelf.old) (F.state shelf.new)) }
    ensures quiet { OnOk result (F.state shelf.new ≡ F.state shelf.old) }
{
    let constraints = load_polys(alloc, shelf, &ask.text)?;
    let file = load_verifier(alloc, shelf, &ask.file)?;
    Ok(ServedFiles { constraints, file })
}
