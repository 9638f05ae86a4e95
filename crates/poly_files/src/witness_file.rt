// Constraints with values that meet all of them.
ghost use Rattle.std.specs.Prelude.{◌≡◌, ◌≤◌, IfErr, IfOk, OnOk, length};
ghost use Rattle.zk_model.specs.Bytes.{AreBytes};
ghost use Rattle.zk_port.specs.Changes.{change};
ghost use Rattle.poly_model.specs.Constraints.{AreMet};
ghost use Rattle.poly_model.specs.declared.limits.TheConstants.{MAX_VARIABLES};
ghost use Rattle.claim_files.specs.ArithFiles.{IsEither};
ghost use Rattle.file_commands.specs.Effects.{OnlyLoads};
ghost use Rattle.poly_files.specs.PolyFiles.{IsPolyWitness, IsUnmetIn, PolyWitnessStop};

use crate::text_file::{DigestedPolys, load_polys};
use claim_files::load_elements;
use file_commands::Refusal;
use mersenne_field::Fe;
use poly_model::Polys;
use poly_text::holds;
use std::alloc::Global;
use zk_port::Shelf;

/// Constraints, with SHA-256 of their text, and values that meet all of them.
#[derive(Drop)]
pub struct PolyValues {
    pub constraints: DigestedPolys,
    pub values: Vec<Fe>,
}

/// Whether the values meet all constraints.
fn check_met(polys: &Polys, values: &[Fe]) -> Result<(), Refusal>
    ensures met { OnOk result (AreMet polys.now values.now) }
    ensures stop { IfErr result (IsUnmetIn polys.now values.now) }
{
    match holds(polys, values) {
        None => Ok(()),
        Some(constraint) => {
            let output = u64::from(constraint);
            Err(Refusal::Unsatisfied { output })
        }
    }
}

/// The constraints that the file of one name says, with SHA-256 of its text, and the values that the file of another says, one for each
/// variable, which meet all constraints.
///
/// # Errors
///
/// Those of [`load_polys`]; `BadElements` where the values are not so many elements; `Unsatisfied` where they do not meet this constraint, the
/// first one, counted from 0; `TooLong` and `ShelfFailed` of either file; `NoMemory`.
pub fn load_poly_values<F: Shelf>(
    alloc: Global,
    shelf: &mut F,
    text: &str,
    values: &str,
) -> Result<PolyValues, Refusal>
    ensures witness { IfOk result (λ w. IsPolyWitness (F.state shelf.old).told text.now values.now w.constraints.polys
        w.constraints.digest w.values.items) }
    ensures octets { IfOk result (λ w. AreBytes 32 w.constraints.digest) }
    ensures few { IfOk result (λ w. w.constraints.polys.variables ≤ MAX_VARIABLES) }
    ensures counted { IfOk result (λ w. length w.values.items ≡ w.constraints.polys.variables) }
    ensures stop { IfErr result (PolyWitnessStop text.now values.now
        (change (F.state shelf.old) (F.state shelf.new))) }
    ensures kept { OnlyLoads (IsEither text.now values.now)
        (change (F.state shelf.old) (F.state shelf.new)) }
    ensures quiet { OnOk result (F.state shelf.new ≡ F.state shelf.old) }
{
    let constraints = load_polys(alloc, shelf, text)?;
    let need = u64::from(constraints.polys.variables());
    let values = load_elements(alloc, shelf, values, need)?;
    check_met(&constraints.polys, &values)?;
    Ok(PolyValues {
        constraints,
        values,
    })
}
