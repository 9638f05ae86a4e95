// The columns of a file's code.
ghost use Rattle.std.specs.Prelude.{◌≡◌, IfOk};
ghost use Rattle.zk_model.specs.Files.{AreParams};
ghost use Rattle.zk_model.specs.declared.Kind.TheVariants.{Extended};
ghost use Rattle.vole_extend.specs.Rounds.{unit_code};

use linear_code::Columns;
use std::alloc::{AllocError, Global};
use zk_model::Params;

/// The columns of the code of an extended file: for each leaf of all trees of a unit ten of the first base
/// correlations of that unit. They are the same for every unit, so make them once a session.
///
/// # Errors
///
/// Only where memory runs out.
pub fn columns_of(
    alloc: Global,
    params: &Params,
    code_seed: &[u8; 32],
) -> Result<Columns, AllocError>
    requires params { AreParams params.now }
    requires extended { params.now.kind ≡ Extended }
    ensures { IfOk result (λ columns. columns ≡ unit_code params.now code_seed.now) }
{
    let outputs = (params.trees as usize) << params.height;
    let columns = Columns::new(alloc, code_seed, params.base, outputs)?;
    Ok(columns)
}
