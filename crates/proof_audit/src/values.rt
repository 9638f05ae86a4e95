// The values of the pairs that a round makes.
ghost use Rattle.std.specs.Prelude.{◌≡◌, ◌+◌, ◌*◌, ◌^◌, ◌<◌, ◌≤◌, [], if◌then◌else◌, length, nat_eq, All, IfOk, slice_index_or, vec_len};
ghost use Rattle.zk_model.specs.Files.{prover_unit};
ghost use Rattle.zk_model.specs.Frames.{AreAsks};
ghost use Rattle.zk_model.specs.Mac.{values_of};
ghost use Rattle.zk_model.specs.Transcript.{IsTreeAsk};
ghost use Rattle.zk_model.specs.declared.Kind.TheVariants.{Extended};
ghost use Rattle.session_core.specs.Extending.{asks_of};
ghost use Rattle.vole_extend.specs.Rounds.{unit_code};
ghost use Rattle.proof_audit.specs.SeenValues.{only_at, tree_values, noise_values, unit_values, round_values};

use dealer_files::{ProverFile, Transfer};
use linear_code::Columns;
use mersenne_field::{Fe, Pair};
use proof_frames::Frame;
use session_core::asks_in;
use std::alloc::{AllocError, Global};
use tree_messages::TreeAsk;
use vole_extend::{columns_of, flip_place};
use zk_model::{Params, Span};

/// The values of pairs.
pub(crate) fn values_of(alloc: Global, pairs: &[Pair]) -> Result<Vec<Fe>, AllocError>
    ensures { IfOk result (λ values. values.items ≡ values_of pairs.now) }
{
    pairs.iter().map(|pair| pair.x).collect(alloc)
}

/// The value at its place, and 0 elsewhere.
fn entry_at(j: u32, place: u32, value: Fe) -> Fe
    ensures { result ≡ (if nat_eq j place then value else 0) }
{
    if j == place { value } else { Fe::ZERO }
}

/// So many elements, 0 but at one place.
fn only_at(alloc: Global, count: u32, place: u32, value: Fe) -> Result<Vec<Fe>, AllocError>
    ensures values { IfOk result (λ values. values.items ≡ only_at count place value) }
    ensures count { IfOk result (λ values. vec_len values ≡ count) }
{
    let mut values = Vec::with_capacity(alloc, count as usize)?;
    for j in 0..count {
        values.push(entry_at(j, place, value))?;
    }
    Ok(values)
}

/// The pairs that were dealt in a unit.
fn dealt_pairs(file: &ProverFile, unit: u64) -> &[Pair]
    requires extended { file.now.params.kind ≡ Extended }
    requires within { unit < file.now.params.total }
    ensures pairs { result.now ≡ (prover_unit file.now unit).pairs }
    ensures count { length result.now ≡ file.now.params.base + file.now.params.trees }
{
    let _params = file.params();
    file.pairs(Span {
        start: unit,
        end: unit + 1,
    })
}

/// The transfers of a tree of a unit, level by level.
fn tree_transfers(file: &ProverFile, unit: u64, tree: u32) -> &[Transfer]
    requires extended { file.now.params.kind ≡ Extended }
    requires within { unit < file.now.params.total }
    requires tree { tree < file.now.params.trees }
    ensures transfers { result.now ≡ slice_index_or (prover_unit file.now unit).trees tree [] }
    ensures count { length result.now ≡ file.now.params.height }
{
    let height = usize::from(file.params().height);
    let start = tree as usize * height;
    &file.transfers(unit)[start..start + height]
}

/// The values of the noise of a tree after an ask.
fn tree_values(
    alloc: Global,
    file: &ProverFile,
    unit: u64,
    tree: u32,
    ask: &TreeAsk,
) -> Result<Vec<Fe>, AllocError>
    requires extended { file.now.params.kind ≡ Extended }
    requires within { unit < file.now.params.total }
    requires tree { tree < file.now.params.trees }
    requires ask { IsTreeAsk file.now.params.height ask.now }
    ensures values { IfOk result (λ values. values.items
        ≡ tree_values file.now.params (prover_unit file.now unit) tree ask.now) }
    ensures count { IfOk result (λ values. vec_len values ≡ 2 ^ file.now.params.height) }
{
    let Params { height, base, .. } = file.params();
    let place = flip_place(tree_transfers(file, unit, tree), &ask.flips);
    let base_pair = dealt_pairs(file, unit)[base as usize + tree as usize];
    let value = base_pair.x + ask.base_correction;
    let values = only_at(alloc, 1 << u32::from(height), place, value)?;
    Ok(values)
}

/// The values of the noise of all trees of a unit after these asks, one tree after another.
fn noise_values(
    alloc: Global,
    file: &ProverFile,
    unit: u64,
    asks: &[TreeAsk],
) -> Result<Vec<Fe>, AllocError>
    requires extended { file.now.params.kind ≡ Extended }
    requires within { unit < file.now.params.total }
    requires asks { AreAsks file.now.params.height file.now.params.trees asks.now }
    ensures values { IfOk result (λ values. values.items
        ≡ noise_values file.now.params (prover_unit file.now unit) asks.now file.now.params.trees) }
    ensures count { IfOk result (λ values. vec_len values
        ≡ file.now.params.trees * 2 ^ file.now.params.height) }
{
    let Params { height, trees, .. } = file.params();
    let mut values = Vec::with_capacity(alloc, (trees as usize) << u32::from(height))?;
    for tree in 0..trees {
        let more = tree_values(alloc, file, unit, tree, &asks[tree as usize])?;
        values.extend_from_slice(&more)?;
    }
    Ok(values)
}

/// The values of a unit's pairs after these asks.
fn unit_values(
    alloc: Global,
    file: &ProverFile,
    columns: &Columns,
    unit: u64,
    asks: &[TreeAsk],
) -> Result<Vec<Fe>, AllocError>
    requires extended { file.now.params.kind ≡ Extended }
    requires within { unit < file.now.params.total }
    requires columns { columns.now ≡ unit_code file.now.params file.now.code_seed }
    requires asks { AreAsks file.now.params.height file.now.params.trees asks.now }
    ensures { IfOk result (λ values. values.items
        ≡ unit_values file.now.params file.now.code_seed (prover_unit file.now unit) asks.now) }
{
    let noise = noise_values(alloc, file, unit, asks)?;
    let base = file.params().base as usize;
    let base_values = values_of(alloc, &dealt_pairs(file, unit)[..base])?;
    let values = columns.apply(alloc, &base_values, &noise)?;
    Ok(values)
}

/// The values of the pairs of all units of a grant after these asks, unit by unit.
///
/// # Errors
///
/// Only where memory runs out.
pub fn round_values(
    alloc: Global,
    file: &ProverFile,
    start: u64,
    asked: &[Frame],
) -> Result<Vec<Fe>, AllocError>
    requires extended { file.now.params.kind ≡ Extended }
    requires within { start + length asked.now ≤ file.now.params.total }
    requires asks { All (AreAsks file.now.params.height file.now.params.trees) (asks_of asked.now) }
    ensures { IfOk result (λ values. values.items
        ≡ round_values file.now start (asks_of asked.now) (length asked.now)) }
{
    let _total = file.total();
    let columns = columns_of(alloc, &file.params(), &file.code_seed())?;
    let mut values = Vec::new(alloc);
    for (i, frame) in asked.iter().enumerate() {
        let unit = start + i as u64;
        let more = unit_values(alloc, file, &columns, unit, asks_in(frame))?;
        values.extend_from_slice(&more)?;
    }
    Ok(values)
}
