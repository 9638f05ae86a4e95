// How many workers there are, how units are shared out among them, and the room that units take.
ghost use Rattle.std.specs.Prelude.{◌≡◌, ◌*◌, ◌≤◌};
ghost use Rattle.zk_model.specs.Files.{AreParams};
ghost use Rattle.zk_model.specs.declared.Kind.TheVariants.{Extended};

use zk_model::Params;

/// How many workers a session's rounds have.
pub const SESSION_WORKERS: u32 = 4;

/// How many correlations a block of several units gives at most: enough to be worth a thread, and few enough to take little memory.
const BLOCK_CORRELATIONS: usize = 16_384;

/// The units that are done at a time: how many, and how many neighbours a block of them has.
#[derive(Clone, Copy)]
pub(crate) struct Wave {
    pub(crate) units: usize,
    pub(crate) block: usize,
}

/// A block for each worker, of as many units as give `BLOCK_CORRELATIONS`, but at least one, and no more than each worker's share.
pub(crate) fn wave_of(params: &Params, units: usize, workers: u32) -> Wave
    requires params { AreParams params.now }
    requires extended { params.now.kind ≡ Extended }
    requires some { 1 ≤ workers }
    ensures units { 1 ≤ result.units }
    ensures block { 1 ≤ result.block }
    ensures few { result.units ≤ result.block * workers }
{
    let worth = (BLOCK_CORRELATIONS >> u32::from(params.height)) / params.trees as usize;
    let workers = workers as usize;
    let block = worth.min(units.div_ceil(workers)).max(1);
    Wave {
        units: block.saturating_mul(workers),
        block,
    }
}

/// How many pairs or keys so many units give: the room to take for them at once.
pub(crate) fn room_of(params: &Params, units: usize) -> usize
    requires params { AreParams params.now }
    requires extended { params.now.kind ≡ Extended }
{
    let leaves = (params.trees as usize) << u32::from(params.height);
    units.saturating_mul(leaves)
}
