// How much a unit holds, and where it stands.
ghost use Rattle.std.specs.Prelude.{◌≡◌, ◌*◌, ◌≤◌};
ghost use Rattle.zk_model.specs.Files.{AreParams, dealt_per_unit};
ghost use Rattle.dealer_files.specs.Flat.{transfers_per_unit};

use zk_model::{Kind, Params};

/// How many correlations a unit holds as dealt.
pub(crate) fn dealt_per_unit(params: &Params) -> usize
    requires { AreParams params.now }
    ensures count { result ≡ dealt_per_unit params.now }
    ensures at_most { result ≤ 66560 }
{
    match params.kind {
        Kind::Direct => 64,
        Kind::Extended => params.base as usize + params.trees as usize,
    }
}

/// How many transfers a unit holds.
pub(crate) fn transfers_per_unit(params: &Params) -> usize
    requires { AreParams params.now }
    ensures count { result ≡ transfers_per_unit params.now }
    ensures at_most { result ≤ 16384 }
{
    params.trees as usize * usize::from(params.height)
}

/// How many correlations the units before this one hold, and so where its first one stands.
pub(crate) fn first_dealt(params: &Params, unit: u64) -> usize
    requires params { AreParams params.now }
    requires unit { unit ≤ params.now.total }
    ensures { result ≡ dealt_per_unit params.now * unit }
{
    dealt_per_unit(params) * unit as usize
}

/// How many transfers the units before this one hold, and so where its first one stands.
pub(crate) fn first_transfer(params: &Params, unit: u64) -> usize
    requires params { AreParams params.now }
    requires unit { unit ≤ params.now.total }
    ensures { result ≡ transfers_per_unit params.now * unit }
{
    transfers_per_unit(params) * unit as usize
}
