// Whether two files are of one dealing.
ghost use Rattle.std.specs.Prelude.{◌≡◌, ◌<◌, ◌↔◌, length, IsTrue, IsOk, IfErr};
ghost use Rattle.std.specs.List.{AllZip};
ghost use Rattle.zk_model.specs.Mac.{AreKeysOf};
ghost use Rattle.zk_model.specs.Files.{IsProverFile, IsVerifierFile, UnitsMatch, AreDealt, prover_unit, verifier_unit};
ghost use Rattle.dealer_files.specs.Dealt.{HeadsAgree, NamesItsPad, IsFirstApart};

use crate::prover_file::ProverFile;
use crate::transfer::Transfer;
use crate::verifier_file::VerifierFile;
use mersenne_field::{Fe, Pair};
use zk_model::{BlockPair, Span};

/// Two files are not of one dealing: this is the first unit in which a key does not fit its pair, or a pad is not the one
/// that its bit names. It is unit 0 also where the ids, what the files were made for or the seeds of the code differ.
#[derive(Clone, Copy, Debug, PartialEq, Eq)]
pub struct NotDealt {
    pub unit: u64,
}

/// Tells whether two files are of one dealing, and else where not. It takes no memory.
pub fn dealt(prover: &ProverFile, verifier: &VerifierFile) -> Result<(), NotDealt>
    ensures dealt { IsOk result ↔ AreDealt prover.now verifier.now }
    ensures first { IfErr result (λ fault. IsFirstApart prover.now verifier.now fault.unit) }
{
    if !heads_agree(prover, verifier) {
        return Err(NotDealt { unit: 0 });
    }
    for unit in 0..prover.total() {
        if !units_match(prover, verifier, unit) {
            return Err(NotDealt { unit });
        }
    }
    Ok(())
}

/// Whether both files have one id, were made for the same, and have one seed of the code.
fn heads_agree(prover: &ProverFile, verifier: &VerifierFile) -> bool
    ensures agree { IsTrue result ↔ HeadsAgree prover.now verifier.now }
    ensures files { IsProverFile prover.now × IsVerifierFile verifier.now }
{
    prover.id() == verifier.id()
        && prover.params() == verifier.params()
        && prover.code_seed() == verifier.code_seed()
}

/// Whether the halves of a unit fit.
fn units_match(prover: &ProverFile, verifier: &VerifierFile, unit: u64) -> bool
    requires within { unit < prover.now.params.total }
    requires params { prover.now.params ≡ verifier.now.params }
    requires files { IsProverFile prover.now × IsVerifierFile verifier.now }
    ensures { IsTrue result
        ↔ UnitsMatch verifier.now.key (prover_unit prover.now unit) (verifier_unit verifier.now unit) }
{
    let one = Span {
        start: unit,
        end: unit + 1,
    };
    if !keys_fit(verifier.key(), prover.pairs(one), verifier.keys(one)) {
        return false;
    }
    pads_fit(prover.transfers(unit), verifier.pads(unit))
}

/// Whether keys fit pairs, one for one.
fn keys_fit(key: Fe, pairs: &[Pair], keys: &[Fe]) -> bool
    requires { length pairs.now ≡ length keys.now }
    ensures { IsTrue result ↔ AreKeysOf key pairs.now keys.now }
{
    for (i, pair) in pairs.iter().enumerate() {
        if keys[i] != pair.m + pair.x * key {
            return false;
        }
    }
    true
}

/// Whether each transfer's pad is the one of both that its bit names.
fn pads_fit(transfers: &[Transfer], pads: &[BlockPair]) -> bool
    requires { length transfers.now ≡ length pads.now }
    ensures { IsTrue result ↔ AllZip NamesItsPad transfers.now pads.now }
{
    for (i, transfer) in transfers.iter().enumerate() {
        if transfer.pad != pads[i].choice(transfer.bit) {
            return false;
        }
    }
    true
}
