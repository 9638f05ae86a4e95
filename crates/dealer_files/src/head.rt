// The header of a file, read.
ghost use Rattle.std.specs.Int.{w32, w64, to_le_bytes};
ghost use Rattle.std.specs.Prelude.{◌≡◌, ◌*◌, ◌^◌, ◌<◌, ◌≤◌, ◌+◌, ◌↔◌, length, take, drop, slice_index, replicate, codes, IsTrue, IfOk, IfErr};
ghost use Rattle.zk_model.specs.Files.{AreParams, AreWithinLimits, IsCodeSeed, most_units};
ghost use Rattle.zk_model.specs.FileBytes.{header_bytes, magic_word};
ghost use Rattle.dealer_files.specs.FileFaults.{side_code, params_at, version_at, word32_at, word64_at, block_length, file_length, HasMagic, IsOfSide, HasParams, HasDigest};
ghost use Rattle.zk_model.specs.Bytes.{AreBytes, element_bytes};
ghost use Rattle.zk_model.specs.Field.{prime, IsElement};
ghost use Rattle.dealer_files.specs.declared.fault.FileFault.TheVariants as fault;
ghost use Rattle.dealer_files.specs.Faults.{HasHead, HasBody, SpellsNumbers, IsFirstFileFault};

use crate::fault::FileFault;
use crate::unit::{dealt_per_unit, transfers_per_unit};
use mersenne_field::Fe;
use sha2::{Digest, Sha256};
use zk_model::{
    FileVersion, Kind, MAX_BASE, MAX_DEALT_UNITS, MAX_FIRST_UNITS, MAX_HEIGHT, MAX_TREES, Params,
    Side,
};

/// What a header says: the version, what a file was made for, its id, the key of its side's coins, and the seed of the code.
#[derive(Clone, Copy, Debug)]
pub(crate) struct Head {
    pub version: FileVersion,
    pub params: Params,
    pub id: [u8; 32],
    pub coin_key: [u8; 32],
    pub code_seed: [u8; 32],
}

/// The bytes from a place on, as many as the array has.
pub(crate) fn bytes_at<const N: usize>(bytes: &[u8], at: usize) -> [u8; N]
    requires { at + N ≤ length bytes.now }
    ensures array { result ≡ take N (drop at bytes.now) }
    ensures octets { AreBytes N result }
{
    let mut array = [0; N];
    array.copy_from_slice(&bytes[at..at + N]);
    array
}

/// The number that 8 bytes from a place on say.
fn word64_at(bytes: &[u8], at: usize) -> u64
    requires { at + 8 ≤ length bytes.now }
    ensures number { result ≡ word64_at bytes.now at }
    ensures spelling { to_le_bytes w64 result ≡ take 8 (drop at bytes.now) }
{
    u64::from_le_bytes(bytes_at(bytes, at))
}

/// The number that 4 bytes from a place on say.
fn word32_at(bytes: &[u8], at: usize) -> u32
    requires { at + 4 ≤ length bytes.now }
    ensures number { result ≡ word32_at bytes.now at }
    ensures spelling { to_le_bytes w32 result ≡ take 4 (drop at bytes.now) }
{
    u32::from_le_bytes(bytes_at(bytes, at))
}

/// The byte of a side.
pub(crate) fn side_code(side: Side) -> u8
    ensures { result ≡ side_code side }
{
    match side {
        Side::Prover => 0,
        Side::Verifier => 1,
    }
}

/// What a file was made for.
fn params_of(bytes: &[u8]) -> Params
    requires header { 128 ≤ length bytes.now }
    requires kind { slice_index bytes.now 9 ≤ 1 }
    ensures params { result ≡ params_at bytes.now }
    ensures spelled { SpellsNumbers bytes.now result }
{
    Params {
        kind: if bytes[9] == 0 {
            Kind::Direct
        } else {
            Kind::Extended
        },
        height: bytes[10],
        trees: word32_at(bytes, 12),
        base: word32_at(bytes, 16),
        total: word64_at(bytes, 24),
    }
}

/// Whether the numbers are within their limits.
fn are_params(params: &Params) -> bool
    ensures { IsTrue result ↔ AreParams params.now }
{
    1 <= params.total && params.total <= MAX_DEALT_UNITS && are_within_limits(params)
}

/// Whether height, trees and base are within those of the kind.
fn are_within_limits(params: &Params) -> bool
    ensures { IsTrue result ↔ AreWithinLimits params.now.kind params.now }
{
    let Params {
        kind,
        height,
        trees,
        base,
        ..
    } = *params;
    match kind {
        Kind::Direct => height == 0 && trees == 0 && base == 0,
        Kind::Extended => {
            1 <= height
                && height <= MAX_HEIGHT
                && 1 <= trees
                && trees <= MAX_TREES
                && 10 <= base
                && base <= MAX_BASE
        }
    }
}

/// Whether a seed is one of the code of this kind.
fn is_code_seed(kind: Kind, seed: &[u8; 32]) -> bool
    ensures { IsTrue result ↔ IsCodeSeed kind seed.now }
{
    match kind {
        Kind::Direct => *seed == [0; 32],
        Kind::Extended => true,
    }
}

/// The magic word of a version.
pub(crate) fn magic_word(version: FileVersion) -> &'static [u8; 8]
    ensures { result.now ≡ magic_word version }
{
    match version {
        FileVersion::First => b"WQSFILE1",
        FileVersion::Second => b"WQSFILE2",
    }
}

/// The version that the eighth byte names.
fn version_of(bytes: &[u8]) -> FileVersion
    requires { 8 ≤ length bytes.now }
    ensures { result ≡ version_at bytes.now }
{
    if bytes[7] == b'2' {
        FileVersion::Second
    } else {
        FileVersion::First
    }
}

/// Whether bytes begin with a magic word.
fn has_magic(bytes: &[u8]) -> bool
    ensures { IsTrue result ↔ HasMagic bytes.now }
{
    bytes.len() >= 8 && bytes.starts_with(magic_word(version_of(bytes)))
}

/// The most units that a file of a version has.
fn most_units(version: FileVersion) -> u64
    ensures { result ≡ most_units version }
{
    match version {
        FileVersion::First => MAX_FIRST_UNITS,
        FileVersion::Second => MAX_DEALT_UNITS,
    }
}

/// Whether a header is of this side and of a kind that there is.
fn is_of_side(bytes: &[u8], side: Side) -> bool
    requires { 128 ≤ length bytes.now }
    ensures { IsTrue result ↔ IsOfSide side bytes.now }
{
    bytes[8] == side_code(side) && bytes[9] <= 1
}

/// Whether a header's numbers and seed are within their limits, and zero bytes stand between.
fn has_params(bytes: &[u8]) -> bool
    requires header { 128 ≤ length bytes.now }
    requires kind { slice_index bytes.now 9 ≤ 1 }
    ensures { IsTrue result ↔ HasParams bytes.now }
{
    let params = params_of(bytes);
    bytes[11] == 0
        && bytes[20..24] == [0; 4]
        && are_params(&params)
        && params.total <= most_units(version_of(bytes))
        && is_code_seed(params.kind, &bytes_at(bytes, 96))
}

/// How many bytes the block of a unit has.
pub(crate) fn block_length(side: Side, params: &Params) -> u64
    requires { AreParams params.now }
    ensures count { result ≡ block_length side params.now }
    ensures at_most { result ≤ 2 ^ 21 }
{
    let dealt = dealt_per_unit(params) as u64;
    let transfers = transfers_per_unit(params) as u64;
    match side {
        Side::Prover => 16 * dealt + 17 * transfers,
        Side::Verifier => 8 * dealt + 32 * transfers,
    }
}

/// How many bytes the file of this side has.
pub fn file_length(side: Side, params: &Params) -> u64
    requires { AreParams params.now }
    ensures { result ≡ file_length side params.now }
{
    let start = match side {
        Side::Prover => 128,
        Side::Verifier => 136,
    };
    start + block_length(side, params) * params.total + 32
}

/// Reads the header, and tests the length of the file by it.
pub(crate) fn read_head(bytes: &[u8], side: Side) -> Result<Head, FileFault>
    ensures head { IfOk result (λ _. HasBody side bytes.now) }
    ensures version { IfOk result (λ head. head.version ≡ version_at bytes.now) }
    ensures params { IfOk result (λ head. head.params ≡ params_at bytes.now) }
    ensures spelled { IfOk result (λ head. SpellsNumbers bytes.now head.params) }
    ensures id { IfOk result (λ head. head.id ≡ take 32 (drop 32 bytes.now)) }
    ensures coin_key { IfOk result (λ head. head.coin_key ≡ take 32 (drop 64 bytes.now)) }
    ensures code_seed { IfOk result (λ head. head.code_seed ≡ take 32 (drop 96 bytes.now)) }
    ensures octets { IfOk result (λ head. AreBytes 32 head.id × AreBytes 32 head.coin_key) }
    ensures fault { IfErr result (λ fault. IsFirstFileFault side bytes.now fault) }
{
    if !has_magic(bytes) {
        return Err(FileFault::BadMagic);
    }
    let got = bytes.len() as u64;
    if got < 128 {
        return Err(FileFault::Length { need: 128, got });
    }
    if !is_of_side(bytes, side) {
        return Err(FileFault::BadKind);
    }
    if !has_params(bytes) {
        return Err(FileFault::BadParam);
    }
    let params = params_of(bytes);
    let need = file_length(side, &params);
    if got != need {
        return Err(FileFault::Length { need, got });
    }
    Ok(Head {
        version: version_of(bytes),
        params,
        id: bytes_at(bytes, 32),
        coin_key: bytes_at(bytes, 64),
        code_seed: bytes_at(bytes, 96),
    })
}

/// The element at a place.
pub(crate) fn read_element(bytes: &[u8], at: usize) -> Result<Fe, FileFault>
    requires { at + 8 ≤ length bytes.now }
    ensures read { IfOk result (λ element. element_bytes element ≡ take 8 (drop at bytes.now)) }
    ensures value { IfOk result (λ element. element ≡ word64_at bytes.now at) }
    ensures element { IfOk result (λ element. IsElement element) }
    ensures good { IfOk result (λ _. word64_at bytes.now at < prime) }
    ensures fault { IfErr result (λ reason. reason ≡ fault.BadElement at) }
    ensures bad { IfErr result (λ _. prime ≤ word64_at bytes.now at) }
{
    let mut word = [0; 8];
    word.copy_from_slice(&bytes[at..at + 8]);
    match Fe::from_le(&word) {
        Some(element) => {
            let _value = element.value();
            Ok(element)
        }
        None => Err(FileFault::BadElement { place: at as u64 }),
    }
}

/// Whether the last 32 bytes are the digest of those before them (SHA-256 of FIPS 180-4).
pub(crate) fn has_digest(bytes: &[u8]) -> bool
    requires { 32 ≤ length bytes.now }
    ensures { IsTrue result ↔ HasDigest bytes.now }
{
    let (front, digest) = bytes.split_at(bytes.len() - 32);
    digest == Sha256::digest(front).as_slice()
}
