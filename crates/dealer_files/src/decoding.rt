// Files, read.
ghost use Rattle.std.specs.Prelude.{◌≡◌, ◌<◌, take, drop, IfOk, IfErr};
ghost use Rattle.zk_model.specs.Bytes.{element_bytes};
ghost use Rattle.zk_model.specs.Field.{prime, IsElement};
ghost use Rattle.zk_model.specs.FileBytes.{prover_file_bytes, verifier_file_bytes};
ghost use Rattle.dealer_files.specs.FileFaults.{params_at, word64_at};
ghost use Rattle.zk_model.specs.declared.Side.TheVariants.{Prover, Verifier};
ghost use Rattle.dealer_files.specs.Faults.{HasBody, IsDealtFile, IsFirstFileFault};
ghost use Rattle.dealer_files.specs.Reading.{a_pair, an_element, a_transfer, both_pads, AreBlocks};

use crate::fault::FileFault;
use crate::head::{block_length, has_digest, read_element, read_head};
use crate::prover_file::ProverFile;
use crate::reading::{read_elements, read_pads, read_pairs, read_transfers};
use crate::transfer::Transfer;
use crate::unit::{dealt_per_unit, first_dealt, first_transfer, transfers_per_unit};
use crate::verifier_file::VerifierFile;
use mersenne_field::{Fe, Pair};
use std::alloc::Global;
use zk_model::{BlockPair, Params, Side};

/// What the blocks of a prover's file hold, unit by unit.
#[derive(Drop)]
struct ProverBlocks {
    pairs: Vec<Pair>,
    transfers: Vec<Transfer>,
}

/// Reads the blocks of a prover's file.
#[tactic(auto, using(crate::proofs::ReadBlocks::start_fits))]
fn read_prover_blocks(
    alloc: Global,
    bytes: &[u8],
    params: &Params,
) -> Result<ProverBlocks, FileFault>
    requires body { HasBody Prover bytes.now }
    requires params { params.now ≡ params_at bytes.now }
    ensures blocks { IfOk result (λ blocks. AreBlocks a_pair a_transfer Prover params.now bytes.now
        params.now.total blocks.pairs.items blocks.transfers.items) }
    ensures fault { IfErr result (λ fault. IsFirstFileFault Prover bytes.now fault) }
{
    let dealt = dealt_per_unit(params);
    let each = transfers_per_unit(params);
    let length = block_length(Side::Prover, params) as usize;
    let mut pairs = Vec::with_capacity(alloc, first_dealt(params, params.total))?;
    let mut transfers = Vec::with_capacity(alloc, first_transfer(params, params.total))?;
    for unit in 0..params.total {
        let start = 128 + length * unit as usize;
        let behind = start + 16 * dealt;
        read_pairs(bytes, start, dealt, &mut pairs)?;
        read_transfers(bytes, behind, each, &mut transfers)?;
    }
    Ok(ProverBlocks { pairs, transfers })
}

/// Reads a prover's file, in one pass and then its digest (SHA-256 of FIPS 180-4). What is read is encoded to the same bytes.
///
/// # Errors
///
/// The first fault that applies, where the bytes are no prover's file, and `NoMemory` where memory runs out.
pub fn decode_prover(alloc: Global, bytes: &[u8]) -> Result<ProverFile, FileFault>
    ensures encoded { IfOk result (λ file. prover_file_bytes file ≡ bytes.now) }
    ensures dealt { IfOk result (λ _. IsDealtFile Prover bytes.now) }
    ensures fault { IfErr result (λ fault. IsFirstFileFault Prover bytes.now fault) }
{
    let head = read_head(bytes, Side::Prover)?;
    let blocks = read_prover_blocks(alloc, bytes, &head.params)?;
    if !has_digest(bytes) {
        return Err(FileFault::BadDigest);
    }
    Ok(ProverFile::new(head, blocks.pairs, blocks.transfers))
}

/// What the blocks of a verifier's file hold, unit by unit.
#[derive(Drop)]
struct VerifierBlocks {
    keys: Vec<Fe>,
    pads: Vec<BlockPair>,
}

/// Reads the verifier's one key.
fn read_key(bytes: &[u8]) -> Result<Fe, FileFault>
    requires { HasBody Verifier bytes.now }
    ensures spelled { IfOk result (λ key. element_bytes key ≡ take 8 (drop 128 bytes.now)) }
    ensures value { IfOk result (λ key. key ≡ word64_at bytes.now 128) }
    ensures element { IfOk result (λ key. IsElement key) }
    ensures good { IfOk result (λ _. word64_at bytes.now 128 < prime) }
    ensures fault { IfErr result (λ fault. IsFirstFileFault Verifier bytes.now fault) }
{
    let key = read_element(bytes, 128)?;
    Ok(key)
}

/// Reads the blocks of a verifier's file, whose key is in range.
#[tactic(auto, using(crate::proofs::ReadBlocks::start_fits))]
fn read_verifier_blocks(
    alloc: Global,
    bytes: &[u8],
    params: &Params,
) -> Result<VerifierBlocks, FileFault>
    requires body { HasBody Verifier bytes.now }
    requires params { params.now ≡ params_at bytes.now }
    requires key { word64_at bytes.now 128 < prime }
    ensures blocks { IfOk result (λ blocks. AreBlocks an_element both_pads Verifier params.now bytes.now
        params.now.total blocks.keys.items blocks.pads.items) }
    ensures fault { IfErr result (λ fault. IsFirstFileFault Verifier bytes.now fault) }
{
    let dealt = dealt_per_unit(params);
    let each = transfers_per_unit(params);
    let length = block_length(Side::Verifier, params) as usize;
    let mut keys = Vec::with_capacity(alloc, first_dealt(params, params.total))?;
    let mut pads = Vec::with_capacity(alloc, first_transfer(params, params.total))?;
    for unit in 0..params.total {
        let start = 136 + length * unit as usize;
        let behind = start + 8 * dealt;
        read_elements(bytes, start, dealt, &mut keys)?;
        read_pads(bytes, behind, each, &mut pads)?;
    }
    Ok(VerifierBlocks { keys, pads })
}

/// Reads a verifier's file, in one pass and then its digest (SHA-256 of FIPS 180-4). What is read is encoded to the same
/// bytes.
///
/// # Errors
///
/// The first fault that applies, where the bytes are no verifier's file, and `NoMemory` where memory runs out.
pub fn decode_verifier(alloc: Global, bytes: &[u8]) -> Result<VerifierFile, FileFault>
    ensures encoded { IfOk result (λ file. verifier_file_bytes file ≡ bytes.now) }
    ensures dealt { IfOk result (λ _. IsDealtFile Verifier bytes.now) }
    ensures fault { IfErr result (λ fault. IsFirstFileFault Verifier bytes.now fault) }
{
    let head = read_head(bytes, Side::Verifier)?;
    let key = read_key(bytes)?;
    let blocks = read_verifier_blocks(alloc, bytes, &head.params)?;
    if key == Fe::ZERO {
        return Err(FileFault::ZeroKey);
    }
    if !has_digest(bytes) {
        return Err(FileFault::BadDigest);
    }
    Ok(VerifierFile::new(head, key, blocks.keys, blocks.pads))
}
