// Both files from a seed.
ghost use Rattle.std.specs.Prelude.{◌≡◌, ◌+◌, ◌*◌, ◌/◌, ◌<◌, ◌++◌, length, map, flat_map, IfOk, OnOk};
ghost use Rattle.std.specs.List.{range_with_len};
ghost use Rattle.std.specs.Int.{w64, to_le_bytes};
ghost use Rattle.zk_model.specs.Mac.{fitting_key};
ghost use Rattle.dealer_files.specs.Dealing.{dealt_key, dealt_code_seed, dealt_version, dealt_pairs, dealt_pads, dealt_transfer, dealt_prover, dealt_verifier};
ghost use Rattle.zk_model.specs.Files.{AreParams, IsProverFile, IsVerifierFile, AreDealt};
ghost use Rattle.dealer_files.specs.Flat.{unit_by_unit};
ghost use Rattle.dealer_files.specs.Words.{word_pair, word_pads, word_transfer};

use crate::head::Head;
use crate::prover_file::ProverFile;
use crate::transfer::Transfer;
use crate::unit::{dealt_per_unit, transfers_per_unit};
use crate::verifier_file::VerifierFile;
use mersenne_field::{Fe, Pair};
use std::alloc::{AllocError, Global};
use zk_coins::CoinBox;
use zk_model::{BlockPair, FileVersion, Kind, MAX_DEALT_AS_FIRST, Params};

/// The two files that a seed of 32 bytes gives: for the prover values x and MACs m, and for the verifier keys
/// `m + x * key` (vector OLE: Weng, Yang, Katz and Wang, Wolverine, IEEE S&P 2021). In kind extended also two random pads
/// for each transfer, of which the prover gets the one that a random bit names. Up to 65,535 units are dealt in the first version
/// of files, more in the second. Each stream of coins is walked once.
///
/// # Errors
///
/// Only where memory runs out.
pub fn deal(
    alloc: Global,
    params: &Params,
    seed: &[u8; 32],
) -> Result<(ProverFile, VerifierFile), AllocError>
    requires { AreParams params.now }
    ensures prover { IfOk result (λ files. files.0 ≡ dealt_prover params.now seed.now) }
    ensures verifier { IfOk result (λ files. files.1 ≡ dealt_verifier params.now seed.now) }
    ensures files { IfOk result (λ files. IsProverFile files.0 × IsVerifierFile files.1) }
    ensures dealt { IfOk result (λ files. AreDealt files.0 files.1) }
{
    let coins = CoinBox::new(seed);
    let pairs = deal_pairs(alloc, &coins, params)?;
    let key = deal_key(&coins);
    let keys = keys_of(alloc, key, &pairs)?;
    let DealtTransfers { transfers, pads } = deal_transfers(alloc, &coins, params)?;
    let id = coins.bytes(0);
    let code_seed = deal_code_seed(&coins, params.kind);
    let version = version_for(params.total);
    let head = Head {
        version,
        params: *params,
        id,
        coin_key: coins.bytes(1),
        code_seed,
    };
    let prover = ProverFile::new(head, pairs, transfers);
    let coin_key = coins.bytes(2);
    let verifier = VerifierFile::new(Head { coin_key, ..head }, key, keys, pads);
    Ok((prover, verifier))
}

/// The version in which so many units are dealt.
fn version_for(total: u64) -> FileVersion
    ensures { result ≡ dealt_version total }
{
    if total <= MAX_DEALT_AS_FIRST {
        FileVersion::First
    } else {
        FileVersion::Second
    }
}

/// The verifier's one key, which is not 0.
fn deal_key(coins: &CoinBox) -> Fe
    ensures { result ≡ dealt_key coins.now }
{
    let key = Fe::from_word(coins.word(4, 0));
    if key == Fe::ZERO { Fe::ONE } else { key }
}

/// The seed of the code, zero bytes where there is none.
fn deal_code_seed(coins: &CoinBox, kind: Kind) -> [u8; 32]
    ensures { result ≡ dealt_code_seed kind coins.now }
{
    match kind {
        Kind::Direct => [0; 32],
        Kind::Extended => coins.bytes(3),
    }
}

/// The keys that fit pairs under the verifier's one key.
fn keys_of(alloc: Global, key: Fe, pairs: &[Pair]) -> Result<Vec<Fe>, AllocError>
    ensures { IfOk result (λ keys. keys.items ≡ map (fitting_key key) pairs.now) }
{
    pairs
        .iter()
        .map(|pair| pair.m + pair.x * key)
        .collect(alloc)
}

/// The pairs of all units, unit by unit.
fn deal_pairs(alloc: Global, coins: &CoinBox, params: &Params) -> Result<Vec<Pair>, AllocError>
    requires { AreParams params.now }
    ensures { IfOk result (λ pairs. pairs.items
        ≡ flat_map (dealt_pairs params.now coins.now) (range_with_len 0 params.now.total)) }
{
    let each = dealt_per_unit(params);
    let mut buffer = Vec::from_elem(alloc, 0u64, 2 * each)?;
    let words = buffer.as_mut_slice();
    let mut pairs = Vec::new(alloc);
    for unit in 0..params.total {
        coins.words(16 + 2 * unit, 0, words);
        push_pairs(words, &mut pairs)?;
    }
    Ok(pairs)
}

/// The pairs of a unit from its words, two words a pair.
fn push_pairs(words: &[u64], pairs: &mut Vec<Pair>) -> Result<(), AllocError>
    ensures { OnOk result (pairs.new.items
        ≡ pairs.old.items ++ map (word_pair words.now) (range_with_len 0 (length words.now / 2))) }
{
    for j in 0..words.len() / 2 {
        pairs.push(Pair {
            x: Fe::from_word(words[2 * j]),
            m: Fe::from_word(words[2 * j + 1]),
        })?;
    }
    Ok(())
}

/// Both sides of the transfers of all units, unit by unit.
#[derive(Drop)]
struct DealtTransfers {
    transfers: Vec<Transfer>,
    pads: Vec<BlockPair>,
}

/// Both sides of the transfers of all units, unit by unit.
fn deal_transfers(
    alloc: Global,
    coins: &CoinBox,
    params: &Params,
) -> Result<DealtTransfers, AllocError>
    requires { AreParams params.now }
    ensures transfers { IfOk result (λ dealt. dealt.transfers.items
        ≡ unit_by_unit params.now (dealt_transfer coins.now)) }
    ensures pads { IfOk result (λ dealt. dealt.pads.items
        ≡ unit_by_unit params.now (dealt_pads coins.now)) }
{
    let each = transfers_per_unit(params);
    let mut buffer = Vec::from_elem(alloc, 0u64, 5 * each)?;
    let words = buffer.as_mut_slice();
    let mut transfers = Vec::new(alloc);
    let mut pads = Vec::new(alloc);
    for unit in 0..params.total {
        coins.words(17 + 2 * unit, 0, words);
        push_transfers(words, &mut transfers, &mut pads)?;
    }
    Ok(DealtTransfers { transfers, pads })
}

/// Both sides of the transfers of a unit from its words, five words a transfer.
fn push_transfers(
    words: &[u64],
    transfers: &mut Vec<Transfer>,
    pads: &mut Vec<BlockPair>,
) -> Result<(), AllocError>
    ensures transfers { OnOk result (transfers.new.items
        ≡ transfers.old.items ++ map (word_transfer words.now) (range_with_len 0 (length words.now / 5))) }
    ensures pads { OnOk result (pads.new.items
        ≡ pads.old.items ++ map (word_pads words.now) (range_with_len 0 (length words.now / 5))) }
{
    for i in 0..words.len() / 5 {
        transfers.push(transfer_of(words, i))?;
        pads.push(pads_of(words, i))?;
    }
    Ok(())
}

/// The prover's half of a transfer, by the lowest bit of its last word.
fn transfer_of(words: &[u64], i: usize) -> Transfer
    requires { 5 * i + 4 < length words.now }
    ensures { result ≡ word_transfer words.now i }
{
    let bit = words[5 * i + 4] % 2 == 1;
    Transfer {
        bit,
        pad: pads_of(words, i).choice(bit),
    }
}

/// Both pads of a transfer, from its first four words.
fn pads_of(words: &[u64], i: usize) -> BlockPair
    requires { 5 * i + 4 < length words.now }
    ensures { result ≡ word_pads words.now i }
{
    BlockPair {
        left: pad_of(words[5 * i], words[5 * i + 1]),
        right: pad_of(words[5 * i + 2], words[5 * i + 3]),
    }
}

/// Two words as 16 bytes, each with its low byte first.
fn pad_of(first: u64, second: u64) -> [u8; 16]
    ensures { result ≡ to_le_bytes w64 first ++ to_le_bytes w64 second }
{
    let mut bytes = [0; 16];
    let (front, back) = bytes.split_at_mut(8);
    front.copy_from_slice(&first.to_le_bytes());
    back.copy_from_slice(&second.to_le_bytes());
    bytes
}
