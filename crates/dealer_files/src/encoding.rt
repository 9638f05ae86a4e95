// Files as bytes.
ghost use Rattle.std.specs.Prelude.{◌≡◌, ◌++◌, flat_map, OnOk};
ghost use Rattle.zk_model.specs.Bytes.{element_bytes};
ghost use Rattle.zk_model.specs.FileBytes.{header_bytes, params_bytes, pair_bytes, transfer_bytes, pads_bytes, kind_code, sealed};

use crate::head::{Head, magic_word};
use crate::transfer::Transfer;
use mersenne_field::{Fe, Pair};
use sha2::{Digest, Sha256};
use std::alloc::AllocError;
use zk_model::{BlockPair, Kind, Params};

/// Appends the first 128 bytes of a file.
pub(crate) fn push_header(bytes: &mut Vec<u8>, side: u8, head: &Head) -> Result<(), AllocError>
    ensures { OnOk result (bytes.new.items ≡ bytes.old.items
        ++ header_bytes head.now.version side head.now.params head.now.id head.now.coin_key head.now.code_seed) }
{
    bytes.extend_from_slice(magic_word(head.version))?;
    bytes.push(side)?;
    push_params(bytes, &head.params)?;
    bytes.extend_from_slice(&head.id)?;
    bytes.extend_from_slice(&head.coin_key)?;
    bytes.extend_from_slice(&head.code_seed)?;
    Ok(())
}

/// Appends what a file was made for.
fn push_params(bytes: &mut Vec<u8>, params: &Params) -> Result<(), AllocError>
    ensures { OnOk result (bytes.new.items ≡ bytes.old.items ++ params_bytes params.now) }
{
    bytes.extend_from_slice(&[kind_code(params.kind), params.height, 0])?;
    bytes.extend_from_slice(&params.trees.to_le_bytes())?;
    bytes.extend_from_slice(&params.base.to_le_bytes())?;
    bytes.extend_from_slice(&[0; 4])?;
    bytes.extend_from_slice(&params.total.to_le_bytes())?;
    Ok(())
}

/// The byte of a kind.
fn kind_code(kind: Kind) -> u8
    ensures { result ≡ kind_code kind }
{
    match kind {
        Kind::Direct => 0,
        Kind::Extended => 1,
    }
}

/// Appends pairs, 16 bytes each.
pub(crate) fn push_pairs(bytes: &mut Vec<u8>, pairs: &[Pair]) -> Result<(), AllocError>
    ensures { OnOk result (bytes.new.items ≡ bytes.old.items ++ flat_map pair_bytes pairs.now) }
{
    for pair in pairs {
        bytes.extend_from_slice(&pair.x.to_le())?;
        bytes.extend_from_slice(&pair.m.to_le())?;
    }
    Ok(())
}

/// Appends elements, 8 bytes each.
pub(crate) fn push_elements(bytes: &mut Vec<u8>, elements: &[Fe]) -> Result<(), AllocError>
    ensures { OnOk result (bytes.new.items ≡ bytes.old.items ++ flat_map element_bytes elements.now) }
{
    for element in elements {
        bytes.extend_from_slice(&element.to_le())?;
    }
    Ok(())
}

/// Appends the prover's halves of transfers, 17 bytes each.
pub(crate) fn push_transfers(bytes: &mut Vec<u8>, transfers: &[Transfer]) -> Result<(), AllocError>
    ensures { OnOk result (bytes.new.items ≡ bytes.old.items ++ flat_map transfer_bytes transfers.now) }
{
    for transfer in transfers {
        bytes.push(u8::from(transfer.bit))?;
        bytes.extend_from_slice(&transfer.pad)?;
    }
    Ok(())
}

/// Appends both pads of transfers, 32 bytes each.
pub(crate) fn push_pads(bytes: &mut Vec<u8>, pads: &[BlockPair]) -> Result<(), AllocError>
    ensures { OnOk result (bytes.new.items ≡ bytes.old.items ++ flat_map pads_bytes pads.now) }
{
    for both in pads {
        bytes.extend_from_slice(&both.left)?;
        bytes.extend_from_slice(&both.right)?;
    }
    Ok(())
}

/// Appends the digest of all bytes so far (SHA-256 of FIPS 180-4).
pub(crate) fn push_digest(bytes: &mut Vec<u8>) -> Result<(), AllocError>
    ensures { OnOk result (bytes.new.items ≡ sealed bytes.old.items) }
{
    let digest = Sha256::digest(bytes.as_slice());
    bytes.extend_from_slice(&digest)?;
    Ok(())
}
