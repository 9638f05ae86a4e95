// The items of blocks, read.
ghost use Rattle.std.specs.Prelude.{◌≡◌, ◌*◌, ◌<◌, ◌≤◌, ◌+◌, length, take, drop, IfOk, IfErr, OnOk};
ghost use Rattle.dealer_files.specs.Reading.{a_pair, an_element, a_transfer, both_pads, AreAppended, AreElementsFrom, AreBits, IsElementFaultOr, IsBitFaultOr};

use crate::fault::FileFault;
use crate::head::{bytes_at, read_element};
use crate::transfer::Transfer;
use mersenne_field::{Fe, Pair};
use std::alloc::AllocError;
use zk_model::BlockPair;

/// Reads pairs, 16 bytes each, and appends them.
pub(crate) fn read_pairs(
    bytes: &[u8],
    at: usize,
    count: usize,
    pairs: &mut Vec<Pair>,
) -> Result<(), FileFault>
    requires { at + 16 * count ≤ length bytes.now }
    ensures read { OnOk result
        (AreAppended a_pair pairs.old.items pairs.new.items count bytes.now at) }
    ensures good { OnOk result (AreElementsFrom bytes.now at (2 * count)) }
    ensures fault { IfErr result (λ fault. IsElementFaultOr bytes.now at (2 * count) fault) }
{
    for j in 0..count {
        let x = read_element(bytes, at + 8 * (2 * j))?;
        let m = read_element(bytes, at + 8 * (2 * j + 1))?;
        pairs.push(Pair { x, m })?;
    }
    Ok(())
}

/// Reads elements, 8 bytes each, and appends them.
pub(crate) fn read_elements(
    bytes: &[u8],
    at: usize,
    count: usize,
    elements: &mut Vec<Fe>,
) -> Result<(), FileFault>
    requires { at + 8 * count ≤ length bytes.now }
    ensures read { OnOk result
        (AreAppended an_element elements.old.items elements.new.items count bytes.now at) }
    ensures good { OnOk result (AreElementsFrom bytes.now at count) }
    ensures fault { IfErr result (λ fault. IsElementFaultOr bytes.now at count fault) }
{
    for i in 0..count {
        let element = read_element(bytes, at + 8 * i)?;
        elements.push(element)?;
    }
    Ok(())
}

/// Reads the prover's halves of transfers, 17 bytes each, and appends them.
pub(crate) fn read_transfers(
    bytes: &[u8],
    at: usize,
    count: usize,
    transfers: &mut Vec<Transfer>,
) -> Result<(), FileFault>
    requires { at + 17 * count ≤ length bytes.now }
    ensures read { OnOk result
        (AreAppended a_transfer transfers.old.items transfers.new.items count bytes.now at) }
    ensures good { OnOk result (AreBits bytes.now at count) }
    ensures fault { IfErr result (λ fault. IsBitFaultOr bytes.now at count fault) }
{
    for i in 0..count {
        let place = at + 17 * i;
        let bit = bytes[place];
        if bit > 1 {
            return Err(FileFault::BadElement {
                place: place as u64,
            });
        }
        transfers.push(Transfer {
            bit: bit == 1,
            pad: bytes_at(bytes, place + 1),
        })?;
    }
    Ok(())
}

/// Reads both pads of transfers, 32 bytes each, and appends them.
pub(crate) fn read_pads(
    bytes: &[u8],
    at: usize,
    count: usize,
    pads: &mut Vec<BlockPair>,
) -> Result<(), AllocError>
    requires { at + 32 * count ≤ length bytes.now }
    ensures { OnOk result (AreAppended both_pads pads.old.items pads.new.items count bytes.now at) }
{
    for i in 0..count {
        let place = at + 32 * i;
        pads.push(BlockPair {
            left: bytes_at(bytes, place),
            right: bytes_at(bytes, place + 16),
        })?;
    }
    Ok(())
}
