// The levels of one tree, from the root's children down: what is asked, masked and unmasked on each of them.
ghost use Rattle.std.specs.Prelude.{◌≡◌, ◌^◌, ◌<◌, ◌≤◌, length, IfOk, vec_len};
ghost use Rattle.vole_extend.specs.Levels.{choice_at, asked_flips, chosen_sums, flip_place, masked_sums};
ghost use Rattle.zk_model.specs.declared.limits.TheConstants.{MAX_HEIGHT};

use dealer_files::Transfer;
use pad_transfer::{ask, reply, unmask};
use std::alloc::{AllocError, Global};
use zk_model::BlockPair;

/// The side away from the way to a leaf, at a level of a tree: true where the way goes left.
fn choice_at(height: u32, place: u32, level: u32) -> bool
    requires inside { level < height }
    requires at_most { height ≤ MAX_HEIGHT }
    ensures { result ≡ choice_at height place level }
{
    (place >> (height - 1 - level)) % 2 != 1
}

/// What is asked on each level of a tree, so that the sum of the side away from the way to a leaf is chosen.
pub(crate) fn asked_flips(
    alloc: Global,
    place: u32,
    transfers: &[Transfer],
) -> Result<Vec<bool>, AllocError>
    requires { length transfers.now ≤ MAX_HEIGHT }
    ensures flips { IfOk result (λ flips. flips.items ≡ asked_flips place transfers.now) }
    ensures count { IfOk result (λ flips. vec_len flips ≡ length transfers.now) }
{
    let height = transfers.len() as u32;
    let mut flips = Vec::with_capacity(alloc, transfers.len())?;
    for (level, transfer) in transfers.iter().enumerate() {
        let choice = choice_at(height, place, level as u32);
        flips.push(ask(transfer.bit, choice))?;
    }
    Ok(flips)
}

/// The sums of the sides away from the way to a leaf, their pads taken off, level by level.
pub(crate) fn chosen_sums(
    alloc: Global,
    place: u32,
    transfers: &[Transfer],
    messages: &[BlockPair],
) -> Result<Vec<[u8; 16]>, AllocError>
    requires at_most { length transfers.now ≤ MAX_HEIGHT }
    requires count { length messages.now ≡ length transfers.now }
    ensures sums { IfOk result (λ sums. sums.items ≡ chosen_sums place transfers.now messages.now) }
    ensures count { IfOk result (λ sums. vec_len sums ≡ length transfers.now) }
{
    let height = transfers.len() as u32;
    let mut sums = Vec::with_capacity(alloc, transfers.len())?;
    for (level, transfer) in transfers.iter().enumerate() {
        let choice = choice_at(height, place, level as u32);
        sums.push(unmask(&transfer.pad, choice, &messages[level]))?;
    }
    Ok(sums)
}

/// Both sums of each level, each under the pad that was asked for.
pub(crate) fn masked_sums(
    alloc: Global,
    pads: &[BlockPair],
    flips: &[bool],
    sums: &[BlockPair],
) -> Result<Vec<BlockPair>, AllocError>
    requires pads { length pads.now ≡ length sums.now }
    requires flips { length flips.now ≡ length sums.now }
    ensures messages { IfOk result (λ messages. messages.items ≡ masked_sums pads.now flips.now sums.now) }
    ensures count { IfOk result (λ messages. vec_len messages ≡ length sums.now) }
{
    let mut messages = Vec::with_capacity(alloc, sums.len())?;
    for (level, both) in sums.iter().enumerate() {
        let BlockPair { left, right } = &pads[level];
        messages.push(reply(left, right, flips[level], &both.left, &both.right))?;
    }
    Ok(messages)
}

/// The place of a tree that flips hide: its way goes away from each side that they choose.
pub fn flip_place(transfers: &[Transfer], flips: &[bool]) -> u32
    requires at_most { length transfers.now ≤ MAX_HEIGHT }
    requires count { length flips.now ≡ length transfers.now }
    ensures place { result ≡ flip_place transfers.now flips.now }
    ensures inside { result < 2 ^ length transfers.now }
{
    let mut place = 0;
    for (level, transfer) in transfers.iter().enumerate() {
        let choice = ask(flips[level], transfer.bit);
        place = 2 * place + u32::from(!choice);
    }
    place
}
