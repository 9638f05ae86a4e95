// Trees without the path to one leaf.
ghost use Rattle.std.specs.Prelude.{◌≡◌, ◌+◌, ◌*◌, ◌^◌, ◌<◌, ◌≤◌, length, IfOk, vec_len};
ghost use Rattle.zk_model.specs.Bytes.{AreBytes};
ghost use Rattle.zk_model.specs.Tree.{IsPunctured};
ghost use Rattle.ggm_tree.specs.Found.{AreLeavesFilled, sibling_of};
ghost use Rattle.zk_model.specs.declared.limits.TheConstants.{MAX_HEIGHT};

use crate::nodes::{add, width};
use crate::writing::write_leaves;
use mersenne_field::Fe;
use std::alloc::{AllocError, Global};
use zk_model::BlockPair;

/// The elements of the 2^height leaves of a tree but for one of them, in order, from the XOR of the nodes of each level
/// on the side away from the path to that leaf, the root's children first (Boyle, Couteau, Gilboa, Ishai, Kohl, Rindal
/// and Scholl, Efficient Two-Round OT Extension and Silent Non-Interactive Secure Computation, 2019). The entry of the
/// missing leaf is 0. Whatever the sums are, they are those of a tree without that path, and they fix its leaves.
///
/// # Errors
///
/// Only where memory runs out.
pub fn puncture(
    alloc: Global,
    height: u32,
    missing: usize,
    sums: &[[u8; 16]],
) -> Result<Vec<Fe>, AllocError>
    requires least { 1 ≤ height }
    requires at_most { height ≤ MAX_HEIGHT }
    requires place { missing < 2 ^ height }
    requires count { length sums.now ≡ height }
    ensures leaves { IfOk result (λ leaves. IsPunctured height missing sums.now leaves.items) }
    ensures length { IfOk result (λ leaves. vec_len leaves ≡ 2 ^ height) }
{
    let mut leaves = vec![in alloc; Fe::ZERO; width(height)]?;
    let mut held = [BlockPair::zeros(); 16];
    for level in 0..height {
        let below = height - 1 - level;
        let place = missing >> below;
        fill_sibling(
            level,
            below,
            place,
            &sums[level as usize],
            &mut held,
            &mut leaves,
        );
    }
    Ok(leaves)
}

/// Finds the sibling of the node at a place from the sum of its side, and writes the leaves below it. Of each level the
/// XOR of the nodes that were found is held, left and right.
fn fill_sibling(
    level: u32,
    height: u32,
    place: usize,
    sum: &[u8; 16],
    held: &mut [BlockPair],
    leaves: &mut [Fe],
)
    requires levels { level + height < length held.old }
    requires low { height ≤ 16 }
    requires room { sibling_of place * 2 ^ height + 2 ^ height ≤ length leaves.old }
    ensures octets { AreBytes 16 sum.now }
    ensures filled { AreLeavesFilled level height place sum.now held.old held.new leaves.old leaves.new }
{
    let (above, below) = held.split_at_mut(level as usize + 1);
    let right = place % 2 == 0;
    let mut sibling = above[level as usize].choice(right);
    add(&mut sibling, sum);
    let count = width(height);
    let start = (place / 2 * 2 + usize::from(right)) * count;
    write_leaves(&sibling, height, below, &mut leaves[start..start + count]);
}
