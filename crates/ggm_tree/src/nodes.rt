// Nodes: their XOR, and the elements that leaves stand for.
ghost use Rattle.std.specs.Prelude.{◌≡◌, ℕ, ◌^◌, ◌<◌, ◌≤◌, length, map, bit_xor, slice_index};
ghost use Rattle.zk_model.specs.Bytes.{xor_bytes};
ghost use Rattle.zk_model.specs.Tree.{leaf_value};

use mersenne_field::Fe;
use std::simd::u8x16;

/// The number of nodes of a level.
pub fn width(level: u32) -> usize
    requires { level ≤ 16 }
    ensures value { result ≡ 2 ^ level }
    ensures small { result ≤ 65536 }
{
    1 << level
}

/// The XOR of two nodes, byte by byte.
#[inline(always)]
fn xor(x: u8x16, y: u8x16) -> [u8; 16]
    ensures { (j : ℕ) → j < 16 → slice_index result j ≡ bit_xor (slice_index x j) (slice_index y j) }
{
    (x ^ y).to_array()
}

/// Adds the bytes of a node to a sum, byte by byte, by XOR: all sixteen at once.
pub fn add(sum: &mut [u8; 16], node: &[u8; 16])
    ensures { sum.new ≡ xor_bytes sum.old node.now }
{
    let added = xor(u8x16::from_array(*sum), u8x16::from_array(*node));
    *sum = added;
}

/// The element that a leaf stands for.
pub fn leaf_value(leaf: &[u8; 16]) -> Fe
    ensures { result ≡ leaf_value leaf.now }
{
    let Some(front) = leaf.first_chunk::<8>() else {
        unreachable!()
    };
    Fe::from_word(u64::from_le_bytes(*front))
}

/// Writes the elements of leaves, in order.
pub fn put_leaves(nodes: &[[u8; 16]], leaves: &mut [Fe])
    requires { length leaves.old ≡ length nodes.now }
    ensures { leaves.new ≡ map leaf_value nodes.now }
{
    for (place, node) in nodes.iter().enumerate() {
        leaves[place] = leaf_value(node);
    }
}
