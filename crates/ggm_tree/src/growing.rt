// Trees that grow from a seed.
ghost use Rattle.std.specs.Prelude.{◌≡◌, ◌^◌, ◌≤◌, IfOk, vec_len};
ghost use Rattle.zk_model.specs.Tree.{tree_leaves};
ghost use Rattle.ggm_tree.specs.Sums.{tree_sums};
ghost use Rattle.zk_model.specs.declared.limits.TheConstants.{MAX_HEIGHT};

use crate::nodes::width;
use crate::summing::sum_leaves;
use crate::writing::write_leaves;
use mersenne_field::Fe;
use std::alloc::{AllocError, Global};
use zk_model::BlockPair;

/// The leaves of a tree, in order, and the sums of its levels, the root's children first.
#[derive(Debug, Drop)]
pub struct GrownTree {
    pub leaves: Vec<Fe>,
    pub sums: Vec<BlockPair>,
}

/// The elements of the 2^height leaves of the tree that grows from a seed, in order.
///
/// # Errors
///
/// Only where memory runs out.
pub fn expand(alloc: Global, seed: &[u8; 16], height: u32) -> Result<Vec<Fe>, AllocError>
    requires least { 1 ≤ height }
    requires at_most { height ≤ MAX_HEIGHT }
    ensures leaves { IfOk result (λ leaves. leaves.items ≡ tree_leaves seed.now height) }
    ensures length { IfOk result (λ leaves. vec_len leaves ≡ 2 ^ height) }
{
    let mut leaves = vec![in alloc; Fe::ZERO; width(height)]?;
    let mut sums = [BlockPair::zeros(); 16];
    write_leaves(seed, height, &mut sums, &mut leaves);
    Ok(leaves)
}

/// The sums of all levels of the tree that grows from a seed, the root's children first.
///
/// # Errors
///
/// Only where memory runs out.
pub fn level_sums(alloc: Global, seed: &[u8; 16], height: u32) -> Result<Vec<BlockPair>, AllocError>
    requires least { 1 ≤ height }
    requires at_most { height ≤ MAX_HEIGHT }
    ensures sums { IfOk result (λ sums. sums.items ≡ tree_sums seed.now height) }
    ensures length { IfOk result (λ sums. vec_len sums ≡ height) }
{
    let mut sums = vec![in alloc; BlockPair::zeros(); height as usize]?;
    let _leaf_sum = sum_leaves(seed, height, &mut sums);
    Ok(sums)
}

/// The leaves and the sums of all levels of the tree that grows from a seed, in one pass: what `expand` and
/// `level_sums` give.
///
/// # Errors
///
/// Only where memory runs out.
pub fn grow(alloc: Global, seed: &[u8; 16], height: u32) -> Result<GrownTree, AllocError>
    requires least { 1 ≤ height }
    requires at_most { height ≤ MAX_HEIGHT }
    ensures leaves { IfOk result (λ tree. tree.leaves.items ≡ tree_leaves seed.now height) }
    ensures sums { IfOk result (λ tree. tree.sums.items ≡ tree_sums seed.now height) }
    ensures leaf_count { IfOk result (λ tree. vec_len tree.leaves ≡ 2 ^ height) }
    ensures sum_count { IfOk result (λ tree. vec_len tree.sums ≡ height) }
{
    let mut leaves = vec![in alloc; Fe::ZERO; width(height)]?;
    let mut sums = vec![in alloc; BlockPair::zeros(); height as usize]?;
    write_leaves(seed, height, &mut sums, &mut leaves);
    Ok(GrownTree { leaves, sums })
}
