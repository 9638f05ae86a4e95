// Walks over a tree that hold no list of its nodes.
ghost use Rattle.std.specs.Prelude.{◌≡◌, ℕ, [], ◌+◌, ◌-◌, ◌%◌, ◌^◌, ◌<◌, ◌≤◌, true, false, sum, slice_index_or};
ghost use Rattle.zk_model.specs.Field.{prime};
ghost use Rattle.zk_model.specs.Tree.{level_sum, tree_leaves};
ghost use Rattle.ggm_tree.specs.Rows.{level_in, nothing};
ghost use Rattle.zk_model.specs.declared.limits.TheConstants.{MAX_HEIGHT};

use crate::steps::Steps;
use crate::summing::sum_one;
use mersenne_field::Fe;
use std::sync::ledger::Ledger;
use zk_model::BlockPair;

/// What a walk over a tree tells: for each level the XOR of its left nodes and that of its right ones, the root's
/// children first, and the sum of the leaves' elements. Past the last level stand nodes of 0.
#[derive(Clone, Copy, Debug)]
pub struct WalkSums {
    pub left: [[u8; 16]; 16],
    pub right: [[u8; 16]; 16],
    pub leaf_sum: Fe,
}

/// The sums of the tree that grows from a root: its levels' and its leaves'. Each node above the leaves is doubled
/// once, and no memory is taken.
pub fn walk_sums<L: Ledger>(root: &[u8; 16], height: u32, steps: &mut Steps<L>) -> WalkSums
    requires { height ≤ MAX_HEIGHT }
    ensures left { (level : ℕ) → level < height
        → slice_index_or result.left level [] ≡ level_sum root.now level false }
    ensures right { (level : ℕ) → level < height
        → slice_index_or result.right level [] ≡ level_sum root.now level true }
    ensures left_past { (level : ℕ) → height ≤ level → level < 16
        → slice_index_or result.left level [] ≡ nothing }
    ensures right_past { (level : ℕ) → height ≤ level → level < 16
        → slice_index_or result.right level [] ≡ nothing }
    ensures leaf_sum { result.leaf_sum ≡ sum (tree_leaves root.now height) % prime }
    ensures steps { steps.new ≡ steps.old + (2 ^ height - 1) }
{
    let mut sums = [BlockPair::zeros(); 16];
    let leaf_sum = sum_one(root, height, &mut sums, steps);
    parted(&sums, leaf_sum)
}

/// The sums of all levels, those of the left sides apart from those of the right ones.
fn parted(sums: &[BlockPair; 16], leaf_sum: Fe) -> WalkSums
    ensures left { (level : ℕ) → level < 16
        → slice_index_or result.left level [] ≡ (level_in sums.now level).left }
    ensures right { (level : ℕ) → level < 16
        → slice_index_or result.right level [] ≡ (level_in sums.now level).right }
    ensures leaf_sum { result.leaf_sum ≡ leaf_sum }
{
    let mut left = [[0; 16]; 16];
    let mut right = [[0; 16]; 16];
    for (level, both) in sums.iter().enumerate() {
        left[level] = both.left;
        right[level] = both.right;
    }
    WalkSums {
        left,
        right,
        leaf_sum,
    }
}
