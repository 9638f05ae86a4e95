// A walk over a tree that gives one leaf after another.
ghost use Rattle.std.specs.Prelude.{◌≡◌, ◌≤◌, [], ◌∷◌, MatchOption};
ghost use Rattle.zk_model.specs.Tree.{tree_leaves};
ghost use Rattle.zk_model.specs.declared.limits.TheConstants.{MAX_HEIGHT};

use crate::doubling::children;
use crate::nodes::leaf_value;
use mersenne_field::Fe;
use std::marker::Model;

/// A walk over the leaves of a tree, in order. Contracts see it as the list of the leaves that are still to come. It
/// holds the nodes to the right of the way to the last leaf, no more than one for each level.
#[derive(Debug, Drop)]
pub struct Walker {
    nodes: [[u8; 16]; 17],
    heights: [u32; 17],
    held: usize,
}

impl Model for Walker {
    ghost use Rattle.std.specs.Prelude.{ℕ, ◌+◌, ◌<◌, ◌≤◌, List, slice_index};
    ghost use Rattle.ggm_tree.specs.Pending.{leaves_left};

    ghost Value = { List ℕ };

    ghost view = { λ w. leaves_left w.nodes w.heights w.held };

    ghost invariant = { λ w. (w.held ≤ 17) × ((k : ℕ) → k < w.held → k + slice_index w.heights k ≤ 16) };
}

impl Walker {
    /// A walk that begins at the first leaf of the tree that grows from a root.
    pub fn new(root: &[u8; 16], height: u32) -> Self
        requires { height ≤ MAX_HEIGHT }
        ensures { result ≡ tree_leaves root.now height }
    {
        Walker {
            nodes: [*root; 17],
            heights: [height; 17],
            held: 1,
        }
    }

    /// The next leaf's element, or None past the last one.
    pub fn next_leaf(&mut self) -> Option<Fe>
        ensures { MatchOption result ((self.old ≡ []) × (self.new ≡ []))
            (λ leaf. self.old ≡ leaf ∷ self.new) }
    {
        if self.held == 0 {
            return None;
        }
        self.held -= 1;
        let mut node = self.nodes[self.held];
        for height in (0..self.heights[self.held]).rev() {
            let (left, right) = children(&node);
            self.nodes[self.held] = right;
            self.heights[self.held] = height;
            self.held += 1;
            node = left;
        }
        Some(leaf_value(&node))
    }
}
