// The leaves below some nodes of a level, written in order, and the sums of the levels on the way. From the third level
// below one node on a tree is walked in depth by eight nodes side by side, whose children are hashed at once.
ghost use Rattle.std.specs.Prelude.{◌≡◌, ◌+◌, ◌*◌, ◌^◌, ◌<◌, ◌≤◌, [], ◌∷◌, length};
ghost use Rattle.ggm_tree.specs.Rows.{leaves_below, AreAdded};

use crate::doubling::{double, double_eight};
use crate::levels::{add_children, add_eight, eight_below};
use crate::nodes::put_leaves;
use crate::steps::Steps;
use mersenne_field::Fe;
use std::marker::Brand;
use std::sync::ledger::{Blank, Ledger};
use zk_model::BlockPair;

/// Writes the leaves below one node.
pub(crate) fn write_one<L: Ledger>(
    node: &[u8; 16],
    height: u32,
    sums: &mut [BlockPair],
    leaves: &mut [Fe],
    steps: &mut Steps<L>,
)
    requires levels { height ≤ length sums.old }
    requires places { length leaves.old ≡ 2 ^ height }
    ensures leaves { leaves.new ≡ leaves_below (node.now ∷ []) height }
    ensures sums { AreAdded (node.now ∷ []) height sums.old sums.new }
    ensures steps { steps.new + 1 ≡ steps.old + 2 ^ height }
{
    if height < 3 {
        write_low(node, height, sums, leaves, steps);
    } else {
        let (top, below) = sums.split_at_mut(3);
        let nodes = eight_below(node, top, steps);
        write_eight(&nodes, height - 3, below, leaves, steps);
    }
}

/// Does the same, node by node: those below its left child, then those below its right one.
fn write_low<L: Ledger>(
    node: &[u8; 16],
    height: u32,
    sums: &mut [BlockPair],
    leaves: &mut [Fe],
    steps: &mut Steps<L>,
)
    requires levels { height ≤ length sums.old }
    requires places { length leaves.old ≡ 2 ^ height }
    ensures leaves { leaves.new ≡ leaves_below (node.now ∷ []) height }
    ensures sums { AreAdded (node.now ∷ []) height sums.old sums.new }
    ensures steps { steps.new + 1 ≡ steps.old + 2 ^ height }
{
    if height == 0 {
        put_leaves(&[*node], leaves);
    } else {
        let (here, below) = sums.split_at_mut(1);
        let (left, right) = double(node, steps);
        let half = leaves.len() / 2;
        let (front, back) = leaves.split_at_mut(half);
        write_low(&left, height - 1, below, front, steps);
        write_low(&right, height - 1, below, back, steps);
        add_children(&mut here[0], &left, &right);
    }
}

/// Writes the leaves below eight nodes: those below the children of the first four, then those of the last four.
fn write_eight<L: Ledger>(
    nodes: &[[u8; 16]; 8],
    height: u32,
    sums: &mut [BlockPair],
    leaves: &mut [Fe],
    steps: &mut Steps<L>,
)
    requires levels { height ≤ length sums.old }
    requires places { length leaves.old ≡ 8 * 2 ^ height }
    ensures leaves { leaves.new ≡ leaves_below nodes.now height }
    ensures sums { AreAdded nodes.now height sums.old sums.new }
    ensures steps { steps.new + 8 ≡ steps.old + 8 * 2 ^ height }
{
    if height == 0 {
        put_leaves(nodes, leaves);
    } else {
        let (here, below) = sums.split_at_mut(1);
        let (first, last) = double_eight(nodes, steps);
        let half = leaves.len() / 2;
        let (front, back) = leaves.split_at_mut(half);
        write_eight(&first, height - 1, below, front, steps);
        write_eight(&last, height - 1, below, back, steps);
        add_eight(&mut here[0], &first, &last);
    }
}

/// Writes the leaves below a node, where no one counts the steps.
pub(crate) fn write_leaves(node: &[u8; 16], height: u32, sums: &mut [BlockPair], leaves: &mut [Fe])
    requires levels { height ≤ length sums.old }
    requires places { length leaves.old ≡ 2 ^ height }
    ensures leaves { leaves.new ≡ leaves_below (node.now ∷ []) height }
    ensures sums { AreAdded (node.now ∷ []) height sums.old sums.new }
{
    write_from::<Brand>(node, height, sums, leaves, Blank::new(1));
}

/// The same, of steps that are thrown away.
fn write_from<L: Ledger>(
    node: &[u8; 16],
    height: u32,
    sums: &mut [BlockPair],
    leaves: &mut [Fe],
    blank: Blank,
)
    requires name { blank.name ≡ L.name }
    requires parts { blank.parts ≡ L.parts }
    requires some { 0 < blank.parts }
    requires levels { height ≤ length sums.old }
    requires places { length leaves.old ≡ 2 ^ height }
    ensures leaves { leaves.new ≡ leaves_below (node.now ∷ []) height }
    ensures sums { AreAdded (node.now ∷ []) height sums.old sums.new }
{
    let mut steps = Steps::<L>::new(blank);
    write_one(node, height, sums, leaves, &mut steps);
}
