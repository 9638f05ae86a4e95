// The sum of the leaves below some nodes of a level, and the sums of the levels on the way, in no memory. The walk is
// that of `writing`.
ghost use Rattle.std.specs.Prelude.{◌≡◌, ◌+◌, ◌*◌, ◌%◌, ◌^◌, ◌<◌, ◌≤◌, [], ◌∷◌, length, map, sum};
ghost use Rattle.zk_model.specs.Field.{prime};
ghost use Rattle.zk_model.specs.Tree.{leaf_value};
ghost use Rattle.ggm_tree.specs.Rows.{leaves_below, AreAdded};

use crate::doubling::{double, double_eight};
use crate::levels::{add_children, add_eight, eight_below};
use crate::nodes::leaf_value;
use crate::steps::Steps;
use mersenne_field::Fe;
use std::marker::Brand;
use std::sync::ledger::{Blank, Ledger};
use zk_model::BlockPair;

/// The sum of the leaves below one node.
pub(crate) fn sum_one<L: Ledger>(
    node: &[u8; 16],
    height: u32,
    sums: &mut [BlockPair],
    steps: &mut Steps<L>,
) -> Fe
    requires levels { height ≤ length sums.old }
    ensures leaves { result ≡ sum (leaves_below (node.now ∷ []) height) % prime }
    ensures sums { AreAdded (node.now ∷ []) height sums.old sums.new }
    ensures steps { steps.new + 1 ≡ steps.old + 2 ^ height }
{
    if height < 3 {
        sum_low(node, height, sums, steps)
    } else {
        let (top, below) = sums.split_at_mut(3);
        let nodes = eight_below(node, top, steps);
        sum_eight(&nodes, height - 3, below, steps)
    }
}

/// The same, node by node: of those below its left child and those below its right one.
fn sum_low<L: Ledger>(
    node: &[u8; 16],
    height: u32,
    sums: &mut [BlockPair],
    steps: &mut Steps<L>,
) -> Fe
    requires levels { height ≤ length sums.old }
    ensures leaves { result ≡ sum (leaves_below (node.now ∷ []) height) % prime }
    ensures sums { AreAdded (node.now ∷ []) height sums.old sums.new }
    ensures steps { steps.new + 1 ≡ steps.old + 2 ^ height }
{
    if height == 0 {
        sum_of(&[*node])
    } else {
        let (here, below) = sums.split_at_mut(1);
        let (left, right) = double(node, steps);
        let front = sum_low(&left, height - 1, below, steps);
        let back = sum_low(&right, height - 1, below, steps);
        add_children(&mut here[0], &left, &right);
        front + back
    }
}

/// The sum of the leaves below eight nodes: those below the children of the first four and those of the last four.
fn sum_eight<L: Ledger>(
    nodes: &[[u8; 16]; 8],
    height: u32,
    sums: &mut [BlockPair],
    steps: &mut Steps<L>,
) -> Fe
    requires levels { height ≤ length sums.old }
    ensures leaves { result ≡ sum (leaves_below nodes.now height) % prime }
    ensures sums { AreAdded nodes.now height sums.old sums.new }
    ensures steps { steps.new + 8 ≡ steps.old + 8 * 2 ^ height }
{
    if height == 0 {
        sum_of(nodes)
    } else {
        let (here, below) = sums.split_at_mut(1);
        let (first, last) = double_eight(nodes, steps);
        let front = sum_eight(&first, height - 1, below, steps);
        let back = sum_eight(&last, height - 1, below, steps);
        add_eight(&mut here[0], &first, &last);
        front + back
    }
}

/// The sum of the leaves below a node, where no one counts the steps.
pub(crate) fn sum_leaves(node: &[u8; 16], height: u32, sums: &mut [BlockPair]) -> Fe
    requires levels { height ≤ length sums.old }
    ensures leaves { result ≡ sum (leaves_below (node.now ∷ []) height) % prime }
    ensures sums { AreAdded (node.now ∷ []) height sums.old sums.new }
{
    sum_from::<Brand>(node, height, sums, Blank::new(1))
}

/// The same, of steps that are thrown away.
fn sum_from<L: Ledger>(node: &[u8; 16], height: u32, sums: &mut [BlockPair], blank: Blank) -> Fe
    requires name { blank.name ≡ L.name }
    requires parts { blank.parts ≡ L.parts }
    requires some { 0 < blank.parts }
    requires levels { height ≤ length sums.old }
    ensures leaves { result ≡ sum (leaves_below (node.now ∷ []) height) % prime }
    ensures sums { AreAdded (node.now ∷ []) height sums.old sums.new }
{
    let mut steps = Steps::<L>::new(blank);
    sum_one(node, height, sums, &mut steps)
}

/// The sum of the elements of leaves.
fn sum_of(nodes: &[[u8; 16]]) -> Fe
    ensures { result ≡ sum (map leaf_value nodes.now) % prime }
{
    let mut sum = Fe::ZERO;
    for node in nodes {
        sum = sum + leaf_value(node);
    }
    sum
}
