// From one level to the next, with the sums of both sides.
ghost use Rattle.std.specs.Prelude.{◌≡◌, ℕ, ◌+◌, List, ◌++◌, [], ◌∷◌, length};
ghost use Rattle.zk_model.specs.Bytes.{xor_bytes};
ghost use Rattle.ggm_tree.specs.Rows.{AreAdded, children_of, nodes_below, sums_with};

use crate::doubling::double;
use crate::nodes::add;
use crate::steps::Steps;
use std::sync::ledger::Ledger;
use zk_model::BlockPair;

/// Adds both children of a node to the sums of their level.
pub(crate) fn add_children(sums: &mut BlockPair, left: &[u8; 16], right: &[u8; 16])
    ensures { sums.new ≡ record {
      left = xor_bytes sums.old.left left.now;
      right = xor_bytes sums.old.right right.now;
    } }
{
    add(&mut sums.left, left);
    add(&mut sums.right, right);
}

/// The children of a node.
fn below_one<L: Ledger>(
    node: &[u8; 16],
    sums: &mut BlockPair,
    steps: &mut Steps<L>,
) -> [[u8; 16]; 2]
    ensures children { result ≡ children_of (node.now ∷ []) }
    ensures sums { sums.new ≡ sums_with sums.old (node.now ∷ []) }
    ensures steps { steps.new ≡ steps.old + 1 }
{
    let (left, right) = double(node, steps);
    add_children(sums, &left, &right);
    [left, right]
}

/// The children of two nodes, in order.
fn below_two<L: Ledger>(
    nodes: &[[u8; 16]; 2],
    sums: &mut BlockPair,
    steps: &mut Steps<L>,
) -> [[u8; 16]; 4]
    ensures children { result ≡ children_of nodes.now }
    ensures sums { sums.new ≡ sums_with sums.old nodes.now }
    ensures steps { steps.new ≡ steps.old + 2 }
{
    let first = below_one(&nodes[0], sums, steps);
    let last = below_one(&nodes[1], sums, steps);
    [first[0], first[1], last[0], last[1]]
}

/// The children of four nodes, in order.
fn below_four<L: Ledger>(
    nodes: &[[u8; 16]; 4],
    sums: &mut BlockPair,
    steps: &mut Steps<L>,
) -> [[u8; 16]; 8]
    ensures children { result ≡ children_of nodes.now }
    ensures sums { sums.new ≡ sums_with sums.old nodes.now }
    ensures steps { steps.new ≡ steps.old + 4 }
{
    let [first, second, third, fourth] = below_two(&[nodes[0], nodes[1]], sums, steps);
    let [fifth, sixth, seventh, last] = below_two(&[nodes[2], nodes[3]], sums, steps);
    [first, second, third, fourth, fifth, sixth, seventh, last]
}

/// The eight nodes three levels below a node, in order, once those of each level are added to its sums.
pub(crate) fn eight_below<L: Ledger>(
    node: &[u8; 16],
    sums: &mut [BlockPair],
    steps: &mut Steps<L>,
) -> [[u8; 16]; 8]
    requires { length sums.old ≡ 3 }
    ensures nodes { result ≡ nodes_below (node.now ∷ []) 3 }
    ensures sums { AreAdded (node.now ∷ []) 3 sums.old sums.new }
    ensures steps { steps.new ≡ steps.old + 7 }
{
    let two = below_one(node, &mut sums[0], steps);
    let four = below_two(&two, &mut sums[1], steps);
    below_four(&four, &mut sums[2], steps)
}

/// Adds the children of eight nodes to the sums of their level.
pub(crate) fn add_eight(sums: &mut BlockPair, first: &[[u8; 16]; 8], last: &[[u8; 16]; 8])
    ensures { (nodes : List (List ℕ)) → length nodes ≡ 8 → first.now ++ last.now ≡ children_of nodes
        → sums.new ≡ sums_with sums.old nodes }
{
    add_children(sums, &first[0], &first[1]);
    add_children(sums, &first[2], &first[3]);
    add_children(sums, &first[4], &first[5]);
    add_children(sums, &first[6], &first[7]);
    add_children(sums, &last[0], &last[1]);
    add_children(sums, &last[2], &last[3]);
    add_children(sums, &last[4], &last[5]);
    add_children(sums, &last[6], &last[7]);
}
