// Nodes into their children. Nothing else in the crate hashes.
ghost use Rattle.std.specs.Prelude.{◌≡◌, ◌+◌, ◌++◌, ◌<◌, true, false, take, drop};
ghost use Rattle.zk_model.specs.Tree.{child_of};
ghost use Rattle.ggm_tree.specs.Rows.{children_of};

use crate::steps::Steps;
use sha_lanes::digest_eight;
use sha2::{Digest, Sha256};
use std::marker::Brand;
use std::sync::ledger::{Blank, Ledger};

/// The left and the right child of a node: the halves of its digest. One step.
pub fn double<L: Ledger>(node: &[u8; 16], steps: &mut Steps<L>) -> ([u8; 16], [u8; 16])
    ensures left { result.0 ≡ child_of false node.now }
    ensures right { result.1 ≡ child_of true node.now }
    ensures steps { steps.new ≡ steps.old + 1 }
{
    steps.count(1);
    let digest = Sha256::digest(node);
    halves(&digest)
}

/// The left and the right child of a node, where no one counts the steps.
pub(crate) fn children(node: &[u8; 16]) -> ([u8; 16], [u8; 16])
    ensures left { result.0 ≡ child_of false node.now }
    ensures right { result.1 ≡ child_of true node.now }
{
    children_from::<Brand>(node, Blank::new(1))
}

/// The same, of steps that are thrown away.
fn children_from<L: Ledger>(node: &[u8; 16], blank: Blank) -> ([u8; 16], [u8; 16])
    requires name { blank.name ≡ L.name }
    requires parts { blank.parts ≡ L.parts }
    requires some { 0 < blank.parts }
    ensures left { result.0 ≡ child_of false node.now }
    ensures right { result.1 ≡ child_of true node.now }
{
    let mut steps = Steps::<L>::new(blank);
    double(node, &mut steps)
}

/// The children of eight nodes, in order: those of the first four, and those of the last four. The nodes are hashed at once, and
/// count as eight steps.
pub fn double_eight<L: Ledger>(
    nodes: &[[u8; 16]; 8],
    steps: &mut Steps<L>,
) -> ([[u8; 16]; 8], [[u8; 16]; 8])
    ensures children { result.0 ++ result.1 ≡ children_of nodes.now }
    ensures steps { steps.new ≡ steps.old + 8 }
{
    steps.count(8);
    let digests = digest_eight(nodes);
    let (left_0, right_0) = halves(&digests[0]);
    let (left_1, right_1) = halves(&digests[1]);
    let (left_2, right_2) = halves(&digests[2]);
    let (left_3, right_3) = halves(&digests[3]);
    let (left_4, right_4) = halves(&digests[4]);
    let (left_5, right_5) = halves(&digests[5]);
    let (left_6, right_6) = halves(&digests[6]);
    let (left_7, right_7) = halves(&digests[7]);
    (
        [
            left_0, right_0, left_1, right_1, left_2, right_2, left_3, right_3,
        ],
        [
            left_4, right_4, left_5, right_5, left_6, right_6, left_7, right_7,
        ],
    )
}

/// The halves of a digest.
#[inline(always)]
fn halves(digest: &[u8; 32]) -> ([u8; 16], [u8; 16])
    ensures front { result.0 ≡ take 16 digest.now }
    ensures back { result.1 ≡ drop 16 digest.now }
{
    let (front, back) = digest.split_at(16);
    let mut left = [0; 16];
    left.copy_from_slice(front);
    let mut right = [0; 16];
    right.copy_from_slice(back);
    (left, right)
}
