// Trees that are grown at once, and leaf by leaf.
use ggm_tree::{Walker, expand, grow, level_sums};
use std::test::Fail;

/// The height of the trees.
const HEIGHT: u32 = 12;

#[test]
fn a_tree_is_the_same_at_once_and_leaf_by_leaf(rt: HostRuntime) -> Result<(), Fail> {
    let alloc = rt.alloc();
    let root = [7; 16];
    let leaves = expand(alloc, &root, HEIGHT)?;
    assert!(rt; leaves.len() == 4096);
    let mut walker = Walker::new(&root, HEIGHT);
    for leaf in &leaves {
        assert!(rt; walker.next_leaf() == Some(*leaf));
    }
    assert!(rt; walker.next_leaf().is_none());
    let tree = grow(alloc, &root, HEIGHT)?;
    assert!(rt; tree.leaves.as_slice() == leaves.as_slice());
    let sums = level_sums(alloc, &root, HEIGHT)?;
    assert!(rt; tree.sums.as_slice() == sums.as_slice());
    Ok(())
}
