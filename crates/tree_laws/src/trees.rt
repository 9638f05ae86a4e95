// Laws of trees that lack the path to one leaf.
ghost use Rattle.tree_laws.specs.Trees.{OnePunctured, PuncturedExists};

/// In a tree without the path to one leaf, the sums determine all leaves.
pub fn one_punctured()
    ensures { OnePunctured }
{}

/// Whatever the sums are, one of 16 bytes for each level, they are those of a tree without the path to a leaf: whoever has
/// them finds leaves.
pub fn punctured_exists()
    ensures { PuncturedExists }
{}
