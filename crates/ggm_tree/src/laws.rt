// What the definitions of trees promise of both ways to grow one.
ghost use Rattle.ggm_tree.specs.Laws.{PuncturedIsGrown};

/// From the sums of a tree that grows from one seed, on the sides away from a leaf, all its other leaves are found.
pub fn punctured_is_grown()
    ensures { PuncturedIsGrown }
{}
