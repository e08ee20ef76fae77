// What the faults of trees mean.
ghost use Rattle.tree_check.specs.Laws.{OneTreeFaultLaw};

/// A tree has one fault at most, but for want of memory, and none where it is sound.
pub fn one_tree_fault_law()
    ensures { OneTreeFaultLaw }
{}
