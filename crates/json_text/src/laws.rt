// What holds of all bytes.
ghost use Rattle.json_text.specs.Faults.{OneTree, OneFault, TreeWithoutFault, TreeOrFault};
ghost use Rattle.json_text.specs.Lengths.{ListsWithinText};

/// Bytes spell at most one value, however deep they nest.
pub fn one_tree()
    ensures { OneTree }
{}

/// Bytes have at most one fault.
pub fn one_fault()
    ensures { OneFault }
{}

/// Bytes that spell a value and nest no deeper than 64 have no fault.
pub fn tree_without_fault()
    ensures { TreeWithoutFault }
{}

/// All bytes spell a value and nest no deeper than 64, or have a fault.
pub fn tree_or_fault()
    ensures { TreeOrFault }
{}

/// No array of a value has more items, and no object more members, than the value's text has bytes.
pub fn lists_within_text()
    ensures { ListsWithinText }
{}
