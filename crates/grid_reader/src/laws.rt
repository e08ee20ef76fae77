// What holds of all texts.
ghost use Rattle.grid_reader.specs.Frames.{FrameLaw};
ghost use Rattle.grid_reader.specs.GridTexts.{OneGrid, OneFault, GridWithoutFault, GridOrFault};

/// A text spells at most one grid.
pub fn one_grid()
    ensures { OneGrid }
{}

/// A text has at most one first fault.
pub fn one_fault()
    ensures { OneFault }
{}

/// A text that spells a grid has no first fault.
pub fn grid_without_fault()
    ensures { GridWithoutFault }
{}

/// Each text spells a grid or has a first fault.
pub fn grid_or_fault()
    ensures { GridOrFault }
{}

/// The texts of a grid's frame are numbers by the grammar of RFC 8259.
pub fn frame_law()
    ensures { FrameLaw }
{}
