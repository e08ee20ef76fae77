// What holds of all maps and tables.
ghost use Rattle.generalise_steps.specs.MapTexts.{OneMap, OneLine, MapWithoutLine, FrameLaw};
ghost use Rattle.generalise_steps.specs.LoadLaws.{OneLoad, LoadedWithoutRefusal, OneRefusal};

/// A text spells one map at most in a format.
pub fn one_map_law()
    ensures { OneMap }
{}

/// One line at most refuses the text of a map in a format.
pub fn one_line_law()
    ensures { OneLine }
{}

/// No line refuses a text that spells a map.
pub fn map_without_line_law()
    ensures { MapWithoutLine }
{}

/// The texts of a map's frame are numbers by the grammar of RFC 8259.
pub fn frame_law()
    ensures { FrameLaw }
{}

/// A map and a table are accepted in one way at most: with one checked map, one class table and one problem.
pub fn one_load_law()
    ensures { OneLoad }
{}

/// No line refuses a map and a table that are accepted.
pub fn loaded_without_refusal_law()
    ensures { LoadedWithoutRefusal }
{}

/// One line at most refuses a map and a table.
pub fn one_refusal_law()
    ensures { OneRefusal }
{}
