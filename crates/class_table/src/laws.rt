// What holds of all texts.
ghost use Rattle.class_table.specs.Faults.{OneTable, OneFault, TableWithoutFault, TableOrFault, RightOrBroken, NeverBoth, OneSaid, OneRule};

/// A text spells at most one class table.
pub fn one_table()
    ensures { OneTable }
{}

/// A text has at most one first fault.
pub fn one_fault()
    ensures { OneFault }
{}

/// A text that spells a class table has no first fault.
pub fn table_without_fault()
    ensures { TableWithoutFault }
{}

/// Each text spells a class table or has a first fault.
pub fn table_or_fault()
    ensures { TableOrFault }
{}

/// A line that counts is right behind the lines before it and says one thing, or breaks one rule first, and never both.
pub fn right_lines()
    ensures some { RightOrBroken }
    ensures never_both { NeverBoth }
    ensures one_said { OneSaid }
    ensures one_rule { OneRule }
{}
