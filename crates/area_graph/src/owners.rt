// Which class each area has.
ghost use Rattle.std.specs.Prelude.{◌≡◌, ◌≢◌, ◌<◌, ℕ, ℤ, length, IfOk, IfSome, IfNone};
ghost use Rattle.class_table.specs.Table.{name_of};
ghost use Rattle.coverage_check.specs.Checked.{IsChecked};
ghost use Rattle.area_graph.specs.Problems.{AreOwn, IsLeastUnknown, IsUnknown};

use crate::fault::GraphFault;
use class_table::Table;
use coverage_check::Checked;
use std::alloc::Global;

// The class of that name.
fn class_named(table: &Table, name: &str) -> Option<u8>
    ensures found { IfSome result (λ k. (k < length table.now.names) × (name_of table.now k ≡ name.now)) }
    ensures none { IfNone result (IsUnknown table.now name.now) }
{
    let names = table.names();
    for class in 0..names.len() {
        if names[class].as_str() == name {
            return Some(class as u8);
        }
    }
    None
}

/// The class of each area, or the least area whose class text is no name of the table.
pub fn own_classes(alloc: Global, checked: &Checked, table: &Table) -> Result<Vec<u8>, GraphFault>
    ensures found { IfOk result (λ own. AreOwn checked.now.areas table.now own.items) }
    ensures unknown { (v : ℕ) → result ≡ Err (GraphFault.UnknownClass v) → IsLeastUnknown checked.now.areas table.now v }
    ensures other { (v : ℕ) (s : ℤ) → result ≢ Err (GraphFault.NoWeight v s) }
    ensures checked { IsChecked checked.now.areas }
{
    let mut own = Vec::new(alloc);
    for area in 0..checked.areas() as u32 {
        match class_named(table, checked.class(area).as_str()) {
            Some(class) => own.push(class)?,
            None => return Err(GraphFault::UnknownClass { area }),
        }
    }
    Ok(own)
}
