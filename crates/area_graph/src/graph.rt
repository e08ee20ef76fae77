// The problem of a checked map and a class table.
ghost use Rattle.std.specs.Prelude.{◌≡◌, ◌≤◌, ℕ, ℤ, length, IfOk};
ghost use Rattle.agg_base.specs.declared.limits.TheConstants.{LINKS};
ghost use Rattle.class_table.specs.Table.{IsTable};
ghost use Rattle.coverage_check.specs.Checked.{IsChecked};
ghost use Rattle.area_graph.specs.Problems.{IsProblemOf, IsLeastUnknown, IsLeastLight};

use crate::borders::links;
use crate::fault::GraphFault;
use crate::owners::own_classes;
use crate::weights::weights;
use agg_base::NoMemory;
use agg_model::{Problem, ProblemParts};
use class_table::Table;
use coverage_check::Checked;
use std::alloc::Global;

// The distances of the table, row by row.
fn distances(alloc: Global, table: &Table) -> Result<Vec<u32>, NoMemory>
    ensures { IfOk result (λ items. items.items ≡ table.now.distance) }
{
    let classes = table.names().len();
    let mut items = Vec::new(alloc);
    for at in 0..classes * classes {
        items.push(table.distance((at / classes) as u8, (at % classes) as u8))?;
    }
    Ok(items)
}

// The thresholds of the table, by class.
fn thresholds(alloc: Global, table: &Table) -> Result<Vec<i128>, NoMemory>
    ensures { IfOk result (λ items. items.items ≡ table.now.threshold) }
{
    let mut items = Vec::new(alloc);
    for class in 0..table.names().len() {
        items.push(table.threshold(class as u8))?;
    }
    Ok(items)
}

// The parts of the problem.
fn parts_of(alloc: Global, checked: &Checked, table: &Table) -> Result<ProblemParts, GraphFault>
    ensures found { IfOk result (λ p. IsProblemOf checked.now.areas table.now p) }
    ensures unknown { (v : ℕ) → result ≡ Err (GraphFault.UnknownClass v) → IsLeastUnknown checked.now.areas table.now v }
    ensures light { (v : ℕ) (s : ℤ) → result ≡ Err (GraphFault.NoWeight v s) → IsLeastLight checked.now.areas table.now v s }
    ensures few { IfOk result (λ p. length p.links ≤ LINKS) }
    ensures rules { IfOk result (λ p. IsTable table.now) }
    ensures checked { IsChecked checked.now.areas }
{
    let own = own_classes(alloc, checked, table)?;
    let weight = weights(alloc, checked, table)?;
    Ok(ProblemParts {
        classes: table.names().len() as u8,
        own,
        weight,
        links: links(alloc, checked, table)?,
        distance: distances(alloc, table)?,
        threshold: thresholds(alloc, table)?,
        border: table.border(),
    })
}

/// The problem of a checked map and a class table.
///
/// - The own class of an area is the number of its class text among the names of the table.
/// - The weight of an area, in twice the square unit, is the product of the table's two factors times the sum of
///   `(x1 + x2) * (y2 - y1)` over its odd edges, the low end `(x1, y1)`, the high end `(x2, y2)`. A term counts plus where the ray
///   from the edge's middle to the right crosses an even number of the area's other odd edges, else minus.
/// - Two areas are linked where some edge is odd in both. The length of the link, in 1/256 unit, is the sum of the lengths of these
///   edges, each rounded down on its own.
/// - Classes, distances, thresholds and the border weight are those of the table.
///
/// `UnknownClass` comes exactly where an area's class text is no name of the table, `NoWeight` exactly where all classes are known
/// and an area weighs less than 1; each names the least such area.
pub fn problem_of(alloc: Global, checked: &Checked, table: &Table) -> Result<Problem, GraphFault>
    ensures found { IfOk result (λ p. IsProblemOf checked.now.areas table.now p) }
    ensures unknown { (v : ℕ) → result ≡ Err (GraphFault.UnknownClass v) → IsLeastUnknown checked.now.areas table.now v }
    ensures light { (v : ℕ) (s : ℤ) → result ≡ Err (GraphFault.NoWeight v s) → IsLeastLight checked.now.areas table.now v s }
{
    let parts = parts_of(alloc, checked, table)?;
    match Problem::of(parts) {
        Some(problem) => Ok(problem),
        None => unreachable!(),
    }
}
