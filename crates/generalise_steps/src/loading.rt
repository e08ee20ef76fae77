// From two texts to the problem, step by step. The first step that refuses decides.
ghost use Rattle.std.specs.Prelude.{◌≡◌, ◌≤◌, ℕ, List, length, IfOk, IfErr, Err};
ghost use Rattle.map_values.specs.Layers.{Layer};
ghost use Rattle.class_table.specs.Table.{Table};
ghost use Rattle.class_table.specs.TableTexts.{IsTableText};
ghost use Rattle.area_graph.specs.Problems.{IsProblemOf};
ghost use Rattle.topo_reader.specs.Outcomes.{layer_of};
ghost use Rattle.generalise_steps.specs.Halts.{IfRefused};
ghost use Rattle.generalise_steps.specs.MapTexts.{SpellsMap};
ghost use Rattle.generalise_steps.specs.Loads.{IsMap, Loads};
ghost use Rattle.generalise_steps.specs.Refusals.{Refuses};
ghost use Rattle.generalise_steps.specs.declared.map_format.Format.{Format};

use crate::graph_lines::{no_weight, unknown_class};
use crate::map_reading::read_map;
use crate::{Format, Halt, cover_lines, table_lines};
use agg_base::limits::{MAP_BYTES, TABLE_BYTES};
use agg_model::Problem;
use area_graph::{GraphFault, problem_of};
use class_table::Table;
use coverage_check::{Checked, check};
use crew_work::Crew;
use plane_edge::Coverage;
use std::alloc::Global;

/// A map and a table that are accepted.
#[derive(Drop)]
pub struct Loaded {
    /// The map: its areas by their odd edges, planar and disjoint.
    pub checked: Checked,
    /// The class table.
    pub table: Table,
    /// The problem of both.
    pub problem: Problem,
}

// Reads the table's text.
fn read_table(alloc: Global, table: &[u8]) -> Result<Table, Halt>
    requires { length table.now ≤ TABLE_BYTES }
    ensures found { IfOk result (λ t. IsTableText table.now t) }
    ensures refused { (format : Format) (map : List ℕ) (layer : Layer) → SpellsMap format map layer
        → IfErr result (λ h. IfRefused h (Refuses format map table.now)) }
{
    match class_table::read(alloc, table) {
        Ok(table) => Ok(table),
        Err(fault) => Err(Halt::of(table_lines::line_of(alloc, fault))),
    }
}

// Checks the coverage.
fn check_cover<W: Crew>(alloc: Global, coverage: Coverage, crew: &W) -> Result<Checked, Halt>
    ensures found { (format : Format) (map : List ℕ) → SpellsMap format map (layer_of coverage) → IfOk result (λ c. IsMap format map c) }
    ensures refused { (format : Format) (map table : List ℕ) (t : Table) → SpellsMap format map (layer_of coverage) → IsTableText table t
        → IfErr result (λ h. IfRefused h (Refuses format map table)) }
{
    match check(alloc, coverage, crew) {
        Ok(checked) => Ok(checked),
        Err(fault) => Err(Halt::of(cover_lines::line_of(alloc, fault))),
    }
}

// Makes the problem.
fn make_problem(alloc: Global, checked: &Checked, table: &Table) -> Result<Problem, Halt>
    ensures found { IfOk result (λ p. IsProblemOf checked.now.areas table.now p) }
    ensures refused { (format : Format) (map text : List ℕ) → IsMap format map checked.now → IsTableText text table.now
        → IfErr result (λ h. IfRefused h (Refuses format map text)) }
{
    match problem_of(alloc, checked, table) {
        Ok(problem) => Ok(problem),
        Err(GraphFault::UnknownClass { area }) => Err(Halt::of(unknown_class(alloc, area))),
        Err(GraphFault::NoWeight { area, sum }) => Err(Halt::of(no_weight(alloc, area, sum))),
        Err(GraphFault::Memory) => Err(Halt::Memory),
    }
}

/// The checked map, the class table and the problem that the texts of a map and of a table spell.
///
/// There are four steps: the map is read by its format, the table is read, the coverage is checked, and the problem is made. `Refused`
/// comes exactly where one of them refuses, and carries the line of the first that does: `refused:`, where the fault is, its name and
/// its fields, parted by spaces, and a line feed, as in `refused: map NoClass 7`. It is in the `map` or the `table` for a text, in the
/// `coverage` for borders that cross or areas that overlap, in the `classes` for an area whose class text is no name of the table, and in
/// the `weights` for an area that weighs less than 1. The answer is the same for every crew.
///
/// A map in TopoJSON or GeoJSON is read as a text of JSON first (RFC 8259), with `Syntax` and `TooDeep` for its faults, and then by the
/// reader of its format. Arcs and places of faults count from 0, bytes of `Syntax` and `TooDeep` too.
pub fn load<W: Crew>(
    alloc: Global,
    format: &Format,
    map: &[u8],
    table: &[u8],
    crew: &W,
) -> Result<Loaded, Halt>
    requires map { length map.now ≤ MAP_BYTES }
    requires table { length table.now ≤ TABLE_BYTES }
    ensures found { IfOk result (λ l. Loads format.now map.now table.now l.checked l.table l.problem) }
    ensures refused { (line : List ℕ) → result ≡ Err (Halt.Refused line) → Refuses format.now map.now table.now line }
{
    let coverage = read_map(alloc, format, map)?;
    let table = read_table(alloc, table)?;
    let checked = check_cover(alloc, coverage, crew)?;
    let problem = make_problem(alloc, &checked, &table)?;
    Ok(Loaded {
        checked,
        table,
        problem,
    })
}
