// The lines that refuse a map's text.
ghost use Rattle.std.specs.Prelude.{◌≡◌, ◌≢◌, ◌∷◌, [], codes, IfOk};
ghost use Rattle.std.specs.Fmt.{decimal};
ghost use Rattle.grid_reader.specs.declared.fault.GridFault.TheVariants as grid;
ghost use Rattle.json_text.specs.declared.fault.JsonFault.TheVariants as json;
ghost use Rattle.topo_reader.specs.declared.fault.TopoFault.TheVariants as topology;
ghost use Rattle.geo_reader.specs.declared.fault.GeoFault.TheVariants as features;
ghost use Rattle.generalise_steps.specs.FaultLines.{refusal, limit_word, grid_line, json_line, topology_line, features_line};

use agg_base::{NoMemory, Text};
use geo_reader::GeoFault;
use grid_reader::GridFault;
use json_text::JsonFault;
use plane_edge::Limit;
use std::alloc::Global;
use topo_reader::TopoFault;

// The line of a fault without fields.
fn plain_line(alloc: Global, file: &str, name: &str) -> Result<Text, NoMemory>
    ensures { IfOk result (λ line. line ≡ refusal file.now (name.now ∷ [])) }
{
    Text::of(
        alloc,
        format!(in alloc; "refused: {file} {name}\n")?.as_str(),
    )
}

// The line of a fault with one number.
fn number_line(alloc: Global, file: &str, name: &str, number: u64) -> Result<Text, NoMemory>
    ensures { IfOk result (λ line. line ≡ refusal file.now (name.now ∷ decimal number ∷ [])) }
{
    Text::of(
        alloc,
        format!(in alloc; "refused: {file} {name} {number}\n")?.as_str(),
    )
}

// The word for a limit.
fn word_of(limit: Limit) -> &'static str
    ensures { result.now ≡ limit_word limit }
{
    match limit {
        Limit::Coordinate => "Coordinate",
        Limit::Areas => "Areas",
        Limit::Edges => "Edges",
        Limit::Cells => "Cells",
    }
}

// The line of a limit that is passed.
fn limit_line(alloc: Global, file: &str, limit: Limit) -> Result<Text, NoMemory>
    ensures { IfOk result (λ line. line ≡ refusal file.now (codes "Limit" ∷ limit_word limit ∷ [])) }
{
    let word = word_of(limit);
    Text::of(
        alloc,
        format!(in alloc; "refused: {file} Limit {word}\n")?.as_str(),
    )
}

// The line of a cell.
fn cell_line(alloc: Global, row: u32, column: u32) -> Result<Text, NoMemory>
    ensures { IfOk result (λ line. line ≡ refusal (codes "map") (codes "Cell" ∷ decimal row ∷ decimal column ∷ [])) }
{
    Text::of(
        alloc,
        format!(in alloc; "refused: map Cell {row} {column}\n")?.as_str(),
    )
}

/// The line of a text that is no grid.
#[tactic(auto, unfolding(crate::specs::FaultLines::grid_line))]
pub fn of_grid(alloc: Global, fault: GridFault) -> Result<Text, NoMemory>
    ensures line { IfOk result (λ line. line ≡ grid_line fault) }
    ensures real { IfOk result (λ _. fault ≢ grid.Memory) }
{
    match fault {
        GridFault::Header { line } => number_line(alloc, "map", "Header", line as u64),
        GridFault::Centred { line } => number_line(alloc, "map", "Centred", line as u64),
        GridFault::Cell { row, column } => cell_line(alloc, row, column),
        GridFault::Count { found } => number_line(alloc, "map", "Count", found),
        GridFault::Limit(limit) => limit_line(alloc, "map", limit),
        GridFault::Memory => Err(NoMemory),
    }
}

/// The line of a text that spells no value of JSON, by what file it is.
#[tactic(auto, unfolding(crate::specs::FaultLines::json_line))]
pub fn of_json(alloc: Global, file: &str, fault: JsonFault) -> Result<Text, NoMemory>
    ensures line { IfOk result (λ line. line ≡ json_line file.now fault) }
    ensures real { IfOk result (λ _. fault ≢ json.Memory) }
{
    match fault {
        JsonFault::Syntax { at } => number_line(alloc, file, "Syntax", at as u64),
        JsonFault::TooDeep { at } => number_line(alloc, file, "TooDeep", at as u64),
        JsonFault::Memory => Err(NoMemory),
    }
}

/// The line of a value that spells no map as TopoJSON, by what file its text is.
#[tactic(auto, unfolding(crate::specs::FaultLines::topology_line))]
pub fn of_topology(alloc: Global, file: &str, fault: TopoFault) -> Result<Text, NoMemory>
    ensures line { IfOk result (λ line. line ≡ topology_line file.now fault) }
    ensures real { IfOk result (λ _. fault ≢ topology.Memory) }
{
    match fault {
        TopoFault::NotTopology => plain_line(alloc, file, "NotTopology"),
        TopoFault::NoObject => plain_line(alloc, file, "NoObject"),
        TopoFault::BadArc { arc } => number_line(alloc, file, "BadArc", arc as u64),
        TopoFault::NotWhole { arc } => number_line(alloc, file, "NotWhole", arc as u64),
        TopoFault::NotPolygonal { place } => number_line(alloc, file, "NotPolygonal", place as u64),
        TopoFault::NoClass { place } => number_line(alloc, file, "NoClass", place as u64),
        TopoFault::BadIndex { place } => number_line(alloc, file, "BadIndex", place as u64),
        TopoFault::OpenRing { place } => number_line(alloc, file, "OpenRing", place as u64),
        TopoFault::Limit(limit) => limit_line(alloc, file, limit),
        TopoFault::Memory => Err(NoMemory),
    }
}

/// The line of a value that spells no map as GeoJSON.
#[tactic(auto, unfolding(crate::specs::FaultLines::features_line))]
pub fn of_features(alloc: Global, fault: GeoFault) -> Result<Text, NoMemory>
    ensures line { IfOk result (λ line. line ≡ features_line fault) }
    ensures real { IfOk result (λ _. fault ≢ features.Memory) }
{
    match fault {
        GeoFault::NotGeoJson => plain_line(alloc, "map", "NotGeoJson"),
        GeoFault::NotPolygonal { place } => number_line(alloc, "map", "NotPolygonal", place as u64),
        GeoFault::NoClass { place } => number_line(alloc, "map", "NoClass", place as u64),
        GeoFault::NotWhole { place } => number_line(alloc, "map", "NotWhole", place as u64),
        GeoFault::OpenRing { place } => number_line(alloc, "map", "OpenRing", place as u64),
        GeoFault::Limit(limit) => limit_line(alloc, "map", limit),
        GeoFault::Memory => Err(NoMemory),
    }
}
