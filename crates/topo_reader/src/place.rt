// The geometries of the picked object.
ghost use Rattle.std.specs.Prelude.{◌≡◌, ◌+◌, ◌<◌, ◌≤◌, ◌||◌, List, ℕ, length, IfOk, IfErr, count_by};
ghost use Rattle.agg_base.specs.Lists.{lists_of};
ghost use Rattle.agg_base.specs.declared.limits.TheConstants.{AREAS, STEPS, TEXT_BYTES};
ghost use Rattle.json_text.specs.Values.{json_of, list_of};
ghost use Rattle.plane_edge.specs.Rings.{step_count};
ghost use Rattle.topo_reader.specs.Indexes.{rings_in};
ghost use Rattle.topo_reader.specs.PlaceFaults.{BreaksPlace, IsAreaBehind, SpellAreas, IsPlaceFault};
ghost use Rattle.topo_reader.specs.RingRules.{BreaksRings, IsAreaOf, ForRings};
ghost use Rattle.topo_reader.specs.Rules.{UnlessMemory};
ghost use Rattle.topo_reader.specs.Thinned.{ForArcs};
ghost use Rattle.topo_reader.specs.Topology.{is_passed};

use crate::TopoFault;
use crate::paths::{are_closed, are_indexes, have_few_steps, points_of};
use crate::rings::rings_of;
use agg_base::Text;
use agg_base::limits::{AREAS, STEPS};
use json_text::Tree;
use map_values::{area_of, class_of, is_null};
use plane_edge::{Area, Limit, Point};
use std::alloc::Global;

// The areas of geometries, and how many are passed over. The arcs are thinned: none has a point twice in a row.
pub(crate) fn read_places(
    alloc: Global,
    arcs: &[Vec<Point>],
    name: &str,
    places: &[Tree],
) -> Result<(Vec<Area>, u32), TopoFault>
    requires few_arcs { length arcs.now ≤ TEXT_BYTES }
    requires few_places { length places.now ≤ TEXT_BYTES }
    ensures found { IfOk result (λ p. ForArcs (lists_of arcs.now) (λ paths. SpellAreas paths name.now (list_of places.now) p.0.items)) }
    ensures few_areas { IfOk result (λ p. length p.0.items ≤ AREAS) }
    ensures few_steps { IfOk result (λ p. step_count p.0.items ≤ STEPS) }
    ensures few_passed { IfOk result (λ p. p.1 ≤ TEXT_BYTES) }
    ensures passed { IfOk result (λ p. p.1 ≡ count_by is_passed (list_of places.now)) }
    ensures fault { IfErr result (λ f. UnlessMemory f (ForArcs (lists_of arcs.now) (λ paths. IsPlaceFault paths name.now (list_of places.now) f))) }
{
    let mut areas = Vec::new(alloc);
    let mut passed = 0;
    let mut steps = 0;
    for at in 0..places.len() {
        let place = &places[at];
        if is_passed(place) {
            passed += 1;
            continue;
        }
        let count = areas.len();
        let area = read_place(alloc, arcs, name, at as u32, count, steps, place)?;
        steps += area.steps().len();
        areas.push(area)?;
    }
    Ok((areas, passed))
}

// Whether a geometry is passed over: it is null, or its type is.
fn is_passed(tree: &Tree) -> bool
    ensures { result ≡ is_passed (json_of tree.now) }
{
    is_null(Some(tree)) || is_null(tree.member("type"))
}

// The area of the geometry at that place, behind so many areas with so many steps.
fn read_place(
    alloc: Global,
    arcs: &[Vec<Point>],
    name: &str,
    at: u32,
    count: usize,
    steps: usize,
    tree: &Tree,
) -> Result<Area, TopoFault>
    requires few_arcs { length arcs.now ≤ TEXT_BYTES }
    requires few_steps { steps ≤ STEPS }
    ensures found { IfOk result (λ area. ForArcs (lists_of arcs.now) (λ paths. IsAreaBehind paths name.now count steps (json_of tree.now) area)) }
    ensures room { IfOk result (λ area. count < AREAS) }
    ensures few { IfOk result (λ area. steps + length area.steps ≤ STEPS) }
    ensures fault { IfErr result (λ f. UnlessMemory f (ForArcs (lists_of arcs.now) (λ paths. BreaksPlace paths name.now at count steps (json_of tree.now) f))) }
{
    let Some(rings) = rings_of(alloc, tree)? else {
        return Err(TopoFault::NotPolygonal { place: at });
    };
    if count >= AREAS {
        return Err(TopoFault::Limit(Limit::Areas));
    }
    let Some(class) = class_of(alloc, tree, name)? else {
        return Err(TopoFault::NoClass { place: at });
    };
    rings_area(alloc, arcs, &rings, class, at, steps)
}

// The area of rings with that class, behind so many steps.
fn rings_area(
    alloc: Global,
    arcs: &[Vec<Point>],
    rings: &[&[Tree]],
    class: Text,
    at: u32,
    steps: usize,
) -> Result<Area, TopoFault>
    requires few_arcs { length arcs.now ≤ TEXT_BYTES }
    requires few_steps { steps ≤ STEPS }
    ensures found { IfOk result (λ area. ForRings (lists_of arcs.now) (rings_in rings.now) (λ paths texts. IsAreaOf paths class steps texts area)) }
    ensures few { IfOk result (λ area. steps + length area.steps ≤ STEPS) }
    ensures fault { IfErr result (λ f. UnlessMemory f (ForRings (lists_of arcs.now) (rings_in rings.now) (λ paths texts. BreaksRings paths at steps texts f))) }
{
    if !are_indexes(rings, arcs.len()) {
        return Err(TopoFault::BadIndex { place: at });
    }
    if !are_closed(arcs, rings) {
        return Err(TopoFault::OpenRing { place: at });
    }
    if !have_few_steps(arcs, rings, STEPS - steps) {
        return Err(TopoFault::Limit(Limit::Edges));
    }
    let points = points_of(alloc, arcs, rings)?;
    let Some(area) = area_of(alloc, class, &points, steps)? else {
        return Err(TopoFault::Limit(Limit::Edges));
    };
    Ok(area)
}
