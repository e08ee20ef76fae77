// The rings of all regions.
ghost use Rattle.std.specs.Prelude.{◌≡◌, ◌≤◌, ◌++◌, length, map, All, IfOk, OnOk};
ghost use Rattle.std.specs.List.{AllZip};
ghost use Rattle.plane_edge.specs.Edges.{HaveEvenEnds, IsRisingEdges};
ghost use Rattle.region_rings.specs.RegionRings.{AreRingsOf};
ghost use Rattle.arc_dissolve.specs.Drawing.{one_list};
ghost use Rattle.arc_dissolve.specs.Rings.{AreLeftRings};
ghost use Rattle.agg_base.specs.Lists.{lists_of, nested_of};

use agg_base::NoMemory;
use agg_base::limits::STEPS;
use plane_edge::{Edge, Point};
use region_rings::rings_of;
use std::alloc::Global;

/// All rings, and how many each region has.
#[derive(Drop)]
pub struct Groups {
    pub rings: Vec<Vec<Point>>,
    pub counts: Vec<usize>,
}

/// The rings of each region. Where the edges of a border meet in common ends only, each of its rings has what is inside them on its left.
pub fn all_rings(alloc: Global, borders: &[Vec<Edge>]) -> Result<Vec<Vec<Vec<Point>>>, NoMemory>
    requires rising { All (λ border. IsRisingEdges border.items) borders.now }
    requires even { All (λ border. HaveEvenEnds border.items) borders.now }
    requires few { All (λ border. length border.items ≤ STEPS) borders.now }
    ensures rings { IfOk result (λ groups. AllZip AreRingsOf (lists_of borders.now) (nested_of groups.items)) }
    ensures left { IfOk result (λ groups. AllZip AreLeftRings (lists_of borders.now) (nested_of groups.items)) }
{
    let mut groups = Vec::new(alloc);
    for border in borders {
        groups.push(rings_of(alloc, border)?)?;
    }
    Ok(groups)
}

// Appends the rings.
fn push_all(rings: &mut Vec<Vec<Point>>, group: Vec<Vec<Point>>) -> Result<(), NoMemory>
    ensures { OnOk result (lists_of rings.new.items ≡ lists_of rings.old.items ++ lists_of group.items) }
{
    for ring in group {
        rings.push(ring)?;
    }
    Ok(())
}

/// The rings of all regions in one list.
pub fn flatten(alloc: Global, groups: Vec<Vec<Vec<Point>>>) -> Result<Groups, NoMemory>
    ensures rings { IfOk result (λ g. lists_of g.rings.items ≡ one_list (nested_of groups.items)) }
    ensures counts { IfOk result (λ g. g.counts.items ≡ map (λ group. length group) (nested_of groups.items)) }
{
    let mut rings = Vec::new(alloc);
    let mut counts = Vec::new(alloc);
    for group in groups {
        counts.push(group.len())?;
        push_all(&mut rings, group)?;
    }
    Ok(Groups { rings, counts })
}
