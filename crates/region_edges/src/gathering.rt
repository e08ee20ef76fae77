// The odd edges of the areas of each region.
ghost use Rattle.std.specs.Prelude.{◌≡◌, ◌<◌, ◌++◌, ℕ, [], IfOk, OnOk, length, replicate, slice_set};
ghost use Rattle.agg_model.specs.Problem.{region};
ghost use Rattle.coverage_check.specs.Checked.{IsChecked};
ghost use Rattle.coverage_check.specs.Kept.{odds_of};
ghost use Rattle.region_edges.specs.Gathering.{AreGathered};
ghost use Rattle.region_edges.specs.RegionEdges.{list_at};
ghost use Rattle.agg_base.specs.Lists.{lists_of};

use agg_base::NoMemory;
use agg_model::Grouping;
use coverage_check::Checked;
use plane_edge::Edge;
use std::alloc::Global;

// So many empty lists.
fn empty_lists(alloc: Global, count: usize) -> Result<Vec<Vec<Edge>>, NoMemory>
    ensures { IfOk result (λ edges. lists_of edges.items ≡ replicate count []) }
{
    let mut edges = Vec::with_capacity(alloc, count)?;
    for _region in 0..count {
        edges.push(Vec::new(alloc))?;
    }
    Ok(edges)
}

// Appends the odd edges of an area to the list of its region.
fn add_area(edges: &mut Vec<Vec<Edge>>, region: usize, odd: &[Edge]) -> Result<(), NoMemory>
    requires { region < length edges.old.items }
    ensures { OnOk result (lists_of edges.new.items ≡ slice_set (lists_of edges.old.items) region (list_at (lists_of edges.old.items) region ++ odd.now)) }
{
    let list = &mut edges[region];
    list.extend_from_slice(odd)?;
    Ok(())
}

/// For each region the odd edges of its areas, one area after another.
pub fn gather(
    alloc: Global,
    checked: &Checked,
    grouping: &Grouping,
) -> Result<Vec<Vec<Edge>>, NoMemory>
    requires one_each { length grouping.now.region_of ≡ length checked.now.areas }
    requires in_range { (v : ℕ) → v < length grouping.now.region_of → region grouping.now v < length grouping.now.class_of }
    ensures lists { IfOk result (λ edges. AreGathered (odds_of checked.now.areas) (region grouping.now) (length grouping.now.class_of) (length checked.now.areas) (lists_of edges.items)) }
    ensures checked { IfOk result (λ _. IsChecked checked.now.areas) }
{
    let mut edges = empty_lists(alloc, grouping.class_of.len())?;
    for area in 0..checked.areas() as u32 {
        let region = grouping.region(area);
        add_area(&mut edges, region as usize, checked.odd(area))?;
    }
    Ok(edges)
}
