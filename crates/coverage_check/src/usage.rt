// Which edge is odd in which area, as a list.
ghost use Rattle.std.specs.Prelude.{◌≡◌, ◌+◌, ◌<◌, ◌≤◌, ◌^◌, ◌++◌, map, length, IfOk, OnOk};
ghost use Rattle.agg_base.specs.declared.limits.TheConstants.{AREAS};
ghost use Rattle.coverage_check.specs.Kept.{odds_of};
ghost use Rattle.coverage_check.specs.Uses.{used_by, uses_from, AreUsesOf};

use crate::kept::OddArea;
use agg_base::NoMemory;
use plane_edge::Edge;
use std::alloc::Global;

/// An area, and an edge that is odd in it. Uses are ordered by edge, then by area.
#[derive(Clone, Copy, Debug, PartialEq, Eq, PartialOrd, Ord)]
pub struct Use {
    pub edge: Edge,
    pub area: u32,
}

// Appends the uses of one area.
fn push_uses(uses: &mut Vec<Use>, odd: &[Edge], area: u32) -> Result<(), NoMemory>
    ensures { OnOk result (uses.new.items ≡ uses.old.items ++ map (λ e. used_by e area) odd.now) }
{
    for edge in odd {
        uses.push(Use { edge: *edge, area })?;
    }
    Ok(())
}

// The uses of all areas, area by area.
fn gather(alloc: Global, areas: &[OddArea]) -> Result<Vec<Use>, NoMemory>
    requires { length areas.now ≤ AREAS }
    ensures { IfOk result (λ uses. uses.items ≡ uses_from 0 (odds_of areas.now)) }
{
    let mut uses = Vec::new(alloc);
    for (number, area) in areas.iter().enumerate() {
        push_uses(&mut uses, area.odd_edges(), number as u32)?;
    }
    Ok(uses)
}

/// The uses of all areas, each once, in rising order.
pub fn uses_of(alloc: Global, areas: &[OddArea]) -> Result<Vec<Use>, NoMemory>
    requires { length areas.now ≤ AREAS }
    ensures { IfOk result (λ uses. AreUsesOf (odds_of areas.now) uses.items) }
{
    let mut uses = gather(alloc, areas)?;
    uses.sort_unstable();
    uses.dedup();
    Ok(uses)
}
