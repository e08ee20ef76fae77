// Shells of rings.
ghost use Rattle.std.specs.Prelude.{◌≡◌, ◌<◌, length, All, IfOk};
ghost use Rattle.std.specs.List.Sorted.{IsPermutation};
ghost use Rattle.plane_edge.specs.Rings.{steps_of_ring};
ghost use Rattle.arc_dissolve.specs.Rings.{round_sum};
ghost use Rattle.agg_base.specs.Lists.{lists_of};
ghost use Rattle.arc_dissolve.specs.Shells.{IsShellOf, AreShells};

use crate::extent::Extent;
use crate::numbers::first_arc;
use crate::shell::Shell;
use crate::winding::round_sum;
use agg_base::NoMemory;
use edge_rows::EdgeRows;
use plane_edge::{Point, steps_of_ring};
use std::alloc::Global;

// The shell of a ring at that place, whose sum is known.
fn shell_of(
    alloc: Global,
    place: usize,
    ring: &[i64],
    outline: &[Point],
    sum: i128,
) -> Result<Shell, NoMemory>
    requires some { 0 < length (steps_of_ring outline.now) }
    requires sum { sum ≡ round_sum outline.now }
    ensures place { IfOk result (λ s. s.place ≡ place) }
    ensures tells { IfOk result (λ s. IsShellOf ring.now outline.now s) }
{
    let first = first_arc(ring);
    let steps = steps_of_ring(alloc, outline)?;
    let rows = EdgeRows::of(alloc, &steps)?;
    let extent = Extent::of_edges(&steps);
    Ok(Shell {
        place,
        first,
        sum,
        rows,
        extent,
    })
}

// The shells among the rings in the order of their places.
fn shells_in_order(
    alloc: Global,
    rings: &[Vec<i64>],
    outlines: &[Vec<Point>],
) -> Result<Vec<Shell>, NoMemory>
    requires one_each { length outlines.now ≡ length rings.now }
    requires stepping { All (λ outline. 0 < length (steps_of_ring outline.items)) outlines.now }
    ensures { IfOk result (λ shells. AreShells (lists_of rings.now) (lists_of outlines.now) (length outlines.now) shells.items) }
{
    let mut shells = Vec::new(alloc);
    for place in 0..outlines.len() {
        let sum = round_sum(&outlines[place]);
        if sum > 0 {
            let shell = shell_of(alloc, place, &rings[place], &outlines[place], sum)?;
            shells.push(shell)?;
        }
    }
    Ok(shells)
}

// Brings shells that are near each other together.
fn arrange(shells: &mut Vec<Shell>)
    ensures { IsPermutation shells.old.items shells.new.items }
{
    shells.sort_unstable_by_key(|shell| shell.extent.place_on_path());
}

/// The shells among the rings, of which the outlines have the points. Shells that follow each other are mostly near each other.
pub fn shells_of(
    alloc: Global,
    rings: &[Vec<i64>],
    outlines: &[Vec<Point>],
) -> Result<Vec<Shell>, NoMemory>
    requires one_each { length outlines.now ≡ length rings.now }
    requires stepping { All (λ outline. 0 < length (steps_of_ring outline.items)) outlines.now }
    ensures { IfOk result (λ shells. AreShells (lists_of rings.now) (lists_of outlines.now) (length outlines.now) shells.items) }
{
    let mut shells = shells_in_order(alloc, rings, outlines)?;
    arrange(&mut shells);
    Ok(shells)
}
