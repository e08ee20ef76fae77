// With which shell each ring stands.
ghost use Rattle.std.specs.Prelude.{◌≡◌, ◌↔◌, ◌+◌, ◌<◌, IsTrue, true, false, length, slice_index_or, All, IfSome, IfNone, IfOk};
ghost use Rattle.plane_edge.specs.Plane.{IsBounded, IsInside};
ghost use Rattle.plane_edge.specs.Rings.{steps_of_ring};
ghost use Rattle.arc_dissolve.specs.declared.shell.Shell.{Shell};
ghost use Rattle.agg_base.specs.Lists.{lists_of};
ghost use Rattle.arc_dissolve.specs.Reaches.{AreReachesOf};
ghost use Rattle.arc_dissolve.specs.Shells.{IsNoLater, IsBestOf, IsOutside, IsHead, AreHeadsOf};

use crate::edges::middle_of_least;
use crate::reach::{Reach, reaches_of};
use crate::shell::Shell;
use crate::winding::round_sum;
use agg_base::NoMemory;
use plane_edge::{Point, Spot};
use std::alloc::Global;

// Whether the first shell has the lesser sum, or the same sum and the lesser first arc.
fn is_earlier(one: &Shell, other: &Shell) -> bool
    ensures before { result ≡ true → IsNoLater one.now other.now }
    ensures after { result ≡ false → IsNoLater other.now one.now }
{
    one.sum < other.sum || one.sum == other.sum && one.first < other.first
}

// Whether the shell is taken before the best so far.
fn is_better(shells: &[Shell], at: usize, best: Option<usize>) -> bool
    requires at { at < length shells.now }
    requires best { IfSome best (λ b. b < length shells.now) }
    ensures none { IfNone best (result ≡ true) }
    ensures before { IfSome best (λ b. (d : Shell) → result ≡ true → IsNoLater (slice_index_or shells.now at d) (slice_index_or shells.now b d)) }
    ensures after { IfSome best (λ b. (d : Shell) → result ≡ false → IsNoLater (slice_index_or shells.now b d) (slice_index_or shells.now at d)) }
{
    match best {
        Some(best) => is_earlier(&shells[at], &shells[best]),
        None => true,
    }
}

// Whether the spot is inside the shell.
fn is_inside(shell: &Shell, spot: &Spot) -> bool
    requires { IsBounded spot.now }
    ensures { IsTrue result ↔ IsInside shell.now.rows spot.now }
{
    if !shell.extent.has_spot(spot) {
        return false;
    }
    shell.rows.inside(spot)
}

// The best of the shells before the place and the one at it, where the best of those before it is known.
fn best_with(shells: &[Shell], spot: &Spot, at: usize, best: Option<usize>) -> Option<usize>
    requires bounded { IsBounded spot.now }
    requires at { at < length shells.now }
    requires some { IfSome best (λ b. IsBestOf shells.now spot.now at b) }
    requires none { IfNone best (IsOutside shells.now spot.now at) }
    ensures some { IfSome result (λ b. IsBestOf shells.now spot.now (at + 1) b) }
    ensures none { IfNone result (IsOutside shells.now spot.now (at + 1)) }
{
    let is_inside = is_inside(&shells[at], spot);
    if is_inside && is_better(shells, at, best) {
        Some(at)
    } else {
        best
    }
}

// The least shell that the spot is inside; of two alike the one with the lesser first arc. Of shells in a box that does not hold the spot none is tested.
fn best_around(shells: &[Shell], reaches: &[Reach], spot: &Spot) -> Option<usize>
    requires bounded { IsBounded spot.now }
    requires reaches { AreReachesOf shells.now reaches.now }
    ensures some { IfSome result (λ best. IsBestOf shells.now spot.now (length shells.now) best) }
    ensures none { IfNone result (IsOutside shells.now spot.now (length shells.now)) }
{
    let mut best = None;
    let mut at = 0;
    while at < shells.len() {
        let reach = &reaches[at];
        if reach.extent.has_spot(spot) {
            best = best_with(shells, spot, at, best);
            at += 1;
        } else {
            at = reach.end;
        }
    }
    best
}

// The place of the ring that the ring at that place stands with: its own where it is a shell, or where no shell is around it; else that of
// the best shell around it.
fn head_of(
    alloc: Global,
    shells: &[Shell],
    reaches: &[Reach],
    place: usize,
    outline: &[Point],
) -> Result<usize, NoMemory>
    requires some { 0 < length (steps_of_ring outline.now) }
    requires reaches { AreReachesOf shells.now reaches.now }
    ensures { IfOk result (λ head. IsHead shells.now outline.now place head) }
{
    if round_sum(outline) > 0 {
        return Ok(place);
    }
    let spot = middle_of_least(alloc, outline)?;
    match best_around(shells, reaches, &spot) {
        Some(best) => Ok(shells[best].place),
        None => Ok(place),
    }
}

/// For each ring the place of the one that it stands with.
pub fn heads_of(
    alloc: Global,
    shells: &[Shell],
    outlines: &[Vec<Point>],
) -> Result<Vec<usize>, NoMemory>
    requires { All (λ outline. 0 < length (steps_of_ring outline.items)) outlines.now }
    ensures { IfOk result (λ heads. AreHeadsOf shells.now (lists_of outlines.now) heads.items) }
{
    let reaches = reaches_of(alloc, shells)?;
    let mut heads = Vec::new(alloc);
    for place in 0..outlines.len() {
        heads.push(head_of(alloc, shells, &reaches, place, &outlines[place])?)?;
    }
    Ok(heads)
}
