// The first place inside two areas.
ghost use Rattle.std.specs.Prelude.{◌<ℤ◌, pos, All, length, IfOk, IfSome, IfNone, ◌-◌};
ghost use Rattle.plane_edge.specs.Coordinate.{IsCoordinate};
ghost use Rattle.plane_edge.specs.Plane.{Same, IsLowest};
ghost use Rattle.coverage_check.specs.Active.{AreLaidOut};
ghost use Rattle.coverage_check.specs.Strips.{mid_of, IsFirstIn, IsNoneBelow};
ghost use Rattle.coverage_check.specs.Walk.{odds_in};

use crate::border::Border;
use crate::strip::{enter, twice_above, twice_middle, twice_rise};
use crate::walk::first_twice;
use agg_base::NoMemory;
use plane_edge::{Spot, lowest, spot_along};
use std::alloc::Global;

/// A place inside two areas, in lowest terms, and the two least of the areas that it is inside.
#[derive(Clone, Copy, Debug)]
pub struct Overlap {
    pub a: u32,
    pub b: u32,
    pub spot: Spot,
}

// Where the border is in the middle of two heights, in lowest terms.
fn middle_spot(border: &Border, low: i32, high: i32) -> Spot
    requires low_in { IsCoordinate low }
    requires high_in { IsCoordinate high }
    ensures same { Same (mid_of low high border.now.edge) result }
    ensures real { pos 0 <ℤ result.m }
    ensures is_lowest { IsLowest result }
{
    let edge = &border.edge;
    let above = twice_above(edge, twice_middle(low, high));
    lowest(&spot_along(edge, above, twice_rise(edge)))
}

/// On the lowest mid-line of neighbouring heights that has a place inside two areas, the leftmost
/// such place. Needs the borders in rising order, and the heights of all their ends.
pub fn first_overlap(
    alloc: Global,
    heights: &[i32],
    borders: &[Border],
) -> Result<Option<Overlap>, NoMemory>
    requires heights_in { All IsCoordinate heights.now }
    requires laid { AreLaidOut heights.now borders.now }
    ensures found { IfOk result (λ r. IfSome r (λ o. IsFirstIn (odds_in borders.now) heights.now o.a o.b o.spot)) }
    ensures nowhere { IfOk result (λ r. IfNone r (IsNoneBelow (odds_in borders.now) heights.now (length heights.now - 1))) }
{
    let mut active = Vec::new(alloc);
    let mut next = 0;
    for at in 1..heights.len() {
        let low = heights[at - 1];
        let high = heights[at];
        next = enter(&mut active, borders, next, low, high)?;
        if let Some(place) = first_twice(&active) {
            let spot = middle_spot(&active[place.at], low, high);
            return Ok(Some(Overlap {
                a: place.a,
                b: place.b,
                spot,
            }));
        }
    }
    Ok(None)
}
