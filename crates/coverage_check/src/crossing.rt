// The first two edges that cross.
ghost use Rattle.std.specs.Prelude.{◌≡◌, ◌≢◌, ◌≤◌, ◌<◌, ◌+◌, ◌&&◌, IsTrue, IfOk, IfSome, IfNone, Contains, length, int_lt};
ghost use Rattle.std.specs.Int.{int_min, int_max};
ghost use Rattle.plane_edge.specs.Edges.{is_edge_below, IsRisingEdges};
ghost use Rattle.plane_edge.specs.Line.{IsMeetSpot};
ghost use Rattle.plane_strip.specs.Strip.{IsPlanar};
ghost use Rattle.coverage_check.specs.Crossing.{IsFirstCrossing};
ghost use Rattle.coverage_check.specs.Spans.{AreSpans};
ghost use Rattle.coverage_check.specs.Partners.{left_of, right_of, is_across, NeverMeet, MeetsNone, IsFirstPartner};

use crate::beside::next_across;
use crate::span::{Span, left_of, right_of, spans_of};
use agg_base::NoMemory;
use plane_edge::{Edge, Spot, meet};
use std::alloc::Global;

/// Two edges that cross, the lesser first, and the spot of `meet`.
#[derive(Clone, Copy, Debug, PartialEq, Eq)]
pub struct Crossing {
    pub e: Edge,
    pub f: Edge,
    pub spot: Spot,
}

/// The first pair of the edges that cross: the least edge that crosses another, and the least one
/// that it crosses.
pub fn first_crossing(alloc: Global, edges: &[Edge]) -> Result<Option<Crossing>, NoMemory>
    requires { IsRisingEdges edges.now }
    ensures found { IfOk result (λ r. IfSome r (λ c. IsFirstCrossing (Contains edges.now) c.e c.f c.spot)) }
    ensures none { IfOk result (λ r. IfNone r (IsPlanar edges.now)) }
{
    let spans = spans_of(alloc, edges)?;
    for at in 0..edges.len() {
        if let Some((place, spot)) = first_partner(edges, &spans, at) {
            return Ok(Some(Crossing {
                e: edges[at],
                f: edges[place],
                spot,
            }));
        }
    }
    Ok(None)
}

// The place of the first later edge that crosses the one at `at`, and the spot where. Only those are
// tried that begin no higher than that one ends, and of those beside it only a few.
fn first_partner(edges: &[Edge], spans: &[Span], at: usize) -> Option<(usize, Spot)>
    requires rising { IsRisingEdges edges.now }
    requires spans { AreSpans edges.now (length edges.now) spans.now }
    requires within { at < length edges.now }
    ensures found { IfSome result (λ r. IsFirstPartner edges.now at r.0 r.1) }
    ensures none { IfNone result (MeetsNone edges.now at (length edges.now)) }
{
    let e = &edges[at];
    let left = left_of(e);
    let right = right_of(e);
    let mut place = at + 1;
    while place < edges.len() {
        let f = &edges[place];
        if is_beyond(f, e) {
            return None;
        }
        if let Some(spot) = meet_across(e, f, left, right) {
            return Some((place, spot));
        }
        place = next_across(edges, spans, place, left, right);
    }
    None
}

// Whether `f` begins higher than `e` ends.
#[inline]
fn is_beyond(f: &Edge, e: &Edge) -> bool
    ensures { result ≡ int_lt e.now.high.y f.now.low.y }
{
    f.low.y > e.high.y
}

// Where the edges meet; the first one is from `left` to `right`.
#[inline]
fn meet_across(e: &Edge, f: &Edge, left: i32, right: i32) -> Option<Spot>
    requires differ { e.now ≢ f.now }
    requires from { left ≡ left_of e.now }
    requires to { right ≡ right_of e.now }
    ensures found { IfSome result (λ s. IsMeetSpot e.now f.now s) }
    ensures none { IfNone result (NeverMeet e.now f.now) }
{
    if is_across_range(f, left, right) {
        meet(e, f)
    } else {
        None
    }
}

// Whether the edge has an x from `left` to `right`.
#[inline]
fn is_across_range(f: &Edge, left: i32, right: i32) -> bool
    ensures { result ≡ is_across f.now left right }
{
    left_of(f) <= right && left <= right_of(f)
}

#[cfg(test)]
mod tests {
    use super::first_crossing;
    use agg_base::Text;
    use plane_edge::{Area, Point, Spot, odd};
    use std::test::Fail;

    #[test]
    fn a_bow_tie_crosses(rt: HostRuntime) -> Result<(), Fail> {
        let alloc = rt.alloc();
        for (points, spot) in [
            (
                [[0, 0], [2, 2], [2, 0], [0, 2]],
                Some(Spot { x: 1, y: 1, m: 1 }),
            ),
            (
                [[0, 0], [3, 1], [3, 0], [0, 1]],
                Some(Spot { x: 3, y: 1, m: 2 }),
            ),
            ([[0, 0], [2, 0], [2, 2], [0, 2]], None),
            (
                [[0, 0], [4, 0], [2, 0], [2, 3]],
                Some(Spot { x: 2, y: 0, m: 1 }),
            ),
        ] {
            let mut ring = Vec::new(alloc);
            for [x, y] in points {
                ring.push(Point::of(x, y).ok_or("a point")?)?;
            }
            let mut rings = Vec::new(alloc);
            rings.push(ring)?;
            let area = Area::of_rings(alloc, Text::of(alloc, "wood")?, &rings)?;
            let edges = odd(alloc, &area)?;
            assert_eq!(rt;
                first_crossing(alloc, &edges)?.map(|c| c.spot),
                spot,
                "at {points:?}"
            );
        }
        Ok(())
    }
}
