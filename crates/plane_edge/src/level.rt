// Where two edges on one line meet.
ghost use Rattle.std.specs.Prelude.{◌≡◌, ◌≢◌, ◌↔◌, ◌&&◌, ◌||◌, not, ◌≤◌, ◌^◌, pos, IfSome, IfNone, IsTrue, int_lt, int_le};
ghost use Rattle.std.specs.Ordering.{int_eq};
ghost use Rattle.plane_edge.specs.Order.{is_below};
ghost use Rattle.plane_edge.specs.Line.{whole, IsLaterLow, IsEarlierHigh, IsMeetSpot, later_low_of, earlier_high_of, is_end_of};
ghost use Rattle.plane_edge.specs.Plane.{turn, IsBounded, IsMeeting};

use crate::edge::Edge;
use crate::point::Point;
use crate::sight::on;
use crate::spot::Spot;

// Whether the first place comes before the second, by y and then by x.
fn is_before(x: i32, y: i32, other_x: i32, other_y: i32) -> bool
    ensures { result ≡ int_lt y other_y || (int_le y other_y && int_lt x other_x) }
{
    y < other_y || y <= other_y && x < other_x
}

// Whether the first point comes before the second.
fn is_lower(a: Point, b: Point) -> bool
    ensures { result ≡ is_below a b }
{
    is_before(a.x, a.y, b.x, b.y)
}

// The greater low end.
#[tactic(auto, using(crate::proofs::LineLemmas::later_then, crate::proofs::LineLemmas::later_else))]
fn later_low(e: &Edge, f: &Edge) -> Point
    ensures value { result ≡ later_low_of e.now f.now }
    ensures is_later { IsLaterLow e.now f.now result }
{
    if is_lower(e.low, f.low) { f.low } else { e.low }
}

// The lesser high end.
#[tactic(auto, using(crate::proofs::LineLemmas::earlier_then, crate::proofs::LineLemmas::earlier_else))]
fn earlier_high(e: &Edge, f: &Edge) -> Point
    ensures value { result ≡ earlier_high_of e.now f.now }
    ensures is_earlier { IsEarlierHigh e.now f.now result }
{
    if is_lower(e.high, f.high) {
        e.high
    } else {
        f.high
    }
}

/// Whether the numbers of two points are equal.
pub fn are_equal(x: i32, y: i32, other_x: i32, other_y: i32) -> bool
    ensures { result ≡ int_eq x other_x && int_eq y other_y }
{
    x == other_x && y == other_y
}

// Whether the points are equal.
fn is_at(a: Point, b: Point) -> bool
    ensures { result ≡ int_eq a.x b.x && int_eq a.y b.y }
{
    are_equal(a.x, a.y, b.x, b.y)
}

// Whether the point is an end of the edge.
fn is_end(e: &Edge, p: Point) -> bool
    ensures { result ≡ is_end_of e.now p }
{
    let is_low = is_at(e.low, p);
    let is_high = is_at(e.high, p);
    is_either(is_low, is_high)
}

// Whether one of the two holds at least.
fn is_either(a: bool, b: bool) -> bool
    ensures { result ≡ a || b }
{
    a || b
}

/// Whether a point is on both edges, and not an end of both.
pub fn are_met(on_e: bool, on_f: bool, end_of_e: bool, end_of_f: bool) -> bool
    ensures { result ≡ (on_e && on_f) && not (end_of_e && end_of_f) }
{
    on_e && on_f && !(end_of_e && end_of_f)
}

// Whether the edges meet at the point.
fn is_meeting_at(e: &Edge, f: &Edge, p: Point) -> bool
    ensures { IsTrue result ↔ IsMeeting e.now f.now (whole p) }
{
    let spot = spot_of(p);
    let on_e = on(e, &spot);
    let on_f = on(f, &spot);
    let end_of_e = is_end(e, p);
    let end_of_f = is_end(f, p);
    are_met(on_e, on_f, end_of_e, end_of_f)
}

// The spot of a point.
fn spot_of(p: Point) -> Spot
    ensures { result ≡ whole p }
{
    Spot {
        x: i128::from(p.x),
        y: i128::from(p.y),
        m: 1,
    }
}

/// The meeting of two parallel edges.
pub fn meet_level(e: &Edge, f: &Edge) -> Option<Spot>
    requires parallel { turn e.now f.now ≡ pos 0 }
    requires apart { e.now ≢ f.now }
    ensures found { IfSome result (λ s. IsMeetSpot e.now f.now s) }
    ensures bounded { IfSome result (λ s. IsBounded s) }
    ensures nowhere { IfNone result ((s : Spot) → ¬ IsMeeting e.now f.now s) }
{
    let p = later_low(e, f);
    let q = earlier_high(e, f);
    if is_meeting_at(e, f, p) {
        Some(spot_of(p))
    } else if is_meeting_at(e, f, q) {
        Some(spot_of(q))
    } else {
        None
    }
}
