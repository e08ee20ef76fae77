// Where two edges meet.
ghost use Rattle.std.specs.Prelude.{◌≡◌, ◌≢◌, ◌≤◌, ◌^◌, ◌*ℤ◌, ◌<ℤ◌, pos, unsigned_abs, IfSome, IfNone};
ghost use Rattle.plane_edge.specs.Line.{IsMeetSpot};
ghost use Rattle.plane_edge.specs.Plane.{turn, offset, along, is_part, is_end_part, are_meeting_parts, Same, IsBounded, IsCommon, IsLowest, IsMeeting};

use crate::edge::Edge;
use crate::level::{are_met, meet_level};
use crate::spot::Spot;
use crate::wide::{gap, minor, place_along, sign_of, times_sign};
use whole_ring::{gcd, quotient};

// 0 exactly where the edges are parallel.
fn turn_of(e: &Edge, f: &Edge) -> i128
    ensures value { result ≡ turn e.now f.now }
    ensures within { unsigned_abs result ≤ 2 ^ 63 }
{
    let run = gap(e.high.x, e.low.x);
    let rise = gap(e.high.y, e.low.y);
    let other_run = gap(f.high.x, f.low.x);
    let other_rise = gap(f.high.y, f.low.y);
    minor(run, other_rise, rise, other_run)
}

// How far the low ends of `e` and `f` are apart, across the direction of `g`.
fn offset_of(e: &Edge, f: &Edge, g: &Edge) -> i128
    ensures value { result ≡ offset e.now f.now g.now }
    ensures within { unsigned_abs result ≤ 2 ^ 63 }
{
    let right = gap(f.low.x, e.low.x);
    let up = gap(f.low.y, e.low.y);
    let run = gap(g.high.x, g.low.x);
    let rise = gap(g.high.y, g.low.y);
    minor(right, rise, up, run)
}

/// The spot at the part `part` of `m` of the edge.
pub fn spot_along(e: &Edge, part: i128, m: i128) -> Spot
    requires m_within { unsigned_abs m ≤ 2 ^ 63 }
    requires part_within { unsigned_abs part ≤ 2 ^ 63 }
    ensures { result ≡ along e.now part m }
{
    let run = gap(e.high.x, e.low.x);
    let rise = gap(e.high.y, e.low.y);
    let x = place_along(e.low.x, m, part, run);
    let y = place_along(e.low.y, m, part, rise);
    Spot { x, y, m }
}

// Whether both parts are from 0 to `m`, and not both an end.
fn are_meeting_parts(one: i128, other: i128, m: i128) -> bool
    ensures { result ≡ are_meeting_parts one other m }
{
    let one_in = is_in(one, m);
    let other_in = is_in(other, m);
    let one_at_end = is_at_end(one, m);
    let other_at_end = is_at_end(other, m);
    are_met(one_in, other_in, one_at_end, other_at_end)
}

// Whether `part` is from 0 to `m`.
fn is_in(part: i128, m: i128) -> bool
    ensures { result ≡ is_part part m }
{
    0 <= part && part <= m
}

// Whether `part` is 0 or `m`.
fn is_at_end(part: i128, m: i128) -> bool
    ensures { result ≡ is_end_part part m }
{
    part == 0 || part == m
}

// The greatest number that divides all three.
fn greatest_common(x: i128, y: i128, m: i128) -> u128
    requires real { pos 0 <ℤ m }
    ensures { IsCommon x y m result }
{
    let across = gcd(x.unsigned_abs(), y.unsigned_abs());
    gcd(across, m.unsigned_abs())
}

/// The same point in lowest terms: no whole number above 1 divides all three numbers.
pub fn lowest(spot: &Spot) -> Spot
    requires real { pos 0 <ℤ spot.now.m }
    requires fine { unsigned_abs spot.now.m ≤ 2 ^ 63 }
    ensures same { Same spot.now result }
    ensures real { pos 0 <ℤ result.m }
    ensures fine { unsigned_abs result.m ≤ 2 ^ 63 }
    ensures is_lowest { IsLowest result }
{
    let common = greatest_common(spot.x, spot.y, spot.m);
    let x = quotient(spot.x, common);
    let y = quotient(spot.y, common);
    let m = quotient(spot.m, common);
    Spot { x, y, m }
}

// The meeting of two edges that are not parallel.
fn meet_across(e: &Edge, f: &Edge, turning: i128) -> Option<Spot>
    requires is_turn { turning ≡ turn e.now f.now }
    requires across { turning ≢ pos 0 }
    requires within { unsigned_abs turning ≤ 2 ^ 63 }
    ensures found { IfSome result (λ s. IsMeetSpot e.now f.now s) }
    ensures bounded { IfSome result (λ s. IsBounded s) }
    ensures nowhere { IfNone result ((s : Spot) → ¬ IsMeeting e.now f.now s) }
{
    let sign = sign_of(turning);
    let m = times_sign(sign, turning);
    let part = times_sign(sign, offset_of(e, f, f));
    let other_part = times_sign(sign, offset_of(e, f, e));
    if are_meeting_parts(part, other_part, m) {
        Some(lowest(&spot_along(e, part, m)))
    } else {
        None
    }
}

/// The spot where two different edges meet, in lowest terms; `None` exactly where no rational point
/// lies on both without being an end of both. Edges on different lines meet at their one common
/// point. Edges on one line meet at the greater low end unless that is an end of both, else at the
/// lesser high end.
pub fn meet(e: &Edge, f: &Edge) -> Option<Spot>
    requires { e.now ≢ f.now }
    ensures found { IfSome result (λ s. IsMeetSpot e.now f.now s) }
    ensures bounded { IfSome result (λ s. IsBounded s) }
    ensures nowhere { IfNone result ((s : Spot) → ¬ IsMeeting e.now f.now s) }
{
    let turning = turn_of(e, f);
    if turning == 0 {
        meet_level(e, f)
    } else {
        meet_across(e, f, turning)
    }
}
