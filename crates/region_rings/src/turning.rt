// Which of two directions a clockwise turn meets first.
ghost use Rattle.std.specs.Prelude.{◌≡◌};
ghost use Rattle.region_rings.specs.Turning.{parts_of, aim, cross_of, dot_of, is_half_turn_of, is_within_half_turn, is_first_by, is_met_sooner};

use crate::heading::Heading;
use plane_edge::{Point, gap, minor, sum_of_products};

/// The direction from one point to another.
pub fn heading(from: &Point, to: &Point) -> Heading
    ensures { parts_of result ≡ aim from.now to.now }
{
    let x = gap(to.x, from.x);
    let y = gap(to.y, from.y);
    Heading { x, y }
}

// Above 0 where `b` is to the left of `a`, below 0 where it is to the right.
fn cross(a: &Heading, b: &Heading) -> i128
    ensures { result ≡ cross_of (parts_of a.now) (parts_of b.now) }
{
    minor(a.x, b.y, a.y, b.x)
}

// Above 0 where `a` and `b` are less than a quarter turn apart.
fn dot(a: &Heading, b: &Heading) -> i128
    ensures { result ≡ dot_of (parts_of a.now) (parts_of b.now) }
{
    sum_of_products(a.x, b.x, a.y, b.y)
}

// Whether the turn is to the right, or straight back.
fn is_half_turn(cross: i128, dot: i128) -> bool
    ensures { result ≡ is_half_turn_of cross dot }
{
    cross < 0 || (cross == 0 && dot < 0)
}

// Whether a clockwise turn from `back` meets the heading after half a turn at most.
fn is_early(back: &Heading, to: &Heading) -> bool
    ensures { result ≡ is_within_half_turn (parts_of back.now) (parts_of to.now) }
{
    let cross = cross(back, to);
    let dot = dot(back, to);
    is_half_turn(cross, dot)
}

/// Of two things the one that passes alone is first, and of two alike the first where `rest` says so.
pub fn is_first(first: bool, second: bool, rest: bool) -> bool
    ensures { result ≡ is_first_by first second rest }
{
    match (first, second) {
        (true, false) => true,
        (false, true) => false,
        _ => rest,
    }
}

/// Whether a clockwise turn from `back` meets `first` before `second`. It comes to `back` itself last.
pub fn is_sooner(back: &Heading, first: &Heading, second: &Heading) -> bool
    ensures { result ≡ is_met_sooner (parts_of back.now) (parts_of first.now) (parts_of second.now) }
{
    let first_early = is_early(back, first);
    let second_early = is_early(back, second);
    let turn = cross(first, second);
    is_first(first_early, second_early, turn < 0)
}
