// The borders of one strip between two heights, from left to right.
ghost use Rattle.std.specs.Prelude.{◌≡◌, ◌≤◌, ◌<◌, ◌^◌, ◌+ℤ◌, ◌-ℤ◌, ◌*ℤ◌, ◌<ℤ◌, ℤ, pos, unsigned_abs, length, filter, int_lt, IfOk, OnOk};
ghost use Rattle.std.specs.List.Sorted.{IsPermutation, IsSortedBy};
ghost use Rattle.std.specs.Ordering.{is_lt};
ghost use Rattle.plane_edge.specs.Coordinate.{IsCoordinate};
ghost use Rattle.plane_edge.specs.Plane.{rise, run};
ghost use Rattle.plane_strip.specs.Strip.{place, lead};
ghost use Rattle.coverage_check.specs.Active.{is_up_to, is_left_of, IsDoneBelow, IsAcross, AreTakenUp};

use crate::border::Border;
use agg_base::NoMemory;
use plane_edge::{Edge, gap, spot_along, sum};
use std::cmp::Ordering;

/// The sum of two heights: twice the height of the mid-line.
pub fn twice_middle(low: i32, high: i32) -> i128
    requires low_in { IsCoordinate low }
    requires high_in { IsCoordinate high }
    ensures value { result ≡ low +ℤ high }
    ensures within { unsigned_abs result ≤ 2 ^ 31 }
{
    sum(low, high)
}

/// Twice the height of the mid-line above the edge's low end.
pub fn twice_above(edge: &Edge, twice: i128) -> i128
    requires { unsigned_abs twice ≤ 2 ^ 31 }
    ensures value { result ≡ twice -ℤ edge.now.low.y *ℤ pos 2 }
    ensures within { unsigned_abs result ≤ 2 ^ 32 }
{
    twice - i128::from(edge.low.y) * 2
}

/// Twice the rise of the edge.
pub fn twice_rise(edge: &Edge) -> i128
    ensures value { result ≡ rise edge.now *ℤ pos 2 }
    ensures within { unsigned_abs result ≤ 2 ^ 32 }
{
    gap(edge.high.y, edge.low.y) * 2
}

// Where the edge passes the mid-line, times twice its rise.
fn place_at(edge: &Edge, twice: i128) -> i128
    requires { unsigned_abs twice ≤ 2 ^ 31 }
    ensures value { result ≡ place edge.now twice (pos 2) }
    ensures within { unsigned_abs result ≤ 2 ^ 64 }
{
    spot_along(edge, twice_above(edge, twice), twice_rise(edge)).x
}

// A place times a rise.
fn product(place: i128, rise: i128) -> i128
    requires place_within { unsigned_abs place ≤ 2 ^ 64 }
    requires rise_within { unsigned_abs rise ≤ 2 ^ 31 }
    ensures { result ≡ place *ℤ rise }
{
    place * rise
}

// Which of two borders passes the mid-line further left.
fn compare_at(b: &Border, c: &Border, twice: i128) -> Ordering
    requires { unsigned_abs twice ≤ 2 ^ 31 }
    ensures { is_lt result ≡ is_left_of twice b.now c.now }
{
    let left = product(place_at(&b.edge, twice), gap(c.edge.high.y, c.edge.low.y));
    let right = product(place_at(&c.edge, twice), gap(b.edge.high.y, b.edge.low.y));
    left.cmp(&right)
}

// Sorts the borders from left to right along the mid-line.
fn sort_along(active: &mut Vec<Border>, twice: i128)
    requires { unsigned_abs twice ≤ 2 ^ 31 }
    ensures permutation { IsPermutation active.old.items active.new.items }
    ensures sorted { IsSortedBy (is_left_of twice) active.new.items }
{
    active.sort_unstable_by(|b, c| compare_at(b, c, twice));
}

// Drops the borders that end below `high`.
fn drop_ended(active: &mut Vec<Border>, high: i32)
    ensures { active.new.items ≡ filter (is_up_to high) active.old.items }
{
    active.retain(|border| high <= border.edge.high.y);
}

// Appends the borders from `from` on that begin at `low` or below and go up to `high`, and gives the number of the first that begins higher.
fn take_up(
    active: &mut Vec<Border>,
    borders: &[Border],
    from: usize,
    low: i32,
    high: i32,
) -> Result<usize, NoMemory>
    requires { from ≤ length borders.now }
    ensures { IfOk result (λ to. AreTakenUp borders.now from to low high active.old.items active.new.items) }
{
    let mut at = from;
    while at < borders.len() && borders[at].edge.low.y <= low {
        if high <= borders[at].edge.high.y {
            active.push(borders[at])?;
        }
        at += 1;
    }
    Ok(at)
}

/// Goes up to the strip from `low` to `high`: `active` then holds its borders from left to right.
pub fn enter(
    active: &mut Vec<Border>,
    borders: &[Border],
    from: usize,
    low: i32,
    high: i32,
) -> Result<usize, NoMemory>
    requires low_in { IsCoordinate low }
    requires high_in { IsCoordinate high }
    requires rising { low <ℤ high }
    requires below { IsDoneBelow borders.now from low active.old.items }
    ensures { IfOk result (λ to. IsAcross borders.now to low high active.new.items) }
{
    drop_ended(active, high);
    let to = take_up(active, borders, from, low, high)?;
    sort_along(active, twice_middle(low, high));
    Ok(to)
}
