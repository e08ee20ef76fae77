// Rectangles along the axes.
ghost use Rattle.std.specs.Prelude.{◌≡◌, ◌<◌, ◌&&◌, ◌*ℤ◌, ◌≤ℤ◌, length, All};
ghost use Rattle.plane_edge.specs.Coordinate.{IsCoordinate};
ghost use Rattle.plane_edge.specs.Plane.{IsBounded, is_within_of};
ghost use Rattle.arc_dissolve.specs.Extents.{IsLowerLeft, HasEdge, HasExtent, has_spot};

use plane_edge::{Edge, Point, Spot, scale};

/// A rectangle along the axes, its sides included.
#[derive(Clone, Copy, Debug)]
pub struct Extent {
    /// The corner of the least coordinates.
    pub low: Point,
    /// The corner of the greatest coordinates.
    pub high: Point,
}

// The lesser of two coordinates.
fn lesser(a: i32, b: i32) -> i32
    requires a_in_range { IsCoordinate a }
    requires b_in_range { IsCoordinate b }
    ensures first { result ≤ℤ a }
    ensures second { result ≤ℤ b }
    ensures in_range { IsCoordinate result }
{
    if a < b { a } else { b }
}

// The greater of two coordinates.
fn greater(a: i32, b: i32) -> i32
    requires a_in_range { IsCoordinate a }
    requires b_in_range { IsCoordinate b }
    ensures first { a ≤ℤ result }
    ensures second { b ≤ℤ result }
    ensures in_range { IsCoordinate result }
{
    if a < b { b } else { a }
}

// The point with these coordinates.
fn point_at(x: i32, y: i32) -> Point
    requires x_in_range { IsCoordinate x }
    requires y_in_range { IsCoordinate y }
    ensures x { result.x ≡ x }
    ensures y { result.y ≡ y }
{
    Point { y, x }
}

// A point that is neither right of the two nor above them.
fn low_corner(p: Point, q: Point) -> Point
    ensures first { IsLowerLeft result p }
    ensures second { IsLowerLeft result q }
{
    let x = lesser(p.x, q.x);
    let y = lesser(p.y, q.y);
    point_at(x, y)
}

// A point that is neither left of the two nor below them.
fn high_corner(p: Point, q: Point) -> Point
    ensures first { IsLowerLeft p result }
    ensures second { IsLowerLeft q result }
{
    let x = greater(p.x, q.x);
    let y = greater(p.y, q.y);
    point_at(x, y)
}

impl Extent {
    /// The rectangle that an edge spans.
    pub fn of_edge(edge: &Edge) -> Extent
        ensures { HasEdge result edge.now }
    {
        let low = low_corner(edge.low, edge.high);
        let high = high_corner(edge.low, edge.high);
        Extent { low, high }
    }

    /// A rectangle round both.
    pub fn around(&self, other: &Extent) -> Extent
        ensures first { HasExtent result self.now }
        ensures second { HasExtent result other.now }
    {
        let low = low_corner(self.low, other.low);
        let high = high_corner(self.high, other.high);
        Extent { low, high }
    }

    /// A rectangle round all the edges.
    pub fn of_edges(edges: &[Edge]) -> Extent
        requires { 0 < length edges.now }
        ensures { All (HasEdge result) edges.now }
    {
        let mut extent = Extent::of_edge(&edges[0]);
        for edge in edges {
            extent = extent.around(&Extent::of_edge(edge));
        }
        extent
    }

    // Whether the spot is between the sides to the left and to the right.
    fn is_across(&self, spot: &Spot) -> bool
        requires { IsBounded spot.now }
        ensures { result ≡ is_within_of (self.now.low.x *ℤ spot.now.m) spot.now.x (self.now.high.x *ℤ spot.now.m) }
    {
        let least = scale(self.low.x, spot.m);
        let most = scale(self.high.x, spot.m);
        is_between(least, spot.x, most)
    }

    // Whether the spot is between the sides below and above.
    fn is_along(&self, spot: &Spot) -> bool
        requires { IsBounded spot.now }
        ensures { result ≡ is_within_of (self.now.low.y *ℤ spot.now.m) spot.now.y (self.now.high.y *ℤ spot.now.m) }
    {
        let least = scale(self.low.y, spot.m);
        let most = scale(self.high.y, spot.m);
        is_between(least, spot.y, most)
    }

    /// Whether the spot is in the rectangle.
    pub fn has_spot(&self, spot: &Spot) -> bool
        requires { IsBounded spot.now }
        ensures { result ≡ has_spot self.now spot.now }
    {
        let is_across = self.is_across(spot);
        let is_along = self.is_along(spot);
        are_both(is_across, is_along)
    }

    /// Where the middle of the rectangle comes on a path that goes through each quarter of the plane after another, and so within each quarter:
    /// rectangles that follow each other are mostly near each other. No promise rests on it.
    pub fn place_on_path(&self) -> u64 {
        let x = spread(middle(self.low.x, self.high.x));
        let y = spread(middle(self.low.y, self.high.y));
        x | y << 1
    }
}

// Whether both hold.
fn are_both(one: bool, other: bool) -> bool
    ensures { result ≡ one && other }
{
    one && other
}

// Whether the value is from `low` to `high`.
fn is_between(low: i128, value: i128, high: i128) -> bool
    ensures { result ≡ is_within_of low value high }
{
    low <= value && value <= high
}

// Twice the middle of two coordinates, counted from twice the least one.
fn middle(low: i32, high: i32) -> u32 {
    u32::try_from(i64::from(low) + i64::from(high) + (1 << 31)).unwrap_or(u32::MAX)
}

// The binary digits of a number with a 0 before each.
fn spread(number: u32) -> u64 {
    let digits = u64::from(number);
    let digits = (digits | digits << 16) & 0x0000_FFFF_0000_FFFF;
    let digits = (digits | digits << 8) & 0x00FF_00FF_00FF_00FF;
    let digits = (digits | digits << 4) & 0x0F0F_0F0F_0F0F_0F0F;
    let digits = (digits | digits << 2) & 0x3333_3333_3333_3333;
    (digits | digits << 1) & 0x5555_5555_5555_5555
}
