// Points with whole coordinates.
ghost use Rattle.plane_edge.specs.Coordinate.{IsCoordinate};

/// A point with whole coordinates, each from -2^30 to 2^30. Points are ordered by y, then by x.
#[derive(Clone, Copy, Debug, PartialEq, Eq, PartialOrd, Ord, Hash)]
pub struct Point {
    /// Upwards.
    pub y: i32,
    /// To the right.
    pub x: i32,
    ghost y_in_range: { IsCoordinate y },
    ghost x_in_range: { IsCoordinate x },
}
