// Directions.
ghost use Rattle.std.specs.Prelude.{◌^◌, ◌≤◌, unsigned_abs};

/// A direction: how far it goes along x and along y.
#[derive(Clone, Copy, Debug)]
pub struct Heading {
    /// To the right.
    pub x: i128,
    /// Upwards.
    pub y: i128,
    ghost x_within: { unsigned_abs x ≤ 2 ^ 31 },
    ghost y_within: { unsigned_abs y ≤ 2 ^ 31 },
}
