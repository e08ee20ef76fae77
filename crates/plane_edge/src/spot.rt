// Rational points.

/// The rational point `(x/m, y/m)`, in any spelling. It is bounded, so that it may be reckoned with,
/// where `m` is from 1 to 2^63 and `x` and `y` are from -2^93 to 2^93.
#[derive(Clone, Copy, Debug, PartialEq, Eq)]
pub struct Spot {
    pub x: i128,
    pub y: i128,
    pub m: i128,
}
