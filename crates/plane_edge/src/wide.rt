// Steps of reckoning that are exact and stay within 128 bits.
ghost use Rattle.std.specs.Prelude.{◌≡◌, ◌≢◌, ◌+◌, ◌*◌, ◌^◌, ◌<◌, ◌≤◌, ◌+ℤ◌, ◌-ℤ◌, ◌*ℤ◌, ◌<ℤ◌, pos, unsigned_abs};
ghost use Rattle.plane_edge.specs.Coordinate.{IsCoordinate};

/// A coordinate over the denominator `m`.
pub fn scale(a: i32, m: i128) -> i128
    requires in_range { IsCoordinate a }
    requires fine { unsigned_abs m ≤ 2 ^ 63 }
    ensures value { result ≡ a *ℤ m }
    ensures within { unsigned_abs result ≤ 2 ^ 93 }
{
    i128::from(a) * m
}

/// The difference of two coordinates.
pub fn gap(a: i32, b: i32) -> i128
    requires a_in_range { IsCoordinate a }
    requires b_in_range { IsCoordinate b }
    ensures value { result ≡ a -ℤ b }
    ensures within { unsigned_abs result ≤ 2 ^ 31 }
{
    i128::from(a) - i128::from(b)
}

/// The sum of two coordinates.
pub fn sum(a: i32, b: i32) -> i128
    requires a_in_range { IsCoordinate a }
    requires b_in_range { IsCoordinate b }
    ensures value { result ≡ a +ℤ b }
    ensures within { unsigned_abs result ≤ 2 ^ 31 }
{
    i128::from(a) + i128::from(b)
}

/// `a * b + c * d`, exactly, where `b` and `c` are at most 2^31 from 0, and `a` and `d` at most 2^94.
/// The answer is at most 2^126 from 0.
pub fn sum_of_products(a: i128, b: i128, c: i128, d: i128) -> i128
    requires a_within { unsigned_abs a ≤ 2 ^ 94 }
    requires b_within { unsigned_abs b ≤ 2 ^ 31 }
    requires c_within { unsigned_abs c ≤ 2 ^ 31 }
    requires d_within { unsigned_abs d ≤ 2 ^ 94 }
    ensures value { result ≡ a *ℤ b +ℤ c *ℤ d }
    ensures within { unsigned_abs result ≤ 2 ^ 126 }
{
    a * b + c * d
}

/// The difference of two scaled coordinates.
pub fn difference(a: i128, b: i128) -> i128
    requires a_within { unsigned_abs a ≤ 2 ^ 93 }
    requires b_within { unsigned_abs b ≤ 2 ^ 93 }
    ensures value { result ≡ a -ℤ b }
    ensures within { unsigned_abs result ≤ 2 ^ 94 }
{
    a - b
}

/// `a * b - c * d`, exactly, where all four are at most 2^31 from 0, as gaps are. The answer is at most
/// 2^63 from 0.
pub fn minor(a: i128, b: i128, c: i128, d: i128) -> i128
    requires a_within { unsigned_abs a ≤ 2 ^ 31 }
    requires b_within { unsigned_abs b ≤ 2 ^ 31 }
    requires c_within { unsigned_abs c ≤ 2 ^ 31 }
    requires d_within { unsigned_abs d ≤ 2 ^ 31 }
    ensures value { result ≡ a *ℤ b -ℤ c *ℤ d }
    ensures within { unsigned_abs result ≤ 2 ^ 63 }
{
    a * b - c * d
}

/// The coordinate at the part `part` of `m` of a stretch.
pub fn place_along(low: i32, m: i128, part: i128, gap: i128) -> i128
    requires in_range { IsCoordinate low }
    requires m_within { unsigned_abs m ≤ 2 ^ 63 }
    requires part_within { unsigned_abs part ≤ 2 ^ 63 }
    requires gap_within { unsigned_abs gap ≤ 2 ^ 31 }
    ensures { result ≡ low *ℤ m +ℤ part *ℤ gap }
{
    let start = scale(low, m);
    sum_of_products(start, 1, gap, part)
}

/// `value`, with its sign changed where `sign` is below 0.
pub fn times_sign(sign: i128, value: i128) -> i128
    requires is_sign { unsigned_abs sign ≤ 1 }
    requires value_within { unsigned_abs value ≤ 2 ^ 63 }
    ensures value { result ≡ sign *ℤ value }
    ensures within { unsigned_abs result ≤ 2 ^ 63 }
{
    sign * value
}

/// 1 or -1, of the sign of `value`.
pub fn sign_of(value: i128) -> i128
    requires { value ≢ pos 0 }
    ensures is_sign { unsigned_abs result ≤ 1 }
    ensures positive { pos 0 <ℤ (result *ℤ value) }
{
    if value < 0 { -1 } else { 1 }
}
