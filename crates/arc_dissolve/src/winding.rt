// Which way round a ring goes.
ghost use Rattle.std.specs.Prelude.{◌≡◌, ◌+◌, ◌^◌, ◌≤◌, ◌+ℤ◌, ◌-ℤ◌, ◌*ℤ◌, unsigned_abs};
ghost use Rattle.plane_edge.specs.Coordinate.{IsCoordinate};
ghost use Rattle.arc_dissolve.specs.Rings.{cross, round_sum};

use plane_edge::Point;

// The product of two coordinates.
fn product(a: i32, b: i32) -> i128
    requires a_in_range { IsCoordinate a }
    requires b_in_range { IsCoordinate b }
    ensures value { result ≡ a *ℤ b }
    ensures within { unsigned_abs result ≤ 2 ^ 60 }
{
    i128::from(a) * i128::from(b)
}

// The difference of two products.
fn difference(a: i128, b: i128) -> i128
    requires a_within { unsigned_abs a ≤ 2 ^ 60 }
    requires b_within { unsigned_abs b ≤ 2 ^ 60 }
    ensures value { result ≡ a -ℤ b }
    ensures within { unsigned_abs result ≤ 2 ^ 61 }
{
    a - b
}

// Twice the area of the triangle from (0, 0) to both points and back, above 0 where it goes to the left.
fn cross(from: &Point, to: &Point) -> i128
    ensures value { result ≡ cross from.now to.now }
    ensures within { unsigned_abs result ≤ 2 ^ 61 }
{
    let plus = product(from.x, to.y);
    let minus = product(to.x, from.y);
    difference(plus, minus)
}

// The sum with one more term.
fn add(sum: i128, term: i128) -> i128
    requires sum_within { unsigned_abs sum ≤ 2 ^ 125 }
    requires term_within { unsigned_abs term ≤ 2 ^ 61 }
    ensures value { result ≡ sum +ℤ term }
    ensures within { unsigned_abs result ≤ unsigned_abs sum + 2 ^ 61 }
{
    sum + term
}

/// The sum of these round the ring, which is twice its area: above 0 where the ring has its inside on its left.
pub fn round_sum(ring: &[Point]) -> i128
    ensures { result ≡ round_sum ring.now }
{
    let [first, rest @ ..] = ring else {
        return 0;
    };
    let mut from = *first;
    let mut sum = 0;
    for to in rest {
        sum = add(sum, cross(&from, to));
        from = *to;
    }
    add(sum, cross(&from, first))
}
