// Whole numbers that stand for fractions. No stored number passes 2^61, so where a sum or a product is made by an operation that wraps, none
// does.

// How many units a fraction of 1 has.
pub(crate) const ONE: i64 = 1_073_741_824;

// The most that a price or a flow may be, in units of cost over the denominator.
pub(crate) const MOST: i64 = 72_057_594_037_927_936;

// The number, or the nearest that a price may be.
pub(crate) fn nearest_price(number: i128) -> i64 {
    let held = number.max(-i128::from(MOST)).min(i128::from(MOST));
    held as i64
}

// The product of two numbers over 2^bits, rounded to the nearest.
pub(crate) fn rounded_product(a: i64, b: i64, bits: u32) -> i64 {
    let product = i128::from(a).wrapping_mul(i128::from(b));
    let half = 1i128.wrapping_shl(bits) / 2;
    nearest_price(product.wrapping_add(half).wrapping_shr(bits))
}

// The square of a difference.
pub(crate) fn square(a: i64, b: i64) -> i128 {
    let gap = i128::from(a.wrapping_sub(b));
    gap.wrapping_mul(gap)
}

// A quotient that is 0 where the divisor is.
pub(crate) fn over(number: i128, divisor: i128) -> i128 {
    number.checked_div(divisor).unwrap_or(0)
}
