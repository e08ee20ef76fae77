//! Whole numbers: the greatest common divisor, exact division, and the laws that every crate above cites.
#![tactic(auto)]

mod divide;

pub use divide::{gcd, quotient};

#[cfg(test)]
mod tests {
    use super::*;

    #[test]
    fn greatest_common_divisors(rt: HostRuntime) {
        for (a, b, common) in [
            (12, 18, 6),
            (18, 12, 6),
            (0, 7, 7),
            (7, 0, 7),
            (0, 0, 0),
            (35, 64, 1),
        ] {
            assert_eq!(rt; gcd(a, b), common);
        }
    }
}
