// Pairs of areas.

/// Two areas, the lesser first. Pairs are ordered by the lesser area, then by the greater one.
#[derive(Clone, Copy, Debug, PartialEq, Eq, PartialOrd, Ord)]
pub struct Pair {
    pub a: u32,
    pub b: u32,
}
