// Certificates: what was found, and what proves it.
use agg_model::Grouping;
use row_laws::{Leaf, Tree};

/// How a certificate ends.
#[derive(Clone, Copy, Debug, PartialEq, Eq)]
pub enum CertStatus {
    /// No feasible grouping costs less than the one that stands there.
    Optimal,
    /// No feasible grouping costs less than the bound, which is below the cost.
    Within,
    /// No grouping is feasible.
    Hopeless,
}

/// A grouping with its cost, and a tree that proves a bound of the cost of every feasible grouping. With `Hopeless` there is no grouping, and
/// the tree proves that.
#[derive(Drop)]
pub struct Certificate {
    /// How the search ended.
    pub status: CertStatus,
    /// The cost of the grouping; none exactly with `Hopeless`.
    pub cost: Option<i128>,
    /// The bound that the tree proves; none exactly with `Hopeless`.
    pub bound: Option<i128>,
    /// How many areas the problem has.
    pub areas: u32,
    /// The region of each area, and the class of each region; without areas and regions with `Hopeless`.
    pub grouping: Grouping,
    /// What proves the bound.
    pub tree: Tree<Leaf>,
}
