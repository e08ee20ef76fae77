// What a search answers.
use agg_model::Grouping;
use bound_rows::{Leaf, Tree};

/// How the cost of the best grouping stands to the bound of the tree.
#[derive(Drop)]
pub enum Kind {
    /// The bound is the cost, so no feasible grouping costs less.
    Optimal {
        /// A feasible grouping, with regions numbered by their least areas. It costs no more than one region for each part.
        best: Grouping,
        /// What it costs.
        cost: i128,
    },
    /// The bound is below the cost: no feasible grouping costs less than the bound.
    Within {
        /// A feasible grouping, with regions numbered by their least areas. It costs no more than one region for each part.
        best: Grouping,
        /// What it costs.
        cost: i128,
        /// The bound of the tree.
        bound: i128,
        /// Whether every leaf that has this bound stands at the greatest depth. Else the tree has as many splits as were allowed.
        deep: bool,
    },
    /// No grouping is feasible.
    NoGrouping,
}

/// The answer of a search, and the tree that proves its bound.
#[derive(Drop)]
pub struct Outcome {
    /// The tree over the domains that allow every area every class.
    pub tree: Tree<Leaf>,
    /// What it proves.
    pub kind: Kind,
}
