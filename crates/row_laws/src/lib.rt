//! Rows, sums of rows and trees, and the laws by which they prove bounds.
#![tactic(auto)]

mod bound;
mod leaf;
mod row;
mod sum;
mod tree;

ghost use Rattle.row_laws.specs.FirstSums.{PlainLaw, VoidLaw};
ghost use Rattle.row_laws.specs.Laws.{RowLaw, WidthLaw, SumLaw, FixedLaw, LeavesLaw, RootLaw};

pub use bound::{Bound, Entry, Unsound, Weak};
pub use leaf::Leaf;
pub use row::{Row, Set};
pub use sum::RowSum;
pub use tree::{Tree, depth, splits};

/// Every feasible grouping keeps every row that is in form.
#[tactic(auto, using(crate::proofs::RowLemmas::row_law))]
pub fn row_law()
    ensures { RowLaw }
{}

/// Where every number of a sum fits in 128 bits, its value is the one over numbers without a bound. A void sum that is worth nothing names its
/// total, which is below 1.
#[tactic(auto, using(crate::proofs::WidthLemmas::width_law))]
pub fn width_law()
    ensures { WidthLaw }
{}

/// No feasible grouping inside the domains costs less than the value of a sound sum of rows, and where that value is void there is none.
#[tactic(auto, using(crate::proofs::SumLawLemmas::sum_law))]
pub fn sum_law()
    ensures { SumLaw }
{}

/// Where every area has one allowed class, no feasible grouping inside the domains costs less than the value of `Fixed`, and where that
/// value is void there is none.
#[tactic(auto, using(crate::proofs::FixedLemmas::fixed_law))]
pub fn fixed_law()
    ensures { FixedLaw }
{}

/// The sum without rows is sound and worth a number of 0 or more over all domains, and 0 where each area may have its own class.
#[tactic(auto, using(crate::proofs::PlainLemmas::plain_law))]
pub fn plain_law()
    ensures { PlainLaw }
{}

/// Where a part is hopeless, the void sum over it is sound, and it is void over all domains that leave its area a class.
#[tactic(auto, using(crate::proofs::VoidLemmas::void_law))]
pub fn void_law()
    ensures { VoidLaw }
{}

/// No feasible grouping inside the domains costs less than the value of a sound leaf, and where that value is void there is none.
pub fn leaf_law()
    ensures { LeavesLaw }
{}

/// Every feasible grouping is inside the domains of the root.
pub fn root_law()
    ensures { RootLaw }
{}
