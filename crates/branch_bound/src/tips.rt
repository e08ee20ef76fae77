// Leaves of a tree that still grows, with what they are worth.
ghost use Rattle.std.specs.Prelude.{◌≡◌};
ghost use Rattle.bound_rows.specs.Offers.{is_less};
ghost use Rattle.branch_bound.specs.Tips.{is_closed, rank_of_tip, is_before, first_rank};

use agg_base::limits::DEPTH;
use bound_rows::{Bound, Leaf};

// A leaf, what it is worth over its domains, and the depth at which it stands.
#[derive(Drop)]
pub(crate) struct Tip {
    pub(crate) leaf: Leaf,
    pub(crate) bound: Bound,
    pub(crate) depth: u32,
}

// How soon a tip is split: the least bound goes first, and at a tie what may be split.
#[derive(Clone, Copy)]
pub(crate) struct Rank {
    pub(crate) bound: Bound,
    pub(crate) is_closed: bool,
}

impl Tip {
    // The rank of the tip. It is closed where its areas have one class each, and at the greatest depth.
    pub(crate) fn rank(&self) -> Rank
        ensures { result ≡ rank_of_tip self.now }
    {
        Rank {
            bound: self.bound,
            is_closed: self.is_closed(),
        }
    }

    // Whether the tip may not be split.
    fn is_closed(&self) -> bool
        ensures { result ≡ is_closed self.now.leaf self.now.depth }
    {
        match self.leaf {
            Leaf::Fixed => true,
            Leaf::Sum(_) => u64::from(self.depth) >= DEPTH,
        }
    }
}

// Whether the first bound is less than the second, where a void one is greater than every number.
pub(crate) fn is_less(x: Bound, y: Bound) -> bool
    ensures { result ≡ is_less x y }
{
    match (x, y) {
        (Bound::Void, _) => false,
        (Bound::Least(_), Bound::Void) => true,
        (Bound::Least(x), Bound::Least(y)) => x < y,
    }
}

// Whether the first rank goes before the second.
#[tactic(auto, unfolding(crate::specs::Tips::is_before))]
pub(crate) fn is_before(x: Rank, y: Rank) -> bool
    ensures { result ≡ is_before x y }
{
    if is_less(x.bound, y.bound) {
        return true;
    }
    if is_less(y.bound, x.bound) {
        return false;
    }
    !x.is_closed && y.is_closed
}

// The rank that goes first, the first at a tie.
pub(crate) fn first_rank(x: Rank, y: Rank) -> Rank
    ensures { result ≡ first_rank x y }
{
    if is_before(y, x) { y } else { x }
}
