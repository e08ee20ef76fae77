// A tree that grows by splits of its first tips. Each fork knows the first rank of its tips, so the first tip is found in as many steps as it is
// deep, and its domains are made on the way to it.
ghost use Rattle.std.specs.Prelude.{◌≡◌, IfOk, length};
ghost use Rattle.agg_model.specs.Problem.{Problem};
ghost use Rattle.bound_rows.specs.Domains.{allows, IsFor};
ghost use Rattle.branch_bound.specs.Growth.{shape_of};
ghost use Rattle.branch_bound.specs.Shapes.{Tipped, rank_of, forked, first_tip, first_allowed, grown, AreSplits, IsTreeOf};

use crate::tips::{Rank, Tip, first_rank, is_before};
use agg_base::NoMemory;
use bound_rows::{Domains, Leaf, Tree};
use std::alloc::Global;

#[derive(Drop)]
pub(crate) enum Growth {
    End(Tip),
    // An area that is split by a class, the first rank of the tips, and the trees of the groupings that give it the class and that do not.
    Fork(u32, u8, Rank, Box<Growth>, Box<Growth>),
}

impl Growth {
    // A tree of one tip.
    pub(crate) fn of(tip: Tip) -> Growth
        ensures { shape_of result ≡ Tipped tip }
    {
        Growth::End(tip)
    }

    // A split of an area by a class, with a tip on either side.
    pub(crate) fn fork(
        alloc: Global,
        area: u32,
        class: u8,
        with: Tip,
        rest: Tip,
    ) -> Result<Growth, NoMemory>
        ensures { IfOk result (λ growth. shape_of growth ≡ forked area class (Tipped with) (Tipped rest)) }
    {
        let rank = first_rank(with.rank(), rest.rank());
        let with = Box::new(alloc, Growth::of(with))?;
        let rest = Box::new(alloc, Growth::of(rest))?;
        Ok(Growth::Fork(area, class, rank, with, rest))
    }

    // The first rank of its tips.
    pub(crate) fn rank(&self) -> Rank
        ensures { result ≡ rank_of (shape_of self.now) }
    {
        match self {
            Growth::End(tip) => tip.rank(),
            Growth::Fork(_, _, rank, _, _) => *rank,
        }
    }

    // Makes the domains of the whole tree those of its first tip, and tells the depth of that tip.
    pub(crate) fn enter(&self, domains: &mut Domains) -> u32
        requires { AreSplits (length domains.old) (shape_of self.now) (allows domains.old) }
        ensures depth { result ≡ (first_tip (shape_of self.now)).depth }
        ensures length { length domains.new ≡ length domains.old }
        ensures allowed { allows domains.new ≡ first_allowed (shape_of self.now) (allows domains.old) }
        ensures domains { (p : Problem) → IsFor p domains.old → IsFor p domains.new }
    {
        match self {
            Growth::End(tip) => tip.depth,
            Growth::Fork(area, class, _, with, rest) => {
                if is_before(rest.rank(), with.rank()) {
                    domains.without(*area, *class);
                    rest.enter(domains)
                } else {
                    domains.only(*area, *class);
                    with.enter(domains)
                }
            }
        }
    }

    // The leaf of its first tip.
    pub(crate) fn first_leaf(&self) -> &Leaf
        ensures { result.now ≡ (first_tip (shape_of self.now)).leaf }
    {
        match self {
            Growth::End(tip) => &tip.leaf,
            Growth::Fork(_, _, _, with, rest) => {
                if is_before(rest.rank(), with.rank()) {
                    rest.first_leaf()
                } else {
                    with.first_leaf()
                }
            }
        }
    }

    // Puts a tree in place of its first tip.
    pub(crate) fn grow(&mut self, new: Growth)
        ensures { shape_of self.new ≡ grown (shape_of self.old) (shape_of new) }
    {
        match self {
            Growth::End(_) => {
                *self = new;
            }
            Growth::Fork(_, _, rank, with, rest) => {
                if is_before(rest.rank(), with.rank()) {
                    rest.grow(new);
                    *rank = first_rank(with.rank(), rest.rank());
                } else {
                    with.grow(new);
                    *rank = first_rank(with.rank(), rest.rank());
                }
            }
        }
    }

    // The tree that has grown. It calls itself as deep as the tree is.
    pub(crate) fn into_tree(self, alloc: Global) -> Result<Tree<Leaf>, NoMemory>
        ensures { IfOk result (λ tree. IsTreeOf (shape_of self) tree) }
    {
        match self {
            Growth::End(Tip { leaf, .. }) => Ok(Tree::Leaf(leaf)),
            Growth::Fork(area, class, _, with, rest) => {
                let with = Box::into_inner(with).into_tree(alloc)?;
                let rest = Box::into_inner(rest).into_tree(alloc)?;
                Ok(Tree::Split {
                    area,
                    class,
                    yes: Box::new(alloc, with)?,
                    no: Box::new(alloc, rest)?,
                })
            }
        }
    }
}
