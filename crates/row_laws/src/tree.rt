// Trees of splits.
ghost use Rattle.std.specs.Prelude.{◌≡◌, ◌^◌, ◌-◌, min, IfOk};
ghost use Rattle.row_laws.specs.Trees.{split_count, depth_of, IsSameTree};

use crate::Leaf;
use agg_base::NoMemory;
use std::alloc::Global;

/// Splits down to leaves that each prove a bound. A split's `yes` child allows its area only the class, its `no` child all that were allowed
/// but the class.
#[derive(Drop)]
pub enum Tree<L> {
    /// What proves the bound of its domains.
    Leaf(L),
    /// A split of the domains.
    Split {
        /// The area that is split.
        area: u32,
        /// The class that the `yes` child gives it.
        class: u8,
        /// The tree of the groupings that give the area the class.
        yes: Box<Tree<L>>,
        /// The tree of all others.
        no: Box<Tree<L>>,
    },
}

/// How many splits the tree has. A count that would pass 2^64 - 1 stays there. It takes no memory.
pub fn splits<L>(tree: &Tree<L>) -> u64
    ensures { result ≡ min (split_count tree.now) (2 ^ 64 - 1) }
{
    match tree {
        Tree::Leaf(_) => 0,
        Tree::Split { yes, no, .. } => splits(yes).saturating_add(splits(no)).saturating_add(1),
    }
}

/// How many splits stand above the deepest leaf. A count that would pass 2^64 - 1 stays there. It takes no memory.
pub fn depth<L>(tree: &Tree<L>) -> u64
    ensures { result ≡ min (depth_of tree.now) (2 ^ 64 - 1) }
{
    match tree {
        Tree::Leaf(_) => 0,
        Tree::Split { yes, no, .. } => depth(yes).max(depth(no)).saturating_add(1),
    }
}

impl Tree<Leaf> {
    /// The same tree again. It calls itself as deep as the tree is. Its one refusal is want of memory.
    pub fn copy(&self, alloc: Global) -> Result<Tree<Leaf>, NoMemory>
        ensures { IfOk result (λ tree. IsSameTree tree self.now) }
    {
        match self {
            Tree::Leaf(leaf) => Ok(Tree::Leaf(leaf.copy(alloc)?)),
            Tree::Split {
                area,
                class,
                yes,
                no,
            } => Ok(Tree::Split {
                area: *area,
                class: *class,
                yes: Box::new(alloc, yes.copy(alloc)?)?,
                no: Box::new(alloc, no.copy(alloc)?)?,
            }),
        }
    }
}
