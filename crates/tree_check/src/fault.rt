// What may be wrong with a tree.
ghost use Rattle.std.specs.Prelude.{◌≡◌};
ghost use Rattle.tree_check.specs.declared.fault.TreeFault.TheVariants.{Memory};

use agg_base::NoMemory;
use bound_rows::Entry;
use thiserror::Error;

/// Why a tree proves nothing: the first flaw of its nodes. They are numbered in preorder from 0, `yes` before `no`, and tested in that order,
/// each for its own flaws.
#[derive(Clone, Copy, Debug, PartialEq, Eq, Error)]
pub enum TreeFault {
    /// The split is on no area of the problem, on a class that is not allowed, or on the only one that is.
    #[error("node {node} splits no choice")]
    Split { node: u32 },
    /// The denominator of the leaf is outside 1 to 4,096, or is not 1 in void mode.
    #[error("the denominator of node {node} is out of range")]
    Denominator { node: u32 },
    /// The row is out of form.
    #[error("row {row} of node {node} is out of form")]
    Row { node: u32, row: u32 },
    /// The row is in form, and its multiplier is below 0.
    #[error("row {row} of node {node} has a multiplier below 0")]
    Negative { node: u32, row: u32 },
    /// The leaf is `Fixed`, and the area has more than one class: the least such area.
    #[error("area {area} has a choice at node {node}")]
    NotFixed { node: u32, area: u32 },
    /// The total of the leaf in void mode, which is below 1.
    #[error("the total of node {node} is {total}")]
    NotVoid { node: u32, total: i128 },
    /// This number of the leaf is the first that does not fit in 128 bits.
    #[error("a number of node {node} is too wide")]
    Wide { node: u32, entry: Entry },
    /// Memory ran out.
    #[error("out of memory")]
    Memory,
}

impl From<NoMemory> for TreeFault {
    ghost from_gives = { λ _ fault. fault ≡ Memory };

    fn from(_: NoMemory) -> Self {
        TreeFault::Memory
    }
}
