// Leaves of trees.
use crate::RowSum;
use agg_base::NoMemory;
use std::alloc::Global;

/// What proves the bound of a leaf's domains.
#[derive(Drop)]
pub enum Leaf {
    /// A sum of rows.
    Sum(RowSum),
    /// Each area has one allowed class. Its value is what components of equal class cost as regions, or void.
    Fixed,
}

ghost use Rattle.std.specs.Prelude.{◌≡◌, IfOk};

impl Leaf {
    /// The same leaf again. Its one refusal is want of memory.
    pub fn copy(&self, alloc: Global) -> Result<Leaf, NoMemory>
        ensures { IfOk result (λ leaf. leaf ≡ self.now) }
    {
        Ok(match self {
            Leaf::Sum(sum) => Leaf::Sum(sum.copy(alloc)?),
            Leaf::Fixed => Leaf::Fixed,
        })
    }
}
