// Why a map and a table make no problem.
ghost use Rattle.std.specs.Prelude.{◌≡◌};

use agg_base::NoMemory;
use std::alloc::AllocFailed;
use thiserror::Error;

/// Why a checked map and a class table make no problem.
#[derive(Clone, Copy, Debug, PartialEq, Eq, Error)]
pub enum GraphFault {
    /// The class text of this area is no name of the table. No lesser area is such.
    #[error("the class of area {area} is not in the table")]
    UnknownClass { area: u32 },
    /// All classes are known, and this area weighs less than 1: `sum`, in twice the square unit. No lesser area is such.
    #[error("area {area} weighs {sum}")]
    NoWeight { area: u32, sum: i128 },
    /// Memory ran out.
    #[error("out of memory")]
    Memory,
}

impl From<NoMemory> for GraphFault {
    ghost use Rattle.area_graph.specs.declared.fault.GraphFault.{GraphFault};

    ghost from_gives = { λ _ e. e ≡ GraphFault.Memory };

    fn from(_: NoMemory) -> Self {
        GraphFault::Memory
    }
}

impl<T: Drop> From<AllocFailed<T>> for GraphFault {
    ghost use Rattle.area_graph.specs.declared.fault.GraphFault.{GraphFault};

    ghost from_gives = { λ _ e. e ≡ GraphFault.Memory };

    fn from(_: AllocFailed<T>) -> Self {
        GraphFault::Memory
    }
}
