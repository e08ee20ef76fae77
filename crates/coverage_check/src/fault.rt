// The faults of a coverage.
ghost use Rattle.std.specs.Prelude.{◌≡◌};
ghost use Rattle.coverage_check.specs.declared.fault.CoverFault.TheVariants.{Memory};

use agg_base::NoMemory;
use plane_edge::{Edge, Spot};
use thiserror::Error;

/// Why a coverage is refused. Areas are named by their numbers among those that have an odd edge.
#[derive(Clone, Copy, Debug, PartialEq, Eq, Error)]
pub enum CoverFault {
    /// Two different odd edges have a point in common that is not an end of both: the first such pair, the lesser edge first, and their spot.
    #[error("two borders cross")]
    Crossing { e: Edge, f: Edge, spot: Spot },
    /// An edge is odd in three areas or more: the least such edge. Comes only where no edges cross.
    #[error("a border belongs to three areas")]
    Shared { edge: Edge },
    /// A point is inside two areas: the leftmost one on the lowest line halfway between two neighbouring heights of ends that has one, and the two least areas that it is inside. Comes only where no edges cross and no edge is odd in three areas.
    #[error("areas {a} and {b} overlap")]
    Overlap { a: u32, b: u32, spot: Spot },
    /// Memory ran out.
    #[error("out of memory")]
    Memory,
}

impl From<NoMemory> for CoverFault {
    ghost from_gives = { λ _ fault. fault ≡ Memory };

    fn from(_: NoMemory) -> Self {
        CoverFault::Memory
    }
}
