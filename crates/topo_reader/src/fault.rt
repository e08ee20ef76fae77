// Why a value spells no map.
ghost use Rattle.std.specs.Prelude.{◌≡◌};
ghost use Rattle.topo_reader.specs.declared.fault.TopoFault.TheVariants.{Memory};

use agg_base::NoMemory;
use plane_edge::Limit;
use std::alloc::{AllocError, AllocFailed};
use thiserror::Error;

/// Why a value of JSON spells no map as TopoJSON: the first rule that it breaks.
///
/// Arcs and places count from 0. Places are those of the geometries of the picked object, or 0 for an object that is no collection.
#[derive(Clone, Copy, Debug, PartialEq, Eq, Error)]
pub enum TopoFault {
    /// The value is no object with the `type` Topology, an object `objects` and a list `arcs`, or its `transform` is there and is no object
    /// with lists `scale` and `translate` of exactly two numbers each.
    #[error("the text is no topology")]
    NotTopology,
    /// The named object is none of the `objects`, or none is named and they do not have exactly one name.
    #[error("the topology has no such object")]
    NoObject,
    /// The arc is no list of two or more lists that begin with two numbers each.
    #[error("arc {arc} is no list of positions")]
    BadArc {
        /// The arc's number.
        arc: u32,
    },
    /// One of the first two numbers of a position of the arc is not whole.
    #[error("arc {arc} has a position that is not whole")]
    NotWhole {
        /// The arc's number.
        arc: u32,
    },
    /// The geometry is no polygon and not several, or a collection has no list `geometries`.
    #[error("the geometry at place {place} is no polygon and not several")]
    NotPolygonal {
        /// The geometry's place.
        place: u32,
    },
    /// The geometry's properties have no member of the class name that is a text of 1 to 100 bytes or a whole number of 64 bits.
    #[error("the geometry at place {place} has no class")]
    NoClass {
        /// The geometry's place.
        place: u32,
    },
    /// An index of the geometry is not whole, or no arc has it.
    #[error("the geometry at place {place} has an index of no arc")]
    BadIndex {
        /// The geometry's place.
        place: u32,
    },
    /// A ring of the geometry has no index, or its arcs do not join and close.
    #[error("the geometry at place {place} has a ring that does not close")]
    OpenRing {
        /// The geometry's place.
        place: u32,
    },
    /// A coordinate is further than 2^30 from 0, or there are more than 65,536 areas or more than 2,097,152 steps.
    #[error("the map passes a limit: {0:?}")]
    Limit(Limit),
    /// Out of memory. No other cause has this answer.
    #[error("out of memory")]
    Memory,
}

impl From<NoMemory> for TopoFault {
    ghost from_gives = { λ _ fault. fault ≡ Memory };

    fn from(_: NoMemory) -> TopoFault {
        TopoFault::Memory
    }
}

impl From<AllocError> for TopoFault {
    ghost from_gives = { λ _ fault. fault ≡ Memory };

    fn from(_: AllocError) -> TopoFault {
        TopoFault::Memory
    }
}

impl<T: Drop> From<AllocFailed<T>> for TopoFault {
    ghost from_gives = { λ _ fault. fault ≡ Memory };

    fn from(_: AllocFailed<T>) -> TopoFault {
        TopoFault::Memory
    }
}
