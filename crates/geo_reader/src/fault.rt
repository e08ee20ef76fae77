// Why a value spells no areas as GeoJSON.
ghost use Rattle.std.specs.Prelude.{◌≡◌};
ghost use Rattle.geo_reader.specs.declared.fault.GeoFault.TheVariants.{Memory};

use agg_base::NoMemory;
use plane_edge::Limit;
use std::alloc::{AllocError, AllocFailed};
use thiserror::Error;

/// Why a value spells no areas as GeoJSON: the first rule that it breaks. A place is that of a feature, counted from 0.
#[derive(Clone, Copy, Debug, PartialEq, Eq, Error)]
pub enum GeoFault {
    /// The value is no object with `type` "FeatureCollection" and an array `features`.
    #[error("the map is no FeatureCollection with features")]
    NotGeoJson,
    /// It is no feature, or its geometry is there and is no polygon or polygons.
    #[error("feature {place} is no feature of a polygon or polygons")]
    NotPolygonal {
        /// The feature.
        place: u32,
    },
    /// The feature has no class text under the name.
    #[error("feature {place} has no class")]
    NoClass {
        /// The feature.
        place: u32,
    },
    /// One of the first two numbers of a position is not whole.
    #[error("feature {place} has a coordinate that is not whole")]
    NotWhole {
        /// The feature.
        place: u32,
    },
    /// A ring has fewer than four positions, or its last one differs from its first.
    #[error("feature {place} has a ring that is not closed")]
    OpenRing {
        /// The feature.
        place: u32,
    },
    /// A coordinate is further than 2^30 from 0, or there are more than 65,536 areas or more than 2,097,152 steps.
    #[error("the map passes a limit: {0:?}")]
    Limit(Limit),
    /// Out of memory. No other cause has this answer.
    #[error("out of memory")]
    Memory,
}

impl From<NoMemory> for GeoFault {
    ghost from_gives = { λ _ fault. fault ≡ Memory };

    fn from(_: NoMemory) -> GeoFault {
        GeoFault::Memory
    }
}

impl From<AllocError> for GeoFault {
    ghost from_gives = { λ _ fault. fault ≡ Memory };

    fn from(_: AllocError) -> GeoFault {
        GeoFault::Memory
    }
}

impl<T: Drop> From<AllocFailed<T>> for GeoFault {
    ghost from_gives = { λ _ fault. fault ≡ Memory };

    fn from(_: AllocFailed<T>) -> GeoFault {
        GeoFault::Memory
    }
}
