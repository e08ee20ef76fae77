// How great the numbers of a line may be.

/// The greatest number of an area, of a member and of a region.
pub const LAST_AREA: u32 = 65_535;

/// The greatest class.
pub const LAST_CLASS: u32 = 63;

/// The greatest number of a link.
pub const LAST_LINK: u32 = 1_048_575;

/// The most areas, and the most regions.
pub const MOST_AREAS: u32 = 65_536;

/// The most rows of a leaf, and the most members of a set.
pub const MOST_MARKS: u32 = 40_000_000;
