// How large inputs and values may be. Code and contracts name these, so that each limit is written once.

/// The most bytes of a map.
pub const MAP_BYTES: usize = 67_108_864;

/// The most bytes of a class table.
pub const TABLE_BYTES: usize = 1_048_576;

/// The most bytes of a written map that is read again.
pub const OUT_BYTES: usize = 268_435_456;

/// The most bytes of a certificate, and of any text that is read.
pub const TEXT_BYTES: usize = 536_870_912;

/// The greatest absolute value of a coordinate.
pub const COORDINATE: i64 = 1_073_741_824;

/// The most areas of a map, and the most regions of a grouping.
pub const AREAS: usize = 65_536;

/// The most steps of non-zero length over all rings of a map.
pub const STEPS: usize = 2_097_152;

/// The most links between areas: one for each two steps.
pub const LINKS: usize = 1_048_576;

/// The most cells of a grid, those without data included.
pub const CELLS: usize = 524_288;

/// The most classes of a table.
pub const CLASSES: usize = 64;

/// The greatest depth of a node of a tree. The root's depth is 0.
pub const DEPTH: u64 = 1_024;

/// The most splits of a tree.
pub const SPLITS: u64 = 1_000_000;

/// The most marks of a certificate: 8 for each row, and one more for each member of its set.
pub const MARKS: u64 = 40_000_000;

/// The greatest denominator of a sum of rows.
pub const DENOMINATOR: u32 = 4_096;
