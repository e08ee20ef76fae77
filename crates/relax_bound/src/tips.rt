// The least number of an area.

/// The least number among the classes that an area may have.
#[derive(Clone, Copy)]
pub struct Tip {
    /// A class with that number.
    pub(crate) class: u8,
    /// The number.
    pub(crate) least: i128,
    /// How far the least number of the other classes is above it: 2^111 at most, and so much where there is no other class.
    pub(crate) gap: i128,
}
