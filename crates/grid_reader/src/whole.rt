// What a whole header says.
use plane_edge::Frame;

// The size of a grid, the value that stands for no data, and the frame.
#[derive(Drop)]
pub(crate) struct Whole {
    pub(crate) columns: u32,
    pub(crate) rows: u32,
    pub(crate) nodata: i32,
    pub(crate) frame: Frame,
}
