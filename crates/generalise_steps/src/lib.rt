//! From the text of a map and that of a class table to the problem of both.
#![tactic(auto)]

mod cover_lines;
mod graph_lines;
mod halt;
mod laws;
mod loading;
mod map_format;
mod map_lines;
mod map_reading;
mod table_lines;

pub use cover_lines::EdgeWords;
pub use halt::Halt;
pub use laws::{
    frame_law, loaded_without_refusal_law, map_without_line_law, one_line_law, one_load_law,
    one_map_law, one_refusal_law,
};
pub use loading::{Loaded, load};
pub use map_format::Format;
pub use map_reading::read_topology;

#[cfg(test)]
mod tests;
