//! Where the program's files and its report go: a trait, two shelves in memory, and one over the real files.
#![tactic(auto)]

mod disk;
mod held;
mod memory;
mod names;
mod shelf;
mod sure;

pub use disk::DiskShelf;
pub use memory::MemShelf;
pub use names::are_names_distinct;
pub use shelf::{Fetch, Put, Shelf};
pub use sure::{SureShelf, sure_law};

#[cfg(test)]
mod tests;
