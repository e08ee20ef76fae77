//! Texts, lists of words, lines, numbers and their spellings, and square roots in whole numbers.
//!
//! A text is a list of bytes to every contract. Whatever needs memory answers `NoMemory` where there is none.
#![tactic(auto)]

mod cut;
pub mod limits;
mod line;
mod numeral;
mod root;
mod signed;
mod start;
mod text;

pub use line::{Ending, Line, Lines};
pub use numeral::{Whole, read_whole, whole_law};
pub use root::{isqrt, root_law};
pub use signed::{print_signed, read_signed, signed_law};
pub use start::lines;
pub use text::{NoMemory, Text, Words};

#[cfg(test)]
mod tests;
