//! Texts of JSON: which bytes spell which value.
//!
//! A value is a tree, as `Json` of `specs/Tree.antt` has it. A number keeps its characters, members keep their order,
//! and the last member of a name counts. `Spells` says that bytes spell a tree, by the grammar of RFC 8259 with an
//! optional byte order mark in front.
#![tactic(auto)]

mod character;
mod digits;
mod fault;
mod laws;
mod machine;
mod mode;
mod number;
mod reader;
mod stack;
mod tree;

pub use fault::JsonFault;
pub use laws::{lists_within_text, one_fault, one_tree, tree_or_fault, tree_without_fault};
pub use number::is_number;
pub use reader::read;
pub use tree::Tree;

#[cfg(test)]
mod tests;
