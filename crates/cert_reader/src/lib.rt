//! The reader of certificates: what a text of the format of `cert_text` spells, or the first line that breaks a rule.
#![tactic(auto)]

mod cut;
mod head_reader;
mod law;
mod limits;
mod line;
mod line_reader;
mod reader;
mod source;
mod tree_reader;
mod words;

pub use law::text_law;
pub use reader::read;

#[cfg(test)]
mod tests;
