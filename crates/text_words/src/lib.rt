//! The words of a line: what stands between blanks, that is between spaces and tabs. A line `10`, tab, tab, `2` has the words `10` and `2`.
#![tactic(auto)]

mod byte;
mod cut;
mod parts;

pub use byte::{has_digits_only, is_blank};
pub use parts::Parts;

#[cfg(test)]
mod tests;
