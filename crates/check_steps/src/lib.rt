//! From texts to a verdict: the texts of a certificate and of a drawn map are read, the certificate is judged for the problem of a map and a
//! class table, and the verdict gets its line.
#![tactic(auto)]

mod judging;
mod laws;
mod reading;
mod verdict_lines;

pub use judging::{Judgement, judge_loaded};
pub use laws::{
    certificate_lines_law, drawn_lines_law, one_verdict_law, valid_holds_law, valid_verdict_law,
};
pub use reading::{read_certificate, read_drawn};
pub use verdict_lines::verdict_line;

#[cfg(test)]
mod tests;
