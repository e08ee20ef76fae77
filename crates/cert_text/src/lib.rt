//! Certificates, their one text, and who writes it. `cert_reader` reads it.
#![tactic(auto)]

mod certificate;
mod fault;
mod line;
mod push;
mod tree_writer;
mod writer;

pub use certificate::{CertStatus, Certificate};
pub use fault::CertFault;
pub use writer::write;

#[cfg(test)]
mod tests;
