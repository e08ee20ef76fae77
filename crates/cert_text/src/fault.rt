// Why a text is no certificate.
ghost use Rattle.cert_text.specs.declared.fault.CertFault.TheVariants.{Memory};
ghost use Rattle.std.specs.Prelude.{◌≡◌};

use agg_base::NoMemory;
use std::alloc::{AllocError, AllocFailed};
use thiserror::Error;

/// Why a text is no certificate: the first line that breaks a rule. At one line `Line` goes before `TooDeep`, and that before `Limit`.
#[derive(Clone, Copy, Debug, PartialEq, Eq, Error)]
pub enum CertFault {
    /// The line is not one that is due, or breaks its rule. Where the text ends too early, or its last line has no line feed, it is the number
    /// of the line that is missing or unended; where something stands behind the last line, it is the number of that line.
    #[error("line {number} of the certificate is not one that is due")]
    Line {
        /// The line's number; the first line is line 1.
        number: u32,
    },
    /// The line is the first node deeper than 1,024. The root's depth is 0.
    #[error("the node on line {line} of the certificate is too deep")]
    TooDeep {
        /// The line's number.
        line: u32,
    },
    /// The line is the first row that brings the marks past 40,000,000, or split 1,000,001.
    #[error("line {line} of the certificate is one row or one split too many")]
    Limit {
        /// The line's number.
        line: u32,
    },
    /// Out of memory. No other cause has this answer.
    #[error("out of memory")]
    Memory,
}

impl From<NoMemory> for CertFault {
    ghost from_gives = { λ _ fault. fault ≡ Memory };

    fn from(_: NoMemory) -> CertFault {
        CertFault::Memory
    }
}

impl From<AllocError> for CertFault {
    ghost from_gives = { λ _ fault. fault ≡ Memory };

    fn from(_: AllocError) -> CertFault {
        CertFault::Memory
    }
}

impl<T: Drop> From<AllocFailed<T>> for CertFault {
    ghost from_gives = { λ _ fault. fault ≡ Memory };

    fn from(_: AllocFailed<T>) -> CertFault {
        CertFault::Memory
    }
}
