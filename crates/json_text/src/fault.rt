// Why bytes are no text of JSON.
ghost use Rattle.std.specs.Prelude.{◌≡◌};
ghost use Rattle.json_text.specs.Steps.{fault_at};
ghost use Rattle.json_text.specs.declared.fault.Stop.TheVariants.{Memory};

use agg_base::NoMemory;
use std::alloc::{AllocError, AllocFailed};
use thiserror::Error;

/// Why bytes are no text of JSON, or why they are not read.
#[derive(Clone, Copy, Debug, PartialEq, Eq, Error)]
pub enum JsonFault {
    /// The bytes are no text of JSON.
    #[error("byte {at} can't stand there in a text of JSON")]
    Syntax {
        /// How many of the bytes from the first on begin some text of JSON: the place of the first byte with which they begin none, or the
        /// number of all bytes. Places count from 0, and a byte order mark counts.
        at: usize,
    },
    /// Lists and members nest deeper than 64.
    #[error("the bracket or brace at byte {at} nests deeper than 64")]
    TooDeep {
        /// The place of the first opening bracket or brace that nests 65 deep. Places count from 0, and a byte order mark counts.
        at: usize,
    },
    /// Out of memory. No other cause has this answer.
    #[error("out of memory")]
    Memory,
}

// Why the reader goes no further.
#[derive(Clone, Copy)]
pub(crate) enum Stop {
    // No text of JSON has the byte there.
    Bad,
    // The byte opens a list or members 65 deep.
    Deep,
    // Out of memory.
    Memory,
}

impl Stop {
    // The fault of a reader that stops at that place.
    pub(crate) fn at(self, at: usize) -> JsonFault
        ensures { result ≡ fault_at at self }
    {
        match self {
            Stop::Bad => JsonFault::Syntax { at },
            Stop::Deep => JsonFault::TooDeep { at },
            Stop::Memory => JsonFault::Memory,
        }
    }
}

impl From<NoMemory> for Stop {
    ghost from_gives = { λ _ stop. stop ≡ Memory };

    fn from(_: NoMemory) -> Stop {
        Stop::Memory
    }
}

impl From<AllocError> for Stop {
    ghost from_gives = { λ _ stop. stop ≡ Memory };

    fn from(_: AllocError) -> Stop {
        Stop::Memory
    }
}

impl<T: Drop> From<AllocFailed<T>> for Stop {
    ghost from_gives = { λ _ stop. stop ≡ Memory };

    fn from(_: AllocFailed<T>) -> Stop {
        Stop::Memory
    }
}
