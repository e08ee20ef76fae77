// A shelf of files, and a voice.
use std::alloc::{AllocError, Global};
use thiserror::Error;

/// Why a fetch gives no bytes.
#[derive(Clone, Copy, Debug, PartialEq, Eq, Error)]
pub enum Fetch {
    /// The file is missing or was not read. The shelf has counted a fault of fetching.
    #[error("the file was not read")]
    Failed,
    /// The file has more bytes than the limit.
    #[error("the file is too long")]
    TooLong,
    /// Out of memory.
    #[error("out of memory")]
    Memory,
}

/// Why bytes were not stored or said.
#[derive(Clone, Copy, Debug, PartialEq, Eq, Error)]
pub enum Put {
    /// The bytes were not all written. The shelf has counted a fault of putting.
    #[error("the bytes were not written")]
    Failed,
    /// Out of memory.
    #[error("out of memory")]
    Memory,
}

/// Files by their names, and a voice.
///
/// A shelf may tell its files and what was said, or not: what is told of them holds where they are told. It counts its
/// faults of fetching and of putting apart. Neither count falls, each stays where no fault is answered, and a call of the
/// one kind leaves the other count. A count that stands at 2^64 - 1 stays there, and counts as risen.
pub trait Shelf {
    ghost use Rattle.std.specs.Prelude.{◌≡◌, ◌≤◌, ◌<◌, length, IfOk, IfSome, OnErr, IsErrOf};
    ghost use Rattle.shelf_io.specs.Files.{text_at, IsPartlyStored, IsPartlySpoken};
    ghost use Rattle.shelf_io.specs.State.{ShelfState, after_fetch, after_store, after_say};
    ghost use Rattle.shelf_io.specs.Causes.{HasFetchCause, HasPutCause};

    /// The files and what was said, where the shelf tells them, the faults of each kind so far, and the name of the last
    /// fetch that answered `Failed`.
    ghost state: { Self → ShelfState };

    /// The bytes of the file of that name, at most `limit`. A missing file is a fault, or is read as an empty text.
    ///
    /// Where files are told, `TooLong` comes exactly where the file has more than `limit` bytes and no other fault comes
    /// first. `Failed` comes only where the count of fetching rose in this call, and then this name is the one missed.
    fn fetch(&mut self, alloc: Global, name: &str, limit: usize) -> Result<Vec<u8>, Fetch>
        ensures bytes { IfOk result (λ bytes. IfSome (state self.old).files (λ m. bytes.items ≡ text_at m name.now)) }
        ensures bound { IfOk result (λ bytes. length bytes.items ≤ limit) }
        ensures too_long { IsErrOf result Fetch.TooLong → IfSome (state self.old).files (λ m. limit < length (text_at m name.now)) }
        ensures cause { HasFetchCause (state self.old).fetch_faults (state self.new).fetch_faults result }
        ensures state { state self.new ≡ after_fetch (state self.old) (state self.new).fetch_faults name.now result };

    /// Makes the named file hold exactly the bytes. Other files stay.
    ///
    /// After a fault the named file is as before, or holds a prefix of the bytes. `Failed` comes only where the count of
    /// putting rose in this call.
    fn store(&mut self, name: &str, bytes: &[u8]) -> Result<(), Put>
        ensures partly { OnErr result (IsPartlyStored (state self.old).files (state self.new).files name.now bytes.now) }
        ensures cause { HasPutCause (state self.old).put_faults (state self.new).put_faults result }
        ensures state { state self.new ≡ after_store (state self.old) (state self.new) name.now bytes.now result };

    /// Appends the bytes to what was said. No file changes.
    ///
    /// After a fault a prefix of the bytes was appended. `Failed` comes only where the count of putting rose in this call.
    fn say(&mut self, bytes: &[u8]) -> Result<(), Put>
        ensures partly { OnErr result (IsPartlySpoken (state self.old).said (state self.new).said bytes.now) }
        ensures cause { HasPutCause (state self.old).put_faults (state self.new).put_faults result }
        ensures state { state self.new ≡ after_say (state self.old) (state self.new) bytes.now result };
}
