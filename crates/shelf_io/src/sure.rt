// Files in memory that never fail.
ghost use Rattle.std.specs.Prelude.{◌≡◌, List, ℕ, [], Option, None, Some, IfSome, MatchOption, Result, Vec, IsErrOf};
ghost use Rattle.std.specs.declared.alloc.Global.{Global};
ghost use Rattle.shelf_io.specs.Causes.{HasFetchCause, HasPutCause};
ghost use Rattle.std.specs.FinMap.{get};
ghost use Rattle.shelf_io.specs.State.{first_state};
ghost use Rattle.shelf_io.specs.Held.{files_of, AreNamesDistinct};

use crate::held::{append, file_of, put_file};
use crate::{Fetch, Put, Shelf};
use agg_base::Text;
use std::alloc::Global;

/// Files and a voice in memory. No call fails, and a missing file is fetched as an empty text.
#[derive(Drop)]
pub struct SureShelf {
    alloc: Global,
    files: Vec<(Text, Vec<u8>)>,
    said: Vec<u8>,
}

impl SureShelf {
    /// A shelf of these files, whose names differ. Nothing is said yet.
    pub fn new(alloc: Global, files: Vec<(Text, Vec<u8>)>) -> SureShelf
        requires { AreNamesDistinct files.items }
        ensures { ⟦<SureShelf as Shelf>⟧.state result ≡ first_state (Some (files_of files.items)) (Some []) }
    {
        SureShelf {
            alloc,
            files,
            said: Vec::new(alloc),
        }
    }

    /// The bytes of the file of that name, and `None` where it is missing. It takes no memory.
    pub fn file(&self, name: &str) -> Option<&[u8]>
        ensures { IfSome (⟦<SureShelf as Shelf>⟧.state self.now).files (λ m.
            MatchOption result (get m name.now ≡ None) (λ bytes. get m name.now ≡ Some bytes.now)) }
    {
        file_of(&self.files, name)
    }

    /// What was said. It takes no memory.
    pub fn said(&self) -> &[u8]
        ensures { (⟦<SureShelf as Shelf>⟧.state self.now).said ≡ Some result.now }
    {
        &self.said
    }

    /// The faults of fetching and of putting: none, ever. It takes no memory.
    pub fn faults(&self) -> (u64, u64)
        ensures none { (result.0 ≡ 0) × (result.1 ≡ 0) }
        ensures fetches { (⟦<SureShelf as Shelf>⟧.state self.now).fetch_faults ≡ 0 }
        ensures puts { (⟦<SureShelf as Shelf>⟧.state self.now).put_faults ≡ 0 }
    {
        (0, 0)
    }
}

impl Shelf for SureShelf {
    ghost state = { λ s. first_state (Some (files_of s.files.items)) (Some s.said.items) };

    fn fetch(&mut self, alloc: Global, name: &str, limit: usize) -> Result<Vec<u8>, Fetch> {
        let Some(bytes) = file_of(&self.files, name) else {
            return Ok(Vec::new(alloc));
        };
        if bytes.len() > limit {
            return Err(Fetch::TooLong);
        }
        bytes.to_vec(alloc).map_err(|_| Fetch::Memory)
    }

    fn store(&mut self, name: &str, bytes: &[u8]) -> Result<(), Put> {
        put_file(self.alloc, &mut self.files, name, bytes).map_err(|_| Put::Memory)
    }

    fn say(&mut self, bytes: &[u8]) -> Result<(), Put> {
        append(&mut self.said, bytes).map_err(|_| Put::Memory)
    }
}

/// No call of a `SureShelf` answers `Failed`: that comes only where a count rose, and its counts are 0 in every state.
pub fn sure_law()
    ensures fetch { (before after : SureShelf) (answer : Result (Vec ℕ Global) Fetch) →
        HasFetchCause (⟦<SureShelf as Shelf>⟧.state before).fetch_faults (⟦<SureShelf as Shelf>⟧.state after).fetch_faults answer → ¬ (IsErrOf answer Fetch.Failed) }
    ensures put { (before after : SureShelf) (answer : Result (Unit {0}) Put) →
        HasPutCause (⟦<SureShelf as Shelf>⟧.state before).put_faults (⟦<SureShelf as Shelf>⟧.state after).put_faults answer → ¬ (IsErrOf answer Put.Failed) }
{}
