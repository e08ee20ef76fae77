// Files in memory, and calls that fail by a list.
ghost use Rattle.std.specs.Prelude.{◌≡◌, ◌↔◌, ◌+◌, ◌-◌, ◌^◌, min, [], None, Some, Contains, string_bytes, IsTrue, IfSome, MatchOption};
ghost use Rattle.std.specs.FinMap.{get};
ghost use Rattle.shelf_io.specs.State.{first_state};
ghost use Rattle.shelf_io.specs.Memory.{calls_of, half_of};
ghost use Rattle.shelf_io.specs.Held.{files_of, AreNamesDistinct};

use crate::held::{append, file_of, put_file};
use crate::{Fetch, Put, Shelf};
use agg_base::Text;
use std::alloc::Global;

/// Files and a voice in memory, and calls that fail by a list.
///
/// The calls of the trait are numbered from 0, and each call whose number is in the list fails. A store that fails
/// leaves the first half of its bytes, rounded down, and a say that fails appends that half. A fetch of a missing file
/// fails too.
#[derive(Drop)]
pub struct MemShelf {
    alloc: Global,
    files: Vec<(Text, Vec<u8>)>,
    said: Vec<u8>,
    failing: Vec<u64>,
    calls: u64,
    fetch_faults: u64,
    put_faults: u64,
    missed: String,
}

// Whether the call that now begins fails. It is counted.
fn is_failing(failing: &[u64], calls: &mut u64) -> bool
    ensures answer { IsTrue result ↔ Contains failing.now calls.old }
    ensures one_more { calls.new ≡ min (calls.old + 1) (2 ^ 64 - 1) }
{
    let now = *calls;
    *calls = now.saturating_add(1);
    failing.contains(&now)
}

// The first half of the bytes, rounded down.
fn half_of(bytes: &[u8]) -> &[u8]
    ensures { result.now ≡ half_of bytes.now }
{
    &bytes[..bytes.len() / 2]
}

impl MemShelf {
    /// A shelf of these files, whose names differ. Nothing is said yet, no call is made, no fault is counted and no name
    /// is missed.
    pub fn new(alloc: Global, files: Vec<(Text, Vec<u8>)>, failing: Vec<u64>) -> MemShelf
        requires { AreNamesDistinct files.items }
        ensures state { ⟦<MemShelf as Shelf>⟧.state result ≡ first_state (Some (files_of files.items)) (Some []) }
        ensures calls { calls_of result ≡ record { made = 0; failing = failing.items } }
    {
        MemShelf {
            alloc,
            files,
            said: Vec::new(alloc),
            failing,
            calls: 0,
            fetch_faults: 0,
            put_faults: 0,
            missed: String::new(alloc),
        }
    }

    /// The bytes of the file of that name, and `None` where it is missing. It takes no memory.
    pub fn file(&self, name: &str) -> Option<&[u8]>
        ensures { IfSome (⟦<MemShelf as Shelf>⟧.state self.now).files (λ m.
            MatchOption result (get m name.now ≡ None) (λ bytes. get m name.now ≡ Some bytes.now)) }
    {
        file_of(&self.files, name)
    }

    /// What was said. It takes no memory.
    pub fn said(&self) -> &[u8]
        ensures { (⟦<MemShelf as Shelf>⟧.state self.now).said ≡ Some result.now }
    {
        &self.said
    }

    /// The faults of fetching and of putting. It takes no memory.
    pub fn faults(&self) -> (u64, u64)
        ensures fetches { result.0 ≡ (⟦<MemShelf as Shelf>⟧.state self.now).fetch_faults }
        ensures puts { result.1 ≡ (⟦<MemShelf as Shelf>⟧.state self.now).put_faults }
    {
        (self.fetch_faults, self.put_faults)
    }
}

impl Shelf for MemShelf {
    ghost use Rattle.std.specs.Prelude.{◌≡◌, ◌≤◌, ◌<◌, ◌⊎◌, length, IfOk, IfSome, OnErr, IsErrOf};
    ghost use Rattle.shelf_io.specs.Files.{text_at, with_file, with_said, IsMissing, IsPartlyStored, IsPartlySpoken};
    ghost use Rattle.shelf_io.specs.State.{after_fetch, after_store, after_say};
    ghost use Rattle.shelf_io.specs.Causes.{HasFetchCause, HasPutCause};
    ghost use Rattle.shelf_io.specs.Memory.{state_of, calls_of, after_call, half_of, IsFailing, IsFetchFault, IsPutFault};

    ghost state = { λ s. state_of s };

    /// As the trait says. It fails exactly where the call's number is in the list or the file is missing.
    fn fetch(&mut self, alloc: Global, name: &str, limit: usize) -> Result<Vec<u8>, Fetch>
        ensures bytes { IfOk result (λ bytes. IfSome (state_of self.old).files (λ m. bytes.items ≡ text_at m name.now)) }
        ensures bound { IfOk result (λ bytes. length bytes.items ≤ limit) }
        ensures too_long { IsErrOf result Fetch.TooLong → IfSome (state_of self.old).files (λ m. limit < length (text_at m name.now)) }
        ensures cause { HasFetchCause (state_of self.old).fetch_faults (state_of self.new).fetch_faults result }
        ensures state { state_of self.new ≡ after_fetch (state_of self.old) (state_of self.new).fetch_faults name.now result }
        ensures calls { calls_of self.new ≡ after_call (calls_of self.old) }
        ensures failing { IsFailing (calls_of self.old) → IsFetchFault result }
        ensures missing { IsMissing (state_of self.old).files name.now → IsFetchFault result }
        ensures failed { IsErrOf result Fetch.Failed → IsFailing (calls_of self.old) ⊎ IsMissing (state_of self.old).files name.now }
    {
        let failing = is_failing(&self.failing, &mut self.calls);
        let Ok(copied) = String::from_str(self.alloc, name) else {
            return Err(Fetch::Memory);
        };
        if !failing {
            if let Some(bytes) = file_of(&self.files, name) {
                if bytes.len() > limit {
                    return Err(Fetch::TooLong);
                }
                return bytes.to_vec(alloc).map_err(|_| Fetch::Memory);
            }
        }
        self.fetch_faults = self.fetch_faults.saturating_add(1);
        self.missed = copied;
        Err(Fetch::Failed)
    }

    /// As the trait says. It fails exactly where the call's number is in the list, and then half of the bytes is stored.
    fn store(&mut self, name: &str, bytes: &[u8]) -> Result<(), Put>
        ensures partly { OnErr result (IsPartlyStored (state_of self.old).files (state_of self.new).files name.now bytes.now) }
        ensures cause { HasPutCause (state_of self.old).put_faults (state_of self.new).put_faults result }
        ensures state { state_of self.new ≡ after_store (state_of self.old) (state_of self.new) name.now bytes.now result }
        ensures calls { calls_of self.new ≡ after_call (calls_of self.old) }
        ensures failing { IsFailing (calls_of self.old) → IsPutFault result }
        ensures failed { IsErrOf result Put.Failed → IsFailing (calls_of self.old) }
        ensures half { IsErrOf result Put.Failed → (state_of self.new).files ≡ with_file (state_of self.old).files name.now (half_of bytes.now) }
    {
        if is_failing(&self.failing, &mut self.calls) {
            put_file(self.alloc, &mut self.files, name, half_of(bytes)).map_err(|_| Put::Memory)?;
            self.put_faults = self.put_faults.saturating_add(1);
            return Err(Put::Failed);
        }
        put_file(self.alloc, &mut self.files, name, bytes).map_err(|_| Put::Memory)
    }

    /// As the trait says. It fails exactly where the call's number is in the list, and then half of the bytes is said.
    #[tactic(auto, using(crate::proofs::ByteLemmas::none_spoken))]
    fn say(&mut self, bytes: &[u8]) -> Result<(), Put>
        ensures partly { OnErr result (IsPartlySpoken (state_of self.old).said (state_of self.new).said bytes.now) }
        ensures cause { HasPutCause (state_of self.old).put_faults (state_of self.new).put_faults result }
        ensures state { state_of self.new ≡ after_say (state_of self.old) (state_of self.new) bytes.now result }
        ensures calls { calls_of self.new ≡ after_call (calls_of self.old) }
        ensures failing { IsFailing (calls_of self.old) → IsPutFault result }
        ensures failed { IsErrOf result Put.Failed → IsFailing (calls_of self.old) }
        ensures half { IsErrOf result Put.Failed → (state_of self.new).said ≡ with_said (state_of self.old).said (half_of bytes.now) }
    {
        if is_failing(&self.failing, &mut self.calls) {
            append(&mut self.said, half_of(bytes)).map_err(|_| Put::Memory)?;
            self.put_faults = self.put_faults.saturating_add(1);
            return Err(Put::Failed);
        }
        append(&mut self.said, bytes).map_err(|_| Put::Memory)
    }
}
