// A list of files, each with its name, and what was said.
ghost use Rattle.std.specs.Prelude.{◌≡◌, ◌++◌, None, Some, OnOk, OnErr, MatchOption, position};
ghost use Rattle.std.specs.Str.{bytes_eq};
ghost use Rattle.std.specs.FinMap.{get, insert};
ghost use Rattle.shelf_io.specs.Held.{files_of};

use agg_base::{NoMemory, Text};
use std::alloc::Global;

// Where the name stands first.
pub(crate) fn place_of(files: &[(Text, Vec<u8>)], name: &str) -> Option<usize>
    ensures { result ≡ position (λ file. bytes_eq file.0 name.now) files.now }
{
    files.iter().position(|file| file.0.as_str() == name)
}

// The bytes of a file that is there.
#[tactic(auto, using(crate::proofs::HeldLemmas::get_placed, crate::proofs::HeldLemmas::get_missing))]
pub(crate) fn file_of<'a>(files: &'a [(Text, Vec<u8>)], name: &str) -> Option<&'a [u8]>
    ensures { MatchOption result (get (files_of files.now) name.now ≡ None)
        (λ bytes. get (files_of files.now) name.now ≡ Some bytes.now) }
{
    match place_of(files, name) {
        Some(at) => Some(files[at].1.as_slice()),
        None => None,
    }
}

// Makes the named file hold exactly the bytes.
#[tactic(auto, using(crate::proofs::HeldLemmas::files_replaced, crate::proofs::HeldLemmas::files_added))]
pub(crate) fn put_file(
    alloc: Global,
    files: &mut Vec<(Text, Vec<u8>)>,
    name: &str,
    bytes: &[u8],
) -> Result<(), NoMemory>
    ensures ok { OnOk result (files_of files.new.items ≡ insert (files_of files.old.items) name.now bytes.now) }
    ensures err { OnErr result (files.new.items ≡ files.old.items) }
{
    let key = Text::of(alloc, name)?;
    let text = Vec::from_slice(alloc, bytes)?;
    match place_of(files, name) {
        Some(at) => files[at] = (key, text),
        None => files.push((key, text))?,
    }
    Ok(())
}

// Appends the bytes to what was said.
pub(crate) fn append(said: &mut Vec<u8>, bytes: &[u8]) -> Result<(), NoMemory>
    ensures ok { OnOk result (said.new.items ≡ said.old.items ++ bytes.now) }
    ensures err { OnErr result (said.new.items ≡ said.old.items) }
{
    said.extend_from_slice(bytes)?;
    Ok(())
}
