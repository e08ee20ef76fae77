// Whether the names in a list of files differ.
ghost use Rattle.std.specs.Prelude.{IsTrue, ◌↔◌};
ghost use Rattle.shelf_io.specs.Held.{AreNamesDistinct};

use crate::held::place_of;
use agg_base::Text;

/// Whether no two files have one name, as the constructors of the shelves in memory ask. It takes no memory.
pub fn are_names_distinct(files: &[(Text, Vec<u8>)]) -> bool
    ensures { IsTrue result ↔ AreNamesDistinct files.now }
{
    for at in 0..files.len() {
        if place_of(&files[at + 1..], files[at].0.as_str()).is_some() {
            return false;
        }
    }
    true
}
