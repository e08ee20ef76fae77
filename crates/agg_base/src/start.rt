// Where the lines of a text begin.
ghost use Rattle.std.specs.Prelude.{◌≡◌, ◌≤◌, length};
ghost use Rattle.agg_base.specs.Lines.{rows_left, rows_from};

use crate::Lines;
use crate::limits::TEXT_BYTES;

/// The lines of a text, in order, numbered from 1.
///
/// An empty text has no line, and nothing behind the last line feed is a line. It takes no memory.
pub fn lines(bytes: &[u8]) -> Lines<'_>
    requires { length bytes.now ≤ TEXT_BYTES }
    ensures { rows_left result ≡ rows_from 1 bytes.now }
{
    Lines::from_first(bytes)
}
