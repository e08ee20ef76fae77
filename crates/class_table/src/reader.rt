// The reader of class tables.
ghost use Rattle.std.specs.Prelude.{◌≡◌, ◌≤◌, length, IfOk, IfErr};
ghost use Rattle.agg_base.specs.Lines.{rows_from};
ghost use Rattle.class_table.specs.Table.{Table};
ghost use Rattle.class_table.specs.Content.{no_content};
ghost use Rattle.class_table.specs.Reading.{lines_say, reading};
ghost use Rattle.class_table.specs.Gives.{Gives, content_of};
ghost use Rattle.class_table.specs.Faults.{IsFaultOf, IsFirstFault};
ghost use Rattle.class_table.specs.declared.fault.TableFault.{TableFault};
ghost use Rattle.class_table.specs.TableTexts.{IsTableText};

use crate::draft::Draft;
use crate::{Table, TableFault};
use agg_base::limits::TEXT_BYTES;
use agg_base::lines;
use std::alloc::Global;

/// The class table that a text spells.
///
/// Lines of blanks and lines that begin with `#` are passed over. Words are parted by blanks, that is by spaces and tabs. The others are, in
/// order: `classes 1`; where it is written, `unit PX PY` with factors of 1 to 100; `border B` of 0 to 10,000; 1 to 64 lines `class T NAME`,
/// T from 0 to 10^30 and NAME the rest of the line, 1 to 100 bytes of UTF-8 without bytes below 32, each name once; and for each class a line
/// `row` with one distance of 0 to 10,000 per class, 0 from the class to itself. A number is one to 31 digits; zeros in front are fine.
///
/// A fault is that of the first line that breaks a rule, and names the first rule that it breaks: `Version`, `Word`, `Limit`, `Number`,
/// `Name`, `RepeatedClass`, `Diagonal` in this order, and for a row `Count` before `Number`. Where the text ends too early it is `End` at the
/// number of lines plus 1, or `Version` there for a text without any line that counts. The format is this project's own.
pub fn read(alloc: Global, bytes: &[u8]) -> Result<Table, TableFault>
    requires { length bytes.now ≤ TEXT_BYTES }
    ensures found { IfOk result (λ t. IsTableText bytes.now t) }
    ensures fault { IfErr result (λ f. IsFaultOf bytes.now f) }
    ensures spelled { (t : Table) → IsTableText bytes.now t → Gives (λ u. u) result (Ok t) }
    ensures faulty { (f : TableFault) → IsFirstFault bytes.now f → Gives (λ u. u) result (Err f) }
{
    read_text(alloc, bytes)
}

// The table that all lines give.
#[tactic(auto, unfolding(crate::specs::Reading::reading))]
fn read_text(alloc: Global, bytes: &[u8]) -> Result<Table, TableFault>
    requires { length bytes.now ≤ TEXT_BYTES }
    ensures { Gives (λ t. t) result (reading bytes.now) }
{
    let (draft, last) = read_lines(alloc, bytes)?;
    draft.finish(last)
}

// What all lines say, and how many they are.
fn read_lines(alloc: Global, bytes: &[u8]) -> Result<(Draft, u32), TableFault>
    requires { length bytes.now ≤ TEXT_BYTES }
    ensures said { Gives (λ p. content_of p.0) result (lines_say no_content (rows_from 1 bytes.now)) }
    ensures last { IfOk result (λ p. p.1 ≡ length (rows_from 1 bytes.now)) }
{
    let mut draft = Draft::start(alloc);
    let mut last = 0;
    let mut rest = lines(bytes);
    while let Some(line) = rest.next() {
        draft.take(alloc, line.number, line.text)?;
        last += 1;
    }
    Ok((draft, last))
}
