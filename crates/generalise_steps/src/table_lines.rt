// The lines that refuse a table's text.
ghost use Rattle.std.specs.Prelude.{◌≡◌, ◌≢◌, IfOk};
ghost use Rattle.class_table.specs.declared.fault.TableFault.TheVariants.{Memory};
ghost use Rattle.generalise_steps.specs.FaultLines.{why_word, table_line};

use agg_base::{NoMemory, Text};
use class_table::{TableFault, Why};
use std::alloc::Global;

// The word for the rule that a line breaks.
fn word_of(why: Why) -> &'static str
    ensures { result.now ≡ why_word why }
{
    match why {
        Why::Version => "Version",
        Why::Word => "Word",
        Why::Number => "Number",
        Why::Name => "Name",
        Why::Count => "Count",
        Why::Diagonal => "Diagonal",
        Why::End => "End",
    }
}

/// The line of a fault of a table's text.
#[tactic(auto, unfolding(crate::specs::FaultLines::table_line))]
pub fn line_of(alloc: Global, fault: TableFault) -> Result<Text, NoMemory>
    ensures line { IfOk result (λ line. line ≡ table_line fault) }
    ensures real { IfOk result (λ _. fault ≢ Memory) }
{
    match fault {
        TableFault::Line { number, why } => {
            Text::of(
                alloc,
                format!(in alloc; "refused: table Line {number} {}\n", word_of(why))?.as_str(),
            )
        }
        TableFault::RepeatedClass { line } => {
            Text::of(
                alloc,
                format!(in alloc; "refused: table RepeatedClass {line}\n")?.as_str(),
            )
        }
        TableFault::Limit { line } => Text::of(
            alloc,
            format!(in alloc; "refused: table Limit {line}\n")?.as_str(),
        ),
        TableFault::Memory => Err(NoMemory),
    }
}
