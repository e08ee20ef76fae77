// The lines that refuse the classes and the weights of areas.
ghost use Rattle.std.specs.Prelude.{◌≡◌, IfOk};
ghost use Rattle.generalise_steps.specs.FaultLines.{class_line, weight_line};

use agg_base::{NoMemory, Text};
use std::alloc::Global;

/// The line of an area whose class text is no name of the table.
#[tactic(auto, unfolding(crate::specs::FaultLines::class_line))]
pub fn unknown_class(alloc: Global, area: u32) -> Result<Text, NoMemory>
    ensures { IfOk result (λ line. line ≡ class_line area) }
{
    Text::of(
        alloc,
        format!(in alloc; "refused: classes UnknownClass {area}\n")?.as_str(),
    )
}

/// The line of an area that weighs less than 1.
#[tactic(auto, unfolding(crate::specs::FaultLines::weight_line))]
pub fn no_weight(alloc: Global, area: u32, sum: i128) -> Result<Text, NoMemory>
    ensures { IfOk result (λ line. line ≡ weight_line area sum) }
{
    Text::of(
        alloc,
        format!(in alloc; "refused: weights NoWeight {area} {sum}\n")?.as_str(),
    )
}
