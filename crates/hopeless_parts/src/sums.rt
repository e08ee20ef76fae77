// The sum that proves a part hopeless.
ghost use Rattle.std.specs.Prelude.{◌≡◌, IfOk};
ghost use Rattle.row_laws.specs.FirstSums.{void_sum};

use agg_base::NoMemory;
use agg_model::Problem;
use row_laws::{Row, RowSum, Set};
use std::alloc::Global;

/// In void mode, an escape row of the area for each class, with its part as the set. Its one refusal is want of memory.
pub fn void_leaf(
    alloc: Global,
    problem: &Problem,
    area: u32,
    part: &Set,
) -> Result<RowSum, NoMemory>
    ensures { IfOk result (λ sum. sum ≡ void_sum problem.now area part.now) }
{
    let mut rows = Vec::new(alloc);
    for class in 0..problem.classes() {
        let set = part.copy(alloc)?;
        rows.push((Row::Escape { area, class, set }, 1))?;
    }
    Ok(RowSum {
        denominator: 1,
        void: true,
        rows,
    })
}
