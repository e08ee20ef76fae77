// How large sums are.
ghost use Rattle.std.specs.Prelude.{◌≡◌, ◌-◌, ◌^◌, ℕ, min, length};
ghost use Rattle.row_laws.specs.Values.{mark_count, row_marks};

use crate::{Row, RowSum};

/// How large the sum is: 8 marks for each row, and one more for each area of its set. A count that would pass 2^64 - 1 stays there. It takes
/// no memory.
pub fn marks(sum: &RowSum) -> u64
    ensures { result ≡ min (mark_count sum.now.rows) (2 ^ 64 - 1) }
{
    let mut count: u64 = 0;
    for (row, _) in &sum.rows {
        count = count.saturating_add(marks_of(row));
    }
    count
}

// The marks of one row.
fn marks_of(row: &Row) -> u64
    ensures { result ≡ min (row_marks row.now) (2 ^ 64 - 1) }
{
    match row {
        Row::Border { .. } => 8,
        Row::Escape { set, .. } => (set.areas().len() as u64).saturating_add(8),
    }
}
