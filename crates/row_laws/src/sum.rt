// Sums of rows.
use crate::Row;
use agg_base::NoMemory;
use std::alloc::Global;
use std::marker::Model;

/// Rows with multipliers over a denominator. There are fewer than 2^32 rows.
#[derive(Drop)]
pub struct RowSum {
    /// The denominator: 1 to 4,096, and 1 in void mode, where the sum is sound.
    pub denominator: u32,
    /// Whether the sum is to show that there is no grouping at all.
    pub void: bool,
    /// The rows with their multipliers, which are 0 or more where the sum is sound.
    pub rows: Vec<(Row, i128)>,
}

impl Model for RowSum {
    ghost use Rattle.std.specs.Prelude.{length, ◌<◌, ◌^◌};
    ghost use Rattle.row_laws.specs.Values.{RowSum};

    ghost Value = { RowSum };

    ghost view = { λ s. record { denominator = s.denominator; void = s.void; rows = s.rows.items } };

    ghost invariant = { λ s. length s.rows.items < 2 ^ 32 };
}

ghost use Rattle.std.specs.Prelude.{◌≡◌, IfOk};

impl RowSum {
    /// The same sum again. Its one refusal is want of memory.
    pub fn copy(&self, alloc: Global) -> Result<RowSum, NoMemory>
        ensures { IfOk result (λ sum. sum ≡ self.now) }
    {
        let mut rows = Vec::with_capacity(alloc, self.rows.len())?;
        for (row, multiplier) in &self.rows {
            rows.push((row.copy(alloc)?, *multiplier))?;
        }
        Ok(RowSum {
            denominator: self.denominator,
            void: self.void,
            rows,
        })
    }
}
