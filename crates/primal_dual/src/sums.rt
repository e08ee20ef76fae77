// The best flows and prices as a sum of rows.
ghost use Rattle.std.specs.Prelude.{◌≡◌};
ghost use Rattle.row_laws.specs.FirstSums.{plain_sum};

use crate::lists::{at, narrow};
use crate::relaxation::Relaxation;
use agg_base::NoMemory;
use bound_rows::{Row, RowSum, Set};
use std::alloc::Global;

// The most rows of a sum.
const MOST_ROWS: usize = 4_000_000;

impl Relaxation {
    // The sum of the rows that count.
    pub(crate) fn sum(&self, alloc: Global) -> Result<RowSum, NoMemory> {
        let mut rows = Vec::new(alloc);
        self.push_borders(&mut rows)?;
        self.push_escapes(alloc, &mut rows)?;
        Ok(sum_of(alloc, self.net.units.denominator, rows))
    }

    fn push_borders(&self, rows: &mut Vec<(Row, i128)>) -> Result<(), NoMemory> {
        let kinds = self.net.kinds();
        for (place, flow) in self.best_flows.iter().enumerate() {
            if *flow != 0 {
                let link = narrow(place.checked_div(kinds).unwrap_or(0));
                let class = at(&self.net.classes, place.checked_rem(kinds).unwrap_or(0), 0);
                let side = if *flow > 0 { 0 } else { 1 };
                rows.push((Row::Border { link, side, class }, self.multiplier(*flow)))?;
            }
        }
        Ok(())
    }

    fn push_escapes(&self, alloc: Global, rows: &mut Vec<(Row, i128)>) -> Result<(), NoMemory> {
        for (place, price) in self.best_prices.iter().enumerate() {
            if *price > 0 {
                let row = self.rows.row(place);
                let mut members = Vec::from_slice(alloc, row.members)?;
                members.sort()?;
                if let Some(set) = Set::of(members) {
                    let area = narrow(row.area);
                    let class = at(&self.net.classes, row.kind, 0);
                    rows.push((Row::Escape { area, class, set }, self.multiplier(*price)))?;
                }
            }
        }
        Ok(())
    }

    // What stands before a row, from its flow or price.
    fn multiplier(&self, number: i64) -> i128 {
        i128::from(number)
            .wrapping_abs()
            .wrapping_shl(self.net.units.halvings)
    }
}

// A sum in cost mode, or the plain one where there are no rows or too many.
fn sum_of(alloc: Global, denominator: u32, rows: Vec<(Row, i128)>) -> RowSum {
    if rows.is_empty() || rows.len() > MOST_ROWS {
        return no_rows(alloc);
    }
    RowSum {
        denominator,
        void: false,
        rows,
    }
}

// The sum without rows.
pub(crate) fn no_rows(alloc: Global) -> RowSum
    ensures { result ≡ plain_sum }
{
    RowSum {
        denominator: 1,
        void: false,
        rows: Vec::new(alloc),
    }
}
