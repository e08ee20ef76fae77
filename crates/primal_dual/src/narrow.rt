// A relaxation that keeps to the rows of its best sum, so that no sum of it has more marks than that.
use crate::lists::at;
use crate::relaxation::Relaxation;
use agg_base::NoMemory;
use std::alloc::Global;

impl Relaxation {
    // From now on the steps move the flows and prices of the best sum alone, and begin there.
    pub(crate) fn become_narrow(&mut self, alloc: Global) -> Result<(), NoMemory> {
        let kept = self.best_rows(alloc)?;
        self.keep_rows(alloc, &kept)?;
        self.is_shut = are_zero(alloc, &self.best_flows)?;
        self.is_narrow = true;
        crate::point::take(&mut self.image.flows, &self.best_flows);
        crate::point::take(&mut self.image.prices, &self.best_prices);
        self.restart();
        Ok(())
    }

    // The rows that have a price in the best sum.
    fn best_rows(&self, alloc: Global) -> Result<Vec<usize>, NoMemory> {
        let mut kept = Vec::new(alloc);
        for place in 0..self.rows.len() {
            if at(&self.best_prices, place, 0) != 0 {
                kept.push(place)?;
            }
        }
        Ok(kept)
    }
}

// Which numbers are 0.
fn are_zero(alloc: Global, numbers: &[i64]) -> Result<Vec<bool>, NoMemory> {
    let mut is_unused = Vec::with_capacity(alloc, numbers.len())?;
    for number in numbers {
        is_unused.push(*number == 0)?;
    }
    Ok(is_unused)
}
