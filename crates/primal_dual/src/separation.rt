// Escape rows that the fractions break.
use crate::fixed::ONE;
use crate::growth::{Way, Wish};
use crate::lists::at;
use crate::relaxation::Relaxation;
use agg_base::NoMemory;

// By how much a row is broken that is added.
const DELTA: i64 = ONE / 50;

// How often each area and each link may be looked at in one separation, and how often more.
const LOOKS: u64 = 400;

const MORE_LOOKS: u64 = 1_000_000;

impl Relaxation {
    // Adds rows that the image breaks, one at most for each choice, and says how many it added.
    pub(crate) fn separate(&mut self) -> Result<usize, NoMemory> {
        let size = self.net.areas.saturating_add(self.net.ties.len());
        self.growth.allow(
            (size as u64)
                .saturating_mul(LOOKS)
                .saturating_add(MORE_LOOKS),
        );
        let mut added = 0usize;
        for area in 0..self.net.areas {
            added = added.wrapping_add(self.separate_area(area)?);
        }
        Ok(added)
    }

    fn separate_area(&mut self, area: usize) -> Result<usize, NoMemory> {
        let mut added = 0usize;
        for kind in 0..self.net.kinds() {
            let is_new = self.is_wanted(area, kind)
                && self.is_broken(area, kind)
                && self.add_grown(area, kind)?;
            added = added.wrapping_add(usize::from(is_new));
        }
        Ok(added)
    }

    // Whether the choice has a fraction, and a row in form.
    fn is_wanted(&self, area: usize, kind: usize) -> bool {
        let choice = self.net.choice(area, kind);
        at(&self.is_open, choice, false)
            && at(&self.image.fractions, choice, 0) > DELTA
            && !self.is_rich(area, kind)
    }

    // Whether a set was found whose row is broken. It is what has grown last.
    fn is_broken(&mut self, area: usize, kind: usize) -> bool {
        let wish = Wish {
            kind,
            delta: DELTA,
            fractions: &self.image.fractions,
        };
        self.growth.is_found(&self.net, area, wish, Way::Greatest)
            || self.growth.is_found(&self.net, area, wish, Way::LeastRest)
    }
}
