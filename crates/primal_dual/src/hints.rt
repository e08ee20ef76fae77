// Where the fractions are split most.
use crate::fixed::ONE;
use crate::lists::{at, narrow};
use crate::relaxation::Relaxation;

// A fraction that is nearer to 0 or to 1 counts for less than every other one.
const LEAST_GAP: i64 = ONE / 20;

const LESS: i64 = 1_024;

// A choice, and how much its fraction tells.
#[derive(Clone, Copy)]
struct Hint {
    area: usize,
    kind: usize,
    worth: i64,
}

impl Relaxation {
    // The area and the class whose fraction is nearest to a half, weighed by the links of the area, the first at a tie. There is none where
    // each area has one class.
    pub(crate) fn hint(&self) -> Option<(u32, u8)> {
        let mut best = Hint {
            area: 0,
            kind: 0,
            worth: 0,
        };
        for area in 0..self.net.areas {
            best = self.better_hint(best, area);
        }
        if best.worth == 0 {
            return None;
        }
        let class = at(&self.net.classes, best.kind, 0);
        Some((narrow(best.area), class))
    }

    // The hint, or a choice of the area that tells more.
    fn better_hint(&self, hint: Hint, area: usize) -> Hint {
        let mut best = hint;
        let links = self.net.beside(area).len().min(1_048_576) as i64;
        for kind in 0..self.net.kinds() {
            let fraction = at(&self.image.fractions, self.net.choice(area, kind), 0);
            let worth = worth_of(fraction, links);
            if worth > best.worth {
                best = Hint { area, kind, worth };
            }
        }
        best
    }
}

// How much a fraction tells of an area with so many links.
fn worth_of(fraction: i64, links: i64) -> i64 {
    let gap = fraction.min(ONE.wrapping_sub(fraction)).max(0);
    if gap < LEAST_GAP {
        gap / LESS
    } else {
        gap.wrapping_mul(links)
    }
}
