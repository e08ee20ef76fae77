// The run of the steps: when rows are added, when the steps begin anew, and when they end.
use crate::fixed::{over, square};
use crate::lists::at;
use crate::point::Point;
use crate::relaxation::{EVEN, Relaxation};
use agg_base::NoMemory;
use std::alloc::Global;

// After how many steps rows are added first.
const FIRST_GAP: u32 = 20;

// The weights of fractions against prices are within 2^6 of each other.
const MOST_TILT: u32 = 12;

// How far two points are from each other, by their fractions, and by their flows and prices.
#[derive(Clone, Copy)]
struct Distance {
    fractions: i128,
    prices: i128,
}

impl Distance {
    // Both together, as the tilt weighs them.
    fn length_at(self, tilt: u32) -> i128 {
        if tilt >= EVEN {
            let by = tilt.wrapping_sub(EVEN);
            self.fractions
                .wrapping_shl(by)
                .wrapping_add(self.prices.wrapping_shr(by))
        } else {
            let by = EVEN.wrapping_sub(tilt);
            self.fractions
                .wrapping_shr(by)
                .wrapping_add(self.prices.wrapping_shl(by))
        }
    }

    // The tilt that weighs both more alike, at most one away.
    fn next_tilt(self, tilt: u32) -> u32 {
        let fractions = if tilt >= EVEN {
            self.fractions
                .wrapping_shl(tilt.wrapping_sub(EVEN).wrapping_mul(2))
        } else {
            self.fractions
                .wrapping_shr(EVEN.wrapping_sub(tilt).wrapping_mul(2))
        };
        if self.prices.wrapping_mul(4) > fractions.wrapping_mul(9) {
            tilt.wrapping_add(1).min(MOST_TILT)
        } else if self.prices.wrapping_mul(9) < fractions.wrapping_mul(4) {
            tilt.saturating_sub(1)
        } else {
            tilt
        }
    }
}

// Where a run stands.
#[derive(Clone, Copy)]
struct Pace {
    // Steps since the last new beginning.
    since: u32,
    // How far the first of them went, and the last that was measured.
    first: i128,
    last: i128,
    // After which step rows are added next, and how many steps lie between.
    next: u32,
    gap: u32,
    // The step at which the best total had last risen enough, and the total.
    risen: u32,
    mark: i128,
}

impl Pace {
    fn of(best: i128) -> Pace {
        Pace {
            since: 0,
            first: 0,
            last: 0,
            next: FIRST_GAP,
            gap: FIRST_GAP,
            risen: 0,
            mark: best,
        }
    }

    // Whether a step that goes so far says that it is time to begin anew.
    fn is_over(&mut self, far: i128, step: u32) -> bool {
        let last = self.last;
        self.last = far;
        if self.since == 0 {
            self.first = far;
            return false;
        }
        let far = far.wrapping_mul(25);
        far <= self.first
            || (far <= self.first.wrapping_mul(16) && far > last.wrapping_mul(25))
            || self.since.saturating_mul(25) >= step.saturating_mul(9)
    }

    // Whether a run of so many areas has risen too little for long, at a step that added so many rows of all.
    fn is_done(&mut self, best: i128, step: u32, patience: u32, added: usize, rows: usize) -> bool {
        if best.wrapping_sub(self.mark) > best / 50_000 {
            self.risen = step;
            self.mark = best;
            return false;
        }
        step.wrapping_sub(self.risen) > patience && added.saturating_mul(500) <= rows
    }

    // Sets when rows are added next.
    fn go_on(&mut self, step: u32) {
        self.gap = self.gap.saturating_add(self.gap / 4);
        self.next = step.saturating_add(self.gap);
    }
}

impl Relaxation {
    // Takes steps until the best total is worth the goal, or rises no more, or so many are taken.
    pub(crate) fn run(&mut self, alloc: Global, goal: i128, steps: u32) -> Result<(), NoMemory> {
        self.open_run();
        let mut pace = Pace::of(self.best);
        if self.net.units.worth(self.best) >= goal {
            return Ok(());
        }
        for step in 1..=steps {
            self.step();
            let is_measured = pace.since % 4 == 0;
            let mut is_over = is_measured && self.is_over(&mut pace, step);
            if step >= pace.next || step == steps {
                if self.is_ended(alloc, &mut pace, goal, step)? {
                    break;
                }
                is_over = true;
            }
            self.move_on(&mut pace, is_over);
        }
        Ok(())
    }

    // The point as it is becomes the first best.
    fn open_run(&mut self) {
        self.image.take(&self.now);
        self.best = i128::MIN;
        self.note();
        self.restart();
        self.weigh();
    }

    fn is_over(&self, pace: &mut Pace, step: u32) -> bool {
        let far = self.distance(&self.image, &self.now).length_at(self.tilt);
        pace.is_over(far, step)
    }

    // Notes the total, adds rows, and says whether that was the end.
    fn is_ended(
        &mut self,
        alloc: Global,
        pace: &mut Pace,
        goal: i128,
        step: u32,
    ) -> Result<bool, NoMemory> {
        self.note();
        if self.net.units.worth(self.best) >= goal {
            return Ok(true);
        }
        let added = self.renew_rows(alloc)?;
        let patience = patience(self.net.areas);
        if pace.is_done(self.best, step, patience, added, self.rows.len()) {
            return Ok(true);
        }
        pace.go_on(step);
        self.tilt = self
            .distance(&self.image, &self.anchor)
            .next_tilt(self.tilt);
        self.weigh();
        Ok(false)
    }

    // Drops rows and adds others, and says how many it added. A narrow relaxation keeps those that it has.
    fn renew_rows(&mut self, alloc: Global) -> Result<usize, NoMemory> {
        if self.is_narrow {
            return Ok(0);
        }
        self.trim(alloc)?;
        self.separate()
    }

    // Begins anew at the image, or goes on beyond it.
    fn move_on(&mut self, pace: &mut Pace, is_over: bool) {
        if is_over {
            self.restart();
            pace.since = 0;
        } else {
            let part = 1_073_741_824i64.checked_div(i64::from(pace.since).wrapping_add(2));
            self.now
                .reflect(&self.image, &self.anchor, part.unwrap_or(0));
            pace.since = pace.since.saturating_add(1);
        }
    }

    // How far two points are from each other, in units of cost.
    fn distance(&self, a: &Point, b: &Point) -> Distance {
        Distance {
            fractions: self.fraction_distance(&a.fractions, &b.fractions),
            prices: self
                .flow_distance(&a.flows, &b.flows)
                .wrapping_add(self.price_distance(&a.prices, &b.prices)),
        }
    }

    fn fraction_distance(&self, a: &[i64], b: &[i64]) -> i128 {
        let kinds = self.net.kinds();
        let mut sum = 0i128;
        for area in 0..self.net.areas {
            let first = area.wrapping_mul(kinds);
            let gap = squares(a, b, first, kinds).min(295_147_905_179_352_825_856);
            let bulk = i128::from(at(&self.bulk, area, 1));
            sum = sum.wrapping_add(gap.wrapping_mul(bulk).wrapping_shr(60));
        }
        sum
    }

    fn flow_distance(&self, a: &[i64], b: &[i64]) -> i128 {
        let kinds = self.net.kinds();
        let mut sum = 0i128;
        let mut first = 0usize;
        for tie in &self.net.ties {
            if tie.pull > 1 {
                let gap = squares(a, b, first, kinds);
                sum = sum.wrapping_add(over(gap, i128::from(tie.pull / 2)));
            }
            first = first.wrapping_add(kinds);
        }
        sum
    }

    fn price_distance(&self, a: &[i64], b: &[i64]) -> i128 {
        let mut sum = 0i128;
        for place in 0..self.rows.len() {
            let gap = square(at(a, place, 0), at(b, place, 0));
            let pace = self.rows.row(place).pace;
            sum = sum.wrapping_add(over(gap, i128::from(pace)));
        }
        sum
    }
}

// The sum of the squares of the differences at so many places.
fn squares(a: &[i64], b: &[i64], first: usize, count: usize) -> i128 {
    let mut sum = 0i128;
    for place in first..first.wrapping_add(count) {
        sum = sum.wrapping_add(square(at(a, place, 0), at(b, place, 0)));
    }
    sum
}

// For how many steps the total may rise too little.
fn patience(areas: usize) -> u32 {
    let more = 400_000u64.checked_div(areas as u64).unwrap_or(0);
    150 + more.min(2_000) as u32
}
