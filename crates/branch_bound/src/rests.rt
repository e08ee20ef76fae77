// What the rows of a sum leave of the costs of choices. Where the sum has a value no number here leaves 128 bits, so that each operation that
// wraps gives what is meant; what is made of the numbers is a proposal in any case.
ghost use Rattle.std.specs.Prelude.{◌<◌};
ghost use Rattle.agg_model.specs.Problem.{areas};

use crate::beside::Beside;
use crate::lists::{at, put};
use agg_base::NoMemory;
use agg_model::{Problem, recolour};
use bound_rows::{Row, RowSum};
use std::alloc::Global;

// A number for each choice of an area and a class, area by area.
#[derive(Drop)]
pub(crate) struct Rests {
    classes: u8,
    numbers: Vec<i128>,
}

impl Rests {
    // What a sum leaves.
    pub(crate) fn of(alloc: Global, problem: &Problem, sum: &RowSum) -> Result<Rests, NoMemory> {
        let mut rests = Rests {
            classes: problem.classes(),
            numbers: Vec::new(alloc),
        };
        for area in 0..problem.areas() {
            rests.begin(problem, area, sum.denominator)?;
        }
        rests.take_rows(alloc, problem, sum)?;
        Ok(rests)
    }

    // What is left at a choice.
    pub(crate) fn left(&self, area: u32, class: u8) -> i128 {
        at(&self.numbers, self.place(area, class), 0)
    }

    fn place(&self, area: u32, class: u8) -> usize {
        area as usize * self.classes as usize + class as usize
    }

    // The numbers that the choices of an area begin with.
    fn begin(&mut self, problem: &Problem, area: u32, denominator: u32) -> Result<(), NoMemory>
        requires { area < areas problem.now }
    {
        for class in 0..problem.classes() {
            let cost = recolour(problem, area, class);
            self.numbers
                .push(cost.wrapping_mul(i128::from(denominator)))?;
        }
        Ok(())
    }

    // Takes what all rows take.
    fn take_rows(
        &mut self,
        alloc: Global,
        problem: &Problem,
        sum: &RowSum,
    ) -> Result<(), NoMemory> {
        let beside = Beside::of(alloc, problem)?;
        let mut met = vec![in alloc; 0u32; problem.areas() as usize]?;
        let mut stamp = 0u32;
        for (row, multiplier) in &sum.rows {
            stamp = stamp.saturating_add(1);
            match row {
                Row::Border { link, side, class } => {
                    self.take_border(problem, *link, *side, *class, *multiplier);
                }
                Row::Escape { area, class, set } => {
                    self.take(*area, *class, multiplier.wrapping_neg());
                    mark_all(&mut met, set.areas(), stamp);
                    self.take_beside(&beside, &mut met, stamp, set.areas(), *class, *multiplier);
                }
            }
        }
        Ok(())
    }

    // Takes an amount from what is left at a choice.
    fn take(&mut self, area: u32, class: u8, amount: i128) {
        let place = self.place(area, class);
        let left = at(&self.numbers, place, 0);
        put(&mut self.numbers, place, left.wrapping_sub(amount));
    }

    // Takes what a border row takes: from the far end of the link what it gives to the near one.
    fn take_border(&mut self, problem: &Problem, link: u32, side: u8, class: u8, amount: i128) {
        if link >= problem.link_count() {
            return;
        }
        let ends = problem.link(link);
        let (near, far) = if side == 0 {
            (ends.a, ends.b)
        } else {
            (ends.b, ends.a)
        };
        self.take(near, class, amount.wrapping_neg());
        self.take(far, class, amount);
    }

    // Takes an amount from the areas beside those of a set, from each once. The set's own bear the stamp.
    fn take_beside(
        &mut self,
        beside: &Beside,
        met: &mut [u32],
        stamp: u32,
        set: &[u32],
        class: u8,
        amount: i128,
    ) {
        for area in set {
            self.take_around(beside.area(*area), met, stamp, class, amount);
        }
    }

    // Takes an amount from each of these areas that does not bear the stamp yet.
    fn take_around(&mut self, areas: &[u32], met: &mut [u32], stamp: u32, class: u8, amount: i128) {
        for area in areas {
            if at(met, *area as usize, stamp) != stamp {
                put(met, *area as usize, stamp);
                self.take(*area, class, amount);
            }
        }
    }
}

// Gives all these areas a stamp.
fn mark_all(met: &mut [u32], areas: &[u32], stamp: u32) {
    for area in areas {
        put(met, *area as usize, stamp);
    }
}
