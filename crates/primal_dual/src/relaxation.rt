// The linear relaxation of a problem over domains: what the steps work on.
ghost use Rattle.std.specs.Prelude.{◌<◌, length};
ghost use Rattle.agg_model.specs.Problem.{areas};
ghost use Rattle.bound_rows.specs.Domains.{IsFor};

use crate::fixed::{ONE, over};
use crate::growth::Growth;
use crate::lists::{at, narrow, put};
use crate::net::{NO_KIND, Net};
use crate::point::Point;
use crate::reduced::{least, reduce};
use crate::rows::{Row, Rows};
use agg_base::NoMemory;
use agg_model::Problem;
use bound_rows::Domains;
use std::alloc::Global;

// The steps of fractions and of prices are weighed against each other by a power of two: that of this number less EVEN.
pub(crate) const EVEN: u32 = 6;

#[derive(Drop)]
pub(crate) struct Relaxation {
    pub(crate) net: Net,
    pub(crate) rows: Rows,
    // By choice, whether it is allowed.
    pub(crate) is_open: Vec<bool>,
    // By area, what the cheapest allowed class costs that is no kind.
    pub(crate) caps: Vec<i64>,
    pub(crate) now: Point,
    pub(crate) image: Point,
    pub(crate) anchor: Point,
    // Where a run begins.
    start: Point,
    // The flows and prices of the greatest total so far.
    pub(crate) best_flows: Vec<i64>,
    pub(crate) best_prices: Vec<i64>,
    pub(crate) best: i128,
    // What is left at each choice.
    pub(crate) left: Vec<i64>,
    // The fractions that the flows and prices are moved by.
    pub(crate) ahead: Vec<i64>,
    // By area, how much its fractions weigh, and the reciprocal of that.
    pub(crate) bulk: Vec<i64>,
    pub(crate) rate: Vec<i64>,
    pub(crate) tilt: u32,
    pub(crate) growth: Growth,
    // Whether the steps move what the thinned sum has alone, and by link and kind the flows that they then leave at 0.
    pub(crate) is_narrow: bool,
    pub(crate) is_shut: Vec<bool>,
}

impl Relaxation {
    // At the own classes, with no flow, and with the rows whose set is one area.
    pub(crate) fn of(alloc: Global, net: Net) -> Result<Relaxation, NoMemory> {
        let choices = net.cost.len();
        let flows = net.ties.len().saturating_mul(net.kinds());
        let zero = Point::zero(alloc, choices, flows)?;
        let mut relaxation = Relaxation {
            rows: Rows::none(alloc, choices)?,
            is_open: vec![in alloc; true; choices]?,
            caps: vec![in alloc; i64::MAX; net.areas]?,
            image: zero.copy(alloc)?,
            anchor: zero.copy(alloc)?,
            start: zero.copy(alloc)?,
            now: zero,
            best_flows: vec![in alloc; 0; flows]?,
            best_prices: Vec::new(alloc),
            best: 0,
            left: vec![in alloc; 0; choices]?,
            ahead: vec![in alloc; 0; choices]?,
            bulk: vec![in alloc; 0; net.areas]?,
            rate: vec![in alloc; 0; net.areas]?,
            tilt: EVEN,
            growth: Growth::of(alloc, net.areas)?,
            is_narrow: false,
            is_shut: Vec::new(alloc),
            net,
        };
        relaxation.begin();
        relaxation.add_short_rows()?;
        Ok(relaxation)
    }

    // Each area is wholly of its own class.
    fn begin(&mut self) {
        for area in 0..self.net.areas {
            let choice = self.net.choice(area, self.net.own(area));
            put(&mut self.start.fractions, choice, ONE);
        }
    }

    // The next runs begin where this one ended.
    pub(crate) fn keep_start(&mut self) {
        self.start.take(&self.image);
    }

    // Opens the choices that the domains allow, and goes back to where runs begin.
    pub(crate) fn open(&mut self, problem: &Problem, domains: &Domains)
        requires { IsFor problem.now domains.now }
    {
        self.now.take(&self.start);
        for area in 0..problem.areas() {
            self.open_area(problem, domains, area);
        }
        self.close_rows();
    }

    fn open_area(&mut self, problem: &Problem, domains: &Domains, area: u32)
        requires domains { IsFor problem.now domains.now }
        requires area { area < areas problem.now }
    {
        let mut cap = i64::MAX;
        let mut kind = 0usize;
        for class in 0..problem.classes() {
            let is_allowed = domains.allows(area, class);
            if at(&self.net.classes, kind, NO_KIND) == class {
                let choice = self.net.choice(area as usize, kind);
                self.open_choice(choice, is_allowed);
                kind = kind.wrapping_add(1);
            } else if is_allowed {
                let distance = i128::from(problem.distance(problem.own(area), class));
                let cost = problem.weight(area).wrapping_mul(distance);
                cap = cap.min(self.net.units.of_cost(cost));
            }
        }
        put(&mut self.caps, area as usize, cap);
    }

    // Opens or closes a choice. A closed one has no fraction.
    fn open_choice(&mut self, choice: usize, is_open: bool) {
        put(&mut self.is_open, choice, is_open);
        if !is_open {
            put(&mut self.now.fractions, choice, 0);
        }
    }

    // The rows of closed choices have no price.
    fn close_rows(&mut self) {
        for place in 0..self.rows.len() {
            if !at(&self.is_open, self.rows.row(place).choice, false) {
                put(&mut self.now.prices, place, 0);
            }
        }
    }

    // The rows in form whose set is one area.
    fn add_short_rows(&mut self) -> Result<(), NoMemory> {
        for area in 0..self.net.areas {
            self.growth.begin(&self.net, area);
            self.add_rows_of(area)?;
        }
        Ok(())
    }

    // The rows in form whose set is this area, which is all that the growth holds.
    fn add_rows_of(&mut self, area: usize) -> Result<(), NoMemory> {
        for kind in 0..self.net.kinds() {
            if !self.is_rich(area, kind) {
                let _ = self.add_grown(area, kind)?;
            }
        }
        Ok(())
    }

    // Whether an area alone is a region of the kind that is heavy enough.
    pub(crate) fn is_rich(&self, area: usize, kind: usize) -> bool {
        self.net.own(area) == kind && self.net.weight(area) >= self.net.threshold(kind)
    }

    // Adds the row of the set that was grown, unless there is one with the same choices beside it. Says whether it did.
    pub(crate) fn add_grown(&mut self, area: usize, kind: usize) -> Result<bool, NoMemory> {
        self.growth.turn_to(&self.net, kind);
        let choice = self.net.choice(area, kind);
        if self.rows.has_row(choice, self.growth.beside()) {
            return Ok(false);
        }
        let scale = row_scale(&self.net, area);
        let count = i64::from(narrow(self.growth.beside().len())).saturating_add(1);
        let row = Row {
            area,
            kind,
            choice,
            members: self.growth.members(),
            beside: self.growth.beside(),
            scale,
            pace: scale.checked_div(count).unwrap_or(0).max(1),
        };
        self.rows.push(row)?;
        self.now.prices.push(0)?;
        self.image.prices.push(0)?;
        self.anchor.prices.push(0)?;
        self.start.prices.push(0)?;
        self.best_prices.push(0)?;
        Ok(true)
    }

    // Drops the rows that have been idle for long and have no part in the best sum.
    pub(crate) fn trim(&mut self, alloc: Global) -> Result<(), NoMemory> {
        self.rows.count_idle(&self.image.prices);
        let kept = self.kept_rows(alloc)?;
        if kept.len() == self.rows.len() {
            return Ok(());
        }
        self.keep_rows(alloc, &kept)
    }

    // Drops the other rows.
    pub(crate) fn keep_rows(&mut self, alloc: Global, kept: &[usize]) -> Result<(), NoMemory> {
        let mut rows = Rows::none(alloc, self.net.cost.len())?;
        for place in kept {
            rows.push_from(&self.rows, *place)?;
        }
        self.rows = rows;
        self.now.keep(alloc, kept)?;
        self.image.keep(alloc, kept)?;
        self.anchor.keep(alloc, kept)?;
        self.start.keep(alloc, kept)?;
        self.best_prices = crate::point::at_places(alloc, &self.best_prices, kept)?;
        Ok(())
    }

    fn kept_rows(&self, alloc: Global) -> Result<Vec<usize>, NoMemory> {
        let mut kept = Vec::new(alloc);
        for place in 0..self.rows.len() {
            let price = at(&self.best_prices, place, 0) | at(&self.start.prices, place, 0);
            if !self.rows.is_idle(place) || price != 0 {
                kept.push(place)?;
            }
        }
        Ok(kept)
    }

    // Keeps the image's flows and prices where their total is the greatest so far.
    pub(crate) fn note(&mut self) {
        reduce(
            &mut self.left,
            &self.net,
            &self.rows,
            &self.image.flows,
            &self.image.prices,
        );
        let total = self.total();
        if total > self.best {
            self.best = total;
            crate::point::take(&mut self.best_flows, &self.image.flows);
            crate::point::take(&mut self.best_prices, &self.image.prices);
        }
    }

    // The sum of what is left at the areas' cheapest classes.
    pub(crate) fn total(&self) -> i128 {
        let mut total = 0i128;
        for area in 0..self.net.areas {
            total = total.wrapping_add(i128::from(self.least_of(area)));
        }
        total
    }

    // What is left at the cheapest class of an area.
    pub(crate) fn least_of(&self, area: usize) -> i64 {
        let first = self.net.choice(area, 0);
        let cap = at(&self.caps, area, i64::MAX);
        least(&self.left, &self.is_open, first, self.net.kinds(), cap)
    }

    // The image becomes the point that the next ones are drawn to.
    pub(crate) fn restart(&mut self) {
        self.now.take(&self.image);
        self.anchor.take(&self.image);
    }
}

// How much of the cost round an area one unit of a row is.
fn row_scale(net: &Net, area: usize) -> i64 {
    let mut sum = 0i128;
    let first = net.choice(area, 0);
    for kind in 0..net.kinds() {
        sum = sum.wrapping_add(i128::from(at(&net.cost, first.wrapping_add(kind), 0)));
    }
    let mean = over(sum, i128::from(narrow(net.kinds())));
    let pull = i128::from(at(&net.pulls, area, 0)) / 4;
    let most = i128::from(crate::fixed::MOST / 64);
    let scale = mean
        .wrapping_add(pull)
        .wrapping_add(i128::from(net.units.denominator));
    crate::fixed::nearest_price(scale.min(most))
}
