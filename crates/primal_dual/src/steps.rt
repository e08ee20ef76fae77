// One step of the method: fractions down what is left, and flows and prices up what the fractions break, each put back into its range.
use crate::fixed::{ONE, nearest_price, rounded_product};
use crate::lists::{at, put};
use crate::net::Tie;
use crate::ranges::{CLOSED, to_ball, to_shares};
use crate::reduced::reduce;
use crate::relaxation::{EVEN, Relaxation};
use crate::rows::Row;
use std::ops::Range;

// Where the point of the reciprocals stands, in bits; and of fractions.
const RATE_BITS: u32 = 44;

const ONE_BITS: u32 = 30;

// No fraction is farther from 0 than this before it is put into its range.
const FAR: i64 = 64 * ONE;

// What each area weighs at least.
const LEAST_BULK: i64 = 16_384;

impl Relaxation {
    // The image of the point.
    pub(crate) fn step(&mut self) {
        reduce(
            &mut self.left,
            &self.net,
            &self.rows,
            &self.now.flows,
            &self.now.prices,
        );
        self.move_fractions();
        self.look_ahead();
        self.move_flows();
        self.move_prices();
    }

    fn move_fractions(&mut self) {
        let bits = RATE_BITS.wrapping_add(self.tilt).wrapping_sub(EVEN);
        for area in 0..self.net.areas {
            let rate = at(&self.rate, area, 0);
            let first = self.net.choice(area, 0);
            self.move_area(first, rate, bits);
        }
    }

    // The fractions of one area.
    fn move_area(&mut self, first: usize, rate: i64, bits: u32) {
        let end = first.wrapping_add(self.net.kinds());
        for choice in first..end {
            let moved = self.moved_fraction(choice, rate, bits);
            put(&mut self.image.fractions, choice, moved);
        }
        to_shares(&mut self.image.fractions, first, end);
    }

    fn moved_fraction(&self, choice: usize, rate: i64, bits: u32) -> i64 {
        if !at(&self.is_open, choice, false) {
            return CLOSED;
        }
        let way = rounded_product(at(&self.left, choice, 0), rate, bits);
        let moved = at(&self.now.fractions, choice, 0).wrapping_sub(way);
        moved.max(-FAR).min(FAR)
    }

    // Twice the image less the point.
    fn look_ahead(&mut self) {
        let pairs = self.image.fractions.iter().zip(&self.now.fractions);
        for (ahead, (image, now)) in self.ahead.iter_mut().zip(pairs) {
            *ahead = image.wrapping_mul(2).wrapping_sub(*now);
        }
    }

    fn move_flows(&mut self) {
        let bits = (ONE_BITS + 1).wrapping_add(EVEN).wrapping_sub(self.tilt);
        let kinds = self.net.kinds();
        let mut first = 0usize;
        for tie in &self.net.ties {
            let end = first.wrapping_add(kinds);
            let images = &mut self.image.flows;
            let (flows, ahead) = (&self.now.flows, &self.ahead);
            if is_moved(images, flows, ahead, &self.is_shut, *tie, first..end, bits) {
                to_ball(images, first, end, tie.pull);
            }
            first = end;
        }
    }

    fn move_prices(&mut self) {
        let bits = ONE_BITS.wrapping_add(EVEN).wrapping_sub(self.tilt);
        for place in 0..self.rows.len() {
            let row = self.rows.row(place);
            let price = at(&self.now.prices, place, 0);
            let moved = if at(&self.is_open, row.choice, false) {
                moved_price(&self.ahead, row, price, bits)
            } else {
                0
            };
            put(&mut self.image.prices, place, moved);
        }
    }

    // What areas weigh in a step, from the rows that there are.
    pub(crate) fn weigh(&mut self) {
        for load in self.ahead.iter_mut() {
            *load = 0;
        }
        for place in 0..self.rows.len() {
            let row = self.rows.row(place);
            if at(&self.is_open, row.choice, false) {
                load(&mut self.ahead, row);
            }
        }
        self.take_loads();
    }

    // The bulk of each area: its links, and the greatest load of its choices.
    fn take_loads(&mut self) {
        for area in 0..self.net.areas {
            let pull = at(&self.net.pulls, area, 0);
            let load = self.greatest_load(area);
            let bulk = i128::from(pull)
                .wrapping_add(i128::from(load))
                .wrapping_add(i128::from(LEAST_BULK));
            let bulk = nearest_price(bulk).max(1);
            put(&mut self.bulk, area, bulk);
            let rate = 18_889_465_931_478_580_854_784i128.checked_div(i128::from(bulk));
            put(
                &mut self.rate,
                area,
                i64::try_from(rate.unwrap_or(0)).unwrap_or(0),
            );
        }
    }

    fn greatest_load(&self, area: usize) -> i64 {
        let first = self.net.choice(area, 0);
        let mut greatest = 0;
        for choice in first..first.wrapping_add(self.net.kinds()) {
            greatest = at(&self.ahead, choice, 0).max(greatest);
        }
        greatest
    }
}

// Moves the flows of one link that are not shut, and says whether one of them is not 0.
fn is_moved(
    images: &mut [i64],
    flows: &[i64],
    ahead: &[i64],
    is_shut: &[bool],
    tie: Tie,
    places: Range<usize>,
    bits: u32,
) -> bool {
    let mut kind = 0usize;
    let mut is_flowing = false;
    for place in places {
        let near = at(ahead, tie.near.wrapping_add(kind), 0);
        let far = at(ahead, tie.far.wrapping_add(kind), 0);
        let moved = if at(is_shut, place, false) {
            0
        } else {
            moved_flow(at(flows, place, 0), tie.pull, near.wrapping_sub(far), bits)
        };
        put(images, place, moved);
        is_flowing |= moved != 0;
        kind = kind.wrapping_add(1);
    }
    is_flowing
}

fn moved_flow(flow: i64, pull: i64, gap: i64, bits: u32) -> i64 {
    if gap == 0 {
        return flow;
    }
    nearest_price(i128::from(flow).wrapping_add(i128::from(rounded_product(pull, gap, bits))))
}

// The price of a row, moved by how far its choice is above those beside the set.
fn moved_price(ahead: &[i64], row: Row<'_>, price: i64, bits: u32) -> i64 {
    let mut gap = at(ahead, row.choice, 0);
    for choice in row.beside {
        gap = gap.wrapping_sub(at(ahead, *choice as usize, 0));
    }
    if gap == 0 {
        return price.max(0);
    }
    nearest_price(i128::from(price).wrapping_add(i128::from(rounded_product(
        row.pace, gap, bits,
    )))).max(0)
}

// Adds the scale of a row to the loads of its choices.
fn load(loads: &mut [i64], row: Row<'_>) {
    add_load(loads, row.choice, row.scale);
    for choice in row.beside {
        add_load(loads, *choice as usize, row.scale);
    }
}

fn add_load(loads: &mut [i64], choice: usize, scale: i64) {
    let sum = i128::from(at(loads, choice, 0)).wrapping_add(i128::from(scale));
    put(loads, choice, nearest_price(sum));
}
