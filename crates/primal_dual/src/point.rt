// What the steps move: a fraction for each choice, a flow for each link and kind, and a price for each escape row.
use crate::lists::at;
use agg_base::NoMemory;
use std::alloc::Global;

#[derive(Drop)]
pub(crate) struct Point {
    pub(crate) fractions: Vec<i64>,
    // What a link moves from its near choice to its far one, in units of cost. One below 0 moves it back.
    pub(crate) flows: Vec<i64>,
    pub(crate) prices: Vec<i64>,
}

impl Point {
    // All zero, without rows.
    pub(crate) fn zero(alloc: Global, choices: usize, flows: usize) -> Result<Point, NoMemory> {
        Ok(Point {
            fractions: vec![in alloc; 0; choices]?,
            flows: vec![in alloc; 0; flows]?,
            prices: Vec::new(alloc),
        })
    }

    // The same point again.
    pub(crate) fn copy(&self, alloc: Global) -> Result<Point, NoMemory> {
        Ok(Point {
            fractions: Vec::from_slice(alloc, &self.fractions)?,
            flows: Vec::from_slice(alloc, &self.flows)?,
            prices: Vec::from_slice(alloc, &self.prices)?,
        })
    }

    // Becomes another point of the same size.
    pub(crate) fn take(&mut self, other: &Point) {
        take(&mut self.fractions, &other.fractions);
        take(&mut self.flows, &other.flows);
        take(&mut self.prices, &other.prices);
    }

    // Goes on beyond the image by as much as the image is away, and then towards the anchor by a part of the way.
    pub(crate) fn reflect(&mut self, image: &Point, anchor: &Point, part: i64) {
        reflect(
            &mut self.fractions,
            &image.fractions,
            &anchor.fractions,
            part,
        );
        reflect(&mut self.flows, &image.flows, &anchor.flows, part);
        reflect(&mut self.prices, &image.prices, &anchor.prices, part);
    }

    // Drops the prices of the rows that are not kept.
    pub(crate) fn keep(&mut self, alloc: Global, kept: &[usize]) -> Result<(), NoMemory> {
        self.prices = at_places(alloc, &self.prices, kept)?;
        Ok(())
    }
}

// The numbers at some places.
pub(crate) fn at_places(
    alloc: Global,
    numbers: &[i64],
    places: &[usize],
) -> Result<Vec<i64>, NoMemory> {
    let mut picked = Vec::with_capacity(alloc, places.len())?;
    for place in places {
        picked.push(at(numbers, *place, 0))?;
    }
    Ok(picked)
}

// Copies numbers, place by place.
pub(crate) fn take(numbers: &mut [i64], others: &[i64]) {
    for (number, other) in numbers.iter_mut().zip(others) {
        *number = *other;
    }
}

fn reflect(numbers: &mut [i64], images: &[i64], anchors: &[i64], part: i64) {
    for (number, (image, anchor)) in numbers.iter_mut().zip(images.iter().zip(anchors)) {
        *number = reflection(*number, *image, *anchor, part);
    }
}

fn reflection(number: i64, image: i64, anchor: i64, part: i64) -> i64 {
    let beyond = image.wrapping_mul(2).wrapping_sub(number);
    let way = i128::from(anchor.wrapping_sub(beyond)).wrapping_mul(i128::from(part));
    let moved = way.wrapping_add(536_870_912) >> 30;
    crate::fixed::nearest_price(i128::from(beyond).wrapping_add(moved))
}
