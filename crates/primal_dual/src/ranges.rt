// Ranges of fractions and flows, and the nearest points in them.
use crate::fixed::ONE;
use crate::lists::{at, put};

// The fraction of a choice that is closed, before fractions are put into their range.
pub(crate) const CLOSED: i64 = -1_152_921_504_606_846_976;

// Numbers above this are of open choices.
const LOWEST: i64 = CLOSED / 2;

// The sum of some numbers, and how many they are.
#[derive(Clone, Copy)]
struct Kept {
    sum: i64,
    count: i64,
}

// The fractions of an area become 0 or more with sum 1, by taking the same from each; those of closed choices become 0.
pub(crate) fn to_shares(all: &mut [i64], first: usize, end: usize) {
    let level = share_level(all.get(first..end).unwrap_or(&[]));
    for place in first..end {
        let fraction = at(all, place, 0).wrapping_sub(level);
        put(all, place, fraction.max(0));
    }
}

// What is taken from each fraction.
fn share_level(fractions: &[i64]) -> i64 {
    let mut level = LOWEST;
    let mut count = 0;
    for _ in 0..=fractions.len().min(64) {
        let kept = above(fractions, level);
        if kept.count == count {
            break;
        }
        count = kept.count;
        level = kept
            .sum
            .wrapping_sub(ONE)
            .checked_div(count)
            .unwrap_or(level);
    }
    level
}

// The numbers above a level.
fn above(numbers: &[i64], level: i64) -> Kept {
    let mut kept = Kept { sum: 0, count: 0 };
    for number in numbers {
        if *number > level {
            kept = Kept {
                sum: kept.sum.wrapping_add(*number),
                count: kept.count.wrapping_add(1),
            };
        }
    }
    kept
}

// The flows of a link come nearer to 0, each by the same, until their absolute values sum to the radius at most.
pub(crate) fn to_ball(all: &mut [i64], first: usize, end: usize, radius: i64) {
    let flows = all.get(first..end).unwrap_or(&[]);
    if beyond(flows, -1).sum <= radius {
        return;
    }
    let level = ball_level(flows, radius);
    for place in first..end {
        let flow = at(all, place, 0);
        put(all, place, nearer(flow, level));
    }
}

// How much nearer to 0 each flow comes.
fn ball_level(flows: &[i64], radius: i64) -> i64 {
    let mut level = -1;
    let mut count = 0;
    for _ in 0..=flows.len().min(64) {
        let kept = beyond(flows, level);
        if kept.count == count {
            break;
        }
        count = kept.count;
        let more = kept
            .sum
            .wrapping_sub(radius)
            .wrapping_add(count)
            .wrapping_sub(1);
        level = more.checked_div(count).unwrap_or(level);
    }
    level
}

// The absolute values above a level.
fn beyond(numbers: &[i64], level: i64) -> Kept {
    let mut kept = Kept { sum: 0, count: 0 };
    for number in numbers {
        let size = number.wrapping_abs();
        if size > level {
            kept = Kept {
                sum: kept.sum.wrapping_add(size),
                count: kept.count.wrapping_add(1),
            };
        }
    }
    kept
}

// A number brought nearer to 0 by so much, or to 0.
fn nearer(number: i64, by: i64) -> i64 {
    if number < 0 {
        number.wrapping_add(by).min(0)
    } else {
        number.wrapping_sub(by).max(0)
    }
}
