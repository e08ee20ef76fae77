// Escape rows: an area, a kind, a set that holds the area, and the choices of that kind beside the set.
use crate::lists::{at, narrow, put};
use agg_base::NoMemory;
use std::alloc::Global;

// What stands for no row.
const NONE: u32 = u32::MAX;

// In how many separations in a row a row may be idle before it is dropped.
const MOST_IDLE: u8 = 10;

// One row: its choice, its members, the choices beside it, and how far it is moved at once.
#[derive(Clone, Copy)]
pub(crate) struct Row<'a> {
    pub(crate) area: usize,
    pub(crate) kind: usize,
    pub(crate) choice: usize,
    pub(crate) members: &'a [u32],
    pub(crate) beside: &'a [u32],
    // How much of the cost round the row one unit of it is, and that over the number of its choices.
    pub(crate) scale: i64,
    pub(crate) pace: i64,
}

#[derive(Drop)]
pub(crate) struct Rows {
    area: Vec<u32>,
    kind: Vec<u8>,
    choice: Vec<u32>,
    // Where the members of each row end, and the choices beside it.
    member_end: Vec<usize>,
    members: Vec<u32>,
    beside_end: Vec<usize>,
    beside: Vec<u32>,
    scale: Vec<i64>,
    pace: Vec<i64>,
    idle: Vec<u8>,
    // What tells rows of one choice apart, and the row before each of the same choice.
    key: Vec<u64>,
    before: Vec<u32>,
    // By choice, its last row.
    last: Vec<u32>,
}

impl Rows {
    // No rows, for so many choices.
    pub(crate) fn none(alloc: Global, choices: usize) -> Result<Rows, NoMemory> {
        Ok(Rows {
            area: Vec::new(alloc),
            kind: Vec::new(alloc),
            choice: Vec::new(alloc),
            member_end: Vec::new(alloc),
            members: Vec::new(alloc),
            beside_end: Vec::new(alloc),
            beside: Vec::new(alloc),
            scale: Vec::new(alloc),
            pace: Vec::new(alloc),
            idle: Vec::new(alloc),
            key: Vec::new(alloc),
            before: Vec::new(alloc),
            last: vec![in alloc; NONE; choices]?,
        })
    }

    pub(crate) fn len(&self) -> usize {
        self.choice.len()
    }

    pub(crate) fn row(&self, place: usize) -> Row<'_> {
        Row {
            area: at(&self.area, place, 0) as usize,
            kind: at(&self.kind, place, 0) as usize,
            choice: at(&self.choice, place, 0) as usize,
            members: part(&self.members, &self.member_end, place),
            beside: part(&self.beside, &self.beside_end, place),
            scale: at(&self.scale, place, 1),
            pace: at(&self.pace, place, 1),
        }
    }

    // Whether a row of this choice has these choices beside it.
    pub(crate) fn has_row(&self, choice: usize, beside: &[u32]) -> bool {
        let key = key_of(beside);
        let mut row = at(&self.last, choice, NONE);
        for _ in 0..self.choice.len() {
            if row == NONE {
                return false;
            }
            if at(&self.key, row as usize, 0) == key {
                return true;
            }
            row = at(&self.before, row as usize, NONE);
        }
        false
    }

    // Appends a row.
    pub(crate) fn push(&mut self, row: Row<'_>) -> Result<(), NoMemory> {
        let place = self.choice.len();
        self.area.push(narrow(row.area))?;
        self.kind.push(row.kind.min(63) as u8)?;
        self.choice.push(narrow(row.choice))?;
        push_all(&mut self.members, row.members)?;
        self.member_end.push(self.members.len())?;
        push_all(&mut self.beside, row.beside)?;
        self.beside_end.push(self.beside.len())?;
        self.scale.push(row.scale)?;
        self.pace.push(row.pace)?;
        self.idle.push(0)?;
        self.key.push(key_of(row.beside))?;
        self.before.push(at(&self.last, row.choice, NONE))?;
        put(&mut self.last, row.choice, narrow(place));
        Ok(())
    }

    // Appends a row of other rows, with how long it was idle.
    pub(crate) fn push_from(&mut self, others: &Rows, place: usize) -> Result<(), NoMemory> {
        self.push(others.row(place))?;
        let last = self.idle.len().saturating_sub(1);
        put(&mut self.idle, last, at(&others.idle, place, 0));
        Ok(())
    }

    // Counts the separations in which rows are idle, those of price 0.
    pub(crate) fn count_idle(&mut self, prices: &[i64]) {
        for (idle, price) in self.idle.iter_mut().zip(prices) {
            *idle = if *price == 0 {
                idle.saturating_add(1)
            } else {
                0
            };
        }
    }

    // Whether a row has been idle for long.
    pub(crate) fn is_idle(&self, place: usize) -> bool {
        at(&self.idle, place, 0) >= MOST_IDLE
    }
}

// The part of a list that ends at the end of a place, and begins where the one before it ends.
fn part<'a>(list: &'a [u32], ends: &[usize], place: usize) -> &'a [u32] {
    let first = match place.checked_sub(1) {
        Some(before) => at(ends, before, 0),
        None => 0,
    };
    list.get(first..at(ends, place, 0)).unwrap_or(&[])
}

fn push_all(list: &mut Vec<u32>, more: &[u32]) -> Result<(), NoMemory> {
    for item in more {
        list.push(*item)?;
    }
    Ok(())
}

// A number for a set of choices, in whatever order they stand.
fn key_of(choices: &[u32]) -> u64 {
    let mut key = 0u64;
    for choice in choices {
        key = key.wrapping_add(mix(u64::from(*choice)));
    }
    key
}

// A number that is as good as drawn for each number.
fn mix(number: u64) -> u64 {
    let number = number.wrapping_add(11_400_714_819_323_198_485);
    let number = (number ^ (number >> 30)).wrapping_mul(13_787_848_793_156_543_929);
    let number = (number ^ (number >> 27)).wrapping_mul(10_723_151_780_598_845_931);
    number ^ (number >> 31)
}
