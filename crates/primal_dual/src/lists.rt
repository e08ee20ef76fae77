// Lists of a fixed length, read and written at any place: beyond the end there is a default, and nothing is written.
use agg_base::NoMemory;
use std::alloc::Global;

// What stands at a place, or the default beyond the end.
pub(crate) fn at<T: Copy>(list: &[T], place: usize, default: T) -> T {
    if place < list.len() {
        list[place]
    } else {
        default
    }
}

// Writes at a place, or nothing beyond the end.
pub(crate) fn put<T: Copy>(list: &mut [T], place: usize, item: T) {
    if place < list.len() {
        list[place] = item;
    }
}

// Adds to the number at a place.
pub(crate) fn raise(list: &mut [i64], place: usize, more: i64) {
    if place < list.len() {
        list[place] = list[place].wrapping_add(more);
    }
}

// The number of an area, a choice or a row as it is kept. There are fewer than 2^32 of each.
pub(crate) fn narrow(number: usize) -> u32 {
    u32::try_from(number).unwrap_or(u32::MAX)
}

// A list of areas in room that is made once. What finds no room is left out.
#[derive(Drop)]
pub(crate) struct Areas {
    room: Vec<u32>,
    count: usize,
}

impl Areas {
    pub(crate) fn with_room(alloc: Global, room: usize) -> Result<Areas, NoMemory> {
        Ok(Areas {
            room: vec![in alloc; 0; room]?,
            count: 0,
        })
    }

    pub(crate) fn clear(&mut self) {
        self.count = 0;
    }

    pub(crate) fn len(&self) -> usize {
        self.count
    }

    pub(crate) fn push(&mut self, area: u32) {
        if self.count < self.room.len() {
            self.room[self.count] = area;
            self.count = self.count.saturating_add(1);
        }
    }

    pub(crate) fn area(&self, place: usize) -> usize {
        at(&self.room, place, 0) as usize
    }

    // Writes at a place.
    pub(crate) fn put(&mut self, place: usize, area: usize) {
        put(&mut self.room, place, narrow(area));
    }

    // Drops all behind so many.
    pub(crate) fn cut(&mut self, count: usize) {
        self.count = self.count.min(count);
    }

    pub(crate) fn as_slice(&self) -> &[u32] {
        self.room.get(..self.count).unwrap_or(&[])
    }
}

// Marks on areas. A fresh stamp makes a set that is empty, so that no mark is ever wiped off.
#[derive(Drop)]
pub(crate) struct Marks {
    stamps: Vec<u64>,
    last: u64,
}

impl Marks {
    pub(crate) fn of(alloc: Global, areas: usize) -> Result<Marks, NoMemory> {
        Ok(Marks {
            stamps: vec![in alloc; 0; areas]?,
            last: 0,
        })
    }

    // Takes all marks off.
    pub(crate) fn clear(&mut self) {
        self.last = self.last.saturating_add(1);
    }

    pub(crate) fn mark(&mut self, area: usize) {
        put(&mut self.stamps, area, self.last);
    }

    pub(crate) fn has_area(&self, area: usize) -> bool {
        at(&self.stamps, area, 0) == self.last
    }
}
