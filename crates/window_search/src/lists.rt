// Lists of a fixed length, read and written at any place: beyond the end there is a default, and nothing is written.
use agg_base::NoMemory;
use std::alloc::Global;

// What stands at a place, or the default beyond the end.
pub(crate) fn at<T: Copy>(list: &[T], place: usize, default: T) -> T {
    if place < list.len() {
        list[place]
    } else {
        default
    }
}

// Writes at a place, or nothing beyond the end.
pub(crate) fn put<T: Copy>(list: &mut [T], place: usize, item: T) {
    if place < list.len() {
        list[place] = item;
    }
}

// A list of areas in room that is made once. What finds no room is left out.
#[derive(Drop)]
pub(crate) struct Areas {
    room: Vec<u32>,
    count: usize,
}

impl Areas {
    pub(crate) fn with_room(alloc: Global, room: usize) -> Result<Areas, NoMemory> {
        Ok(Areas {
            room: vec![in alloc; 0; room]?,
            count: 0,
        })
    }

    pub(crate) fn clear(&mut self) {
        self.count = 0;
    }

    pub(crate) fn len(&self) -> usize {
        self.count
    }

    pub(crate) fn push(&mut self, area: u32) {
        if self.count < self.room.len() {
            self.room[self.count] = area;
            self.count = self.count.saturating_add(1);
        }
    }

    pub(crate) fn get(&self, place: usize) -> Option<u32> {
        if place < self.count {
            self.room.get(place).copied()
        } else {
            None
        }
    }

    pub(crate) fn as_slice(&self) -> &[u32] {
        self.room.get(..self.count).unwrap_or(&[])
    }
}
