// Marks on areas. A fresh stamp makes a set that is empty, so that no mark is ever wiped off.
use crate::lists::{at, put};
use agg_base::NoMemory;
use std::alloc::Global;

#[derive(Drop)]
pub(crate) struct Marks {
    stamps: Vec<u64>,
    last: u64,
}

impl Marks {
    pub(crate) fn of(alloc: Global, areas: usize) -> Result<Marks, NoMemory> {
        Ok(Marks {
            stamps: vec![in alloc; 0; areas]?,
            last: 0,
        })
    }

    // A stamp that no area bears.
    pub(crate) fn fresh(&mut self) -> u64 {
        self.last = self.last.saturating_add(1);
        self.last
    }

    pub(crate) fn mark(&mut self, area: u32, stamp: u64) {
        put(&mut self.stamps, area as usize, stamp);
    }

    // The stamp that the area bears.
    pub(crate) fn stamp(&self, area: u32) -> u64 {
        at(&self.stamps, area as usize, 0)
    }

    pub(crate) fn is_marked(&self, area: u32, stamp: u64) -> bool {
        self.stamp(area) == stamp
    }
}

// Which areas are known to lie in rich regions. A region stays rich until an area leaves it.
#[derive(Drop)]
pub(crate) struct Known {
    marks: Marks,
    // By class, the last stamp when an area left it: an area of the class with a later stamp lies in a rich region.
    left: Vec<u64>,
}

impl Known {
    pub(crate) fn of(alloc: Global, areas: usize, classes: u8) -> Result<Known, NoMemory> {
        Ok(Known {
            marks: Marks::of(alloc, areas)?,
            left: vec![in alloc; 0; classes as usize]?,
        })
    }

    // A stamp for a region that is looked at. Where the region turns out to be poor, its areas have to be forgotten.
    pub(crate) fn fresh(&mut self) -> u64 {
        self.marks.fresh()
    }

    pub(crate) fn mark(&mut self, area: u32, stamp: u64) {
        self.marks.mark(area, stamp);
    }

    pub(crate) fn is_marked(&self, area: u32, stamp: u64) -> bool {
        self.marks.is_marked(area, stamp)
    }

    // Whether an area of a class is known to lie in a rich region.
    pub(crate) fn is_rich(&self, area: u32, class: u8) -> bool {
        self.marks.stamp(area) > at(&self.left, class as usize, u64::MAX)
    }

    // Nothing is known of an area.
    pub(crate) fn forget(&mut self, area: u32) {
        self.marks.mark(area, 0);
    }

    // An area left a class.
    pub(crate) fn leave(&mut self, area: u32, class: u8) {
        self.forget(area);
        put(&mut self.left, class as usize, self.marks.last);
    }
}
