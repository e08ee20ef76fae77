// The class of each area and what that costs, with a journal of what was changed.
use crate::lists::{at, put};
use crate::marks::Known;
use crate::net::Net;
use agg_base::NoMemory;
use std::alloc::Global;

// How many more changes than areas the journal takes.
const MORE_CHANGES: usize = 8_192;

// An area, and its class before it was changed.
#[derive(Clone, Copy)]
struct Change {
    area: u32,
    class: u8,
}

#[derive(Drop)]
pub(crate) struct State {
    class_of: Vec<u8>,
    cost: i128,
    journal: Vec<Change>,
    changes: usize,
    pub(crate) known: Known,
    has_failed: bool,
    // How many areas beside others were looked at, and how many may be.
    work: u64,
    limit: u64,
}

impl State {
    // These classes, at a cost that is not counted yet.
    pub(crate) fn of(alloc: Global, net: &Net, class_of: Vec<u8>) -> Result<State, NoMemory> {
        let none = Change { area: 0, class: 0 };
        let room = class_of.len().saturating_add(MORE_CHANGES);
        Ok(State {
            journal: vec![in alloc; none; room]?,
            class_of,
            cost: 0,
            changes: 0,
            known: Known::of(alloc, net.areas() as usize, net.classes())?,
            has_failed: false,
            work: 0,
            limit: u64::MAX,
        })
    }

    pub(crate) fn class(&self, area: u32) -> u8 {
        at(&self.class_of, area as usize, 0)
    }

    pub(crate) fn cost(&self) -> i128 {
        self.cost
    }

    pub(crate) fn has_failed(&self) -> bool {
        self.has_failed
    }

    pub(crate) fn fail(&mut self) {
        self.has_failed = true;
    }

    pub(crate) fn work(&self) -> u64 {
        self.work
    }

    pub(crate) fn spend(&mut self, looks: usize) {
        self.work = self.work.saturating_add(looks as u64);
    }

    // Sets how much more work may be done.
    pub(crate) fn allow(&mut self, looks: u64) {
        self.limit = self.work.saturating_add(looks);
    }

    pub(crate) fn is_spent(&self) -> bool {
        self.work > self.limit
    }

    // Begins a journal.
    pub(crate) fn begin(&mut self) {
        self.changes = 0;
        self.has_failed = false;
    }

    // How many changes the journal has.
    pub(crate) fn changes(&self) -> usize {
        self.changes
    }

    // How many changes it may have.
    pub(crate) fn most_changes(&self) -> usize {
        self.journal.len()
    }

    // The area of a change.
    pub(crate) fn area_of_change(&self, place: usize) -> Option<u32> {
        if place < self.changes && place < self.journal.len() {
            Some(self.journal[place].area)
        } else {
            None
        }
    }

    // How much more it costs to give an area a class in place of its own.
    pub(crate) fn delta(&mut self, net: &Net, area: u32, class: u8) -> i128 {
        let old = self.class(area);
        let own = net.own(area);
        self.spend(net.degree(area));
        let farther = net
            .distance(own, class)
            .wrapping_sub(net.distance(own, old));
        let longer = self.longer_border(net, area, old, class);
        net.weight(area)
            .wrapping_mul(farther)
            .wrapping_add(net.border(longer))
    }

    // How much more border there is where an area gets a class in place of the old one.
    fn longer_border(&self, net: &Net, area: u32, old: u8, class: u8) -> i128 {
        let mut longer = 0i128;
        for step in net.steps(area) {
            let beside = self.class(step.area);
            if beside == old {
                longer = longer.wrapping_add(step.length);
            } else if beside == class {
                longer = longer.wrapping_sub(step.length);
            }
        }
        longer
    }

    // Gives an area a class. Where the journal has no room it fails.
    pub(crate) fn set(&mut self, net: &Net, area: u32, class: u8) {
        let old = self.class(area);
        if old == class {
            return;
        }
        if self.changes >= self.journal.len() {
            self.has_failed = true;
            return;
        }
        let delta = self.delta(net, area, class);
        self.cost = self.cost.wrapping_add(delta);
        put(&mut self.journal, self.changes, Change { area, class: old });
        self.changes = self.changes.saturating_add(1);
        self.paint(area, class);
    }

    // Gives all these areas a class, until it fails.
    pub(crate) fn set_all(&mut self, net: &Net, areas: &[u32], class: u8) {
        for area in areas {
            if self.has_failed {
                return;
            }
            self.set(net, *area, class);
        }
    }

    // Writes a class; no cost is counted and no change is kept.
    pub(crate) fn paint(&mut self, area: u32, class: u8) {
        let old = self.class(area);
        self.known.leave(area, old);
        put(&mut self.class_of, area as usize, class);
    }

    // Takes back the changes from a place of the journal on. The cost is what it was there.
    pub(crate) fn undo(&mut self, mark: usize, cost: i128) {
        for place in (mark..self.changes).rev() {
            let change = at(&self.journal, place, Change { area: 0, class: 0 });
            self.paint(change.area, change.class);
        }
        self.changes = self.changes.min(mark);
        self.cost = cost;
    }

    // Counts the cost anew.
    pub(crate) fn count(&mut self, net: &Net) {
        let mut cost = 0i128;
        for area in 0..net.areas() {
            cost = cost.wrapping_add(cost_of(net, &self.class_of, area));
        }
        self.cost = cost;
    }

    // The classes.
    pub(crate) fn classes(&self) -> &[u8] {
        &self.class_of
    }
}

// What an area adds to the cost: its recolouring, and the borders to greater areas.
pub(crate) fn cost_of(net: &Net, classes: &[u8], area: u32) -> i128 {
    let class = at(classes, area as usize, 0);
    let distance = net.distance(net.own(area), class);
    let mut length = 0i128;
    for step in net.steps(area) {
        if step.area > area && at(classes, step.area as usize, 0) != class {
            length = length.wrapping_add(step.length);
        }
    }
    net.weight(area)
        .wrapping_mul(distance)
        .wrapping_add(net.border(length))
}
