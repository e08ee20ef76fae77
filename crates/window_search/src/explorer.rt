// Regions, as far as they have to be looked at: a region is rich where one of its areas owns its class and its weight is at least the
// threshold, else it is poor.
use crate::lists::Areas;
use crate::net::Net;
use crate::state::State;
use agg_base::NoMemory;
use std::alloc::Global;
use std::mem::swap;

#[derive(Drop)]
pub(crate) struct Explorer {
    // The areas of the region that were found so far, which bear the stamp.
    found: Areas,
    stamp: u64,
    class: u8,
    threshold: i128,
    weight: i128,
    is_owned: bool,
}

impl Explorer {
    pub(crate) fn of(alloc: Global, areas: usize) -> Result<Explorer, NoMemory> {
        Ok(Explorer {
            found: Areas::with_room(alloc, areas)?,
            stamp: 0,
            class: 0,
            threshold: 0,
            weight: 0,
            is_owned: false,
        })
    }

    // The areas that were found last. Where the region is poor they are all of it.
    pub(crate) fn found_areas(&self) -> &[u32] {
        self.found.as_slice()
    }

    // The weight of what was found last.
    pub(crate) fn weight(&self) -> i128 {
        self.weight
    }

    // Changes the list of what was found last for another list.
    pub(crate) fn exchange(&mut self, areas: &mut Areas) {
        swap(&mut self.found, areas);
    }

    // Whether an area lies in a rich region, or in one of more than so many areas. It stops as soon as that is known.
    pub(crate) fn is_rich(&mut self, net: &Net, state: &mut State, area: u32, most: usize) -> bool {
        if state.known.is_rich(area, state.class(area)) {
            self.found.clear();
            self.found.push(area);
            return true;
        }
        self.begin(net, state, area);
        let is_rich = self.is_enough(most) || self.is_found_rich(net, state, most);
        if !is_rich || self.found.len() > most {
            self.forget(state);
        }
        if !is_rich && state.is_spent() {
            state.fail();
        }
        is_rich
    }

    // Finds all of the region of an area.
    pub(crate) fn explore(&mut self, net: &Net, state: &mut State, area: u32) {
        self.begin(net, state, area);
        for place in 0..net.areas() {
            let Some(inside) = self.found.get(place as usize) else {
                break;
            };
            self.enter(net, state, inside);
        }
        self.forget(state);
    }

    // Begins a region at an area.
    fn begin(&mut self, net: &Net, state: &mut State, area: u32) {
        self.stamp = state.known.fresh();
        self.class = state.class(area);
        self.threshold = net.threshold(self.class);
        self.weight = 0;
        self.is_owned = false;
        self.found.clear();
        self.find(net, state, area);
    }

    // Takes an area to those that were found.
    fn find(&mut self, net: &Net, state: &mut State, area: u32) {
        state.known.mark(area, self.stamp);
        self.found.push(area);
        self.weight = self.weight.wrapping_add(net.weight(area));
        self.is_owned = self.is_owned || net.own(area) == self.class;
    }

    // Whether what was found is enough for a rich region, or has more than so many areas.
    fn is_enough(&self, most: usize) -> bool {
        (self.is_owned && self.weight >= self.threshold) || self.found.len() > most
    }

    // Whether the region turns out to be rich, area by area.
    fn is_found_rich(&mut self, net: &Net, state: &mut State, most: usize) -> bool {
        for place in 0..net.areas() {
            let Some(inside) = self.found.get(place as usize) else {
                return false;
            };
            if self.is_beside_rich(net, state, inside, most) {
                return true;
            }
        }
        false
    }

    // Finds the areas beside one. True as soon as the region is known to be rich.
    fn is_beside_rich(&mut self, net: &Net, state: &mut State, area: u32, most: usize) -> bool {
        for next in net.beside(area) {
            state.spend(1);
            if state.class(*next) != self.class || state.known.is_marked(*next, self.stamp) {
                continue;
            }
            if state.known.is_rich(*next, self.class) {
                return true;
            }
            self.find(net, state, *next);
            if self.is_enough(most) {
                return true;
            }
        }
        false
    }

    // Finds the areas of the region beside one.
    fn enter(&mut self, net: &Net, state: &mut State, area: u32) {
        state.spend(net.degree(area));
        for next in net.beside(area) {
            if state.class(*next) == self.class && !state.known.is_marked(*next, self.stamp) {
                self.find(net, state, *next);
            }
        }
    }

    // Forgets that what was found bears the stamp.
    fn forget(&self, state: &mut State) {
        for area in self.found.as_slice() {
            state.known.forget(*area);
        }
    }
}
