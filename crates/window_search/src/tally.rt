// What the areas of a region weigh by their own classes, and how long its borders are by the classes outside.
use crate::lists::{Areas, at, put};
use crate::net::Net;
use crate::state::State;
use agg_base::NoMemory;
use std::alloc::Global;

#[derive(Drop)]
pub(crate) struct Tally {
    // By own class, the weight of the areas.
    weight: Vec<i128>,
    // The own classes of the areas, and how many there are.
    owned: Vec<u8>,
    owners: usize,
    // By class, the length of the border to areas of that class outside.
    border: Vec<i128>,
    // By class, whether such an area is beside.
    has_beside: Vec<bool>,
}

impl Tally {
    pub(crate) fn of(alloc: Global, classes: u8) -> Result<Tally, NoMemory> {
        let classes = classes as usize;
        Ok(Tally {
            weight: vec![in alloc; 0; classes]?,
            owned: vec![in alloc; 0; classes]?,
            owners: 0,
            border: vec![in alloc; 0; classes]?,
            has_beside: vec![in alloc; false; classes]?,
        })
    }

    pub(crate) fn weight(&self, class: u8) -> i128 {
        at(&self.weight, class as usize, 0)
    }

    pub(crate) fn border(&self, class: u8) -> i128 {
        at(&self.border, class as usize, 0)
    }

    pub(crate) fn has_beside(&self, class: u8) -> bool {
        at(&self.has_beside, class as usize, false)
    }

    // Sets whether a class counts as one beside.
    pub(crate) fn allow(&mut self, class: u8, is_beside: bool) {
        put(&mut self.has_beside, class as usize, is_beside);
    }

    pub(crate) fn clear(&mut self, net: &Net) {
        self.owners = 0;
        for class in 0..net.classes() {
            put(&mut self.weight, class as usize, 0);
            put(&mut self.border, class as usize, 0);
            put(&mut self.has_beside, class as usize, false);
        }
    }

    // Tallies a whole region of a class.
    pub(crate) fn count(&mut self, net: &Net, state: &mut State, areas: &[u32], class: u8) {
        self.clear(net);
        state.spend(net.classes() as usize);
        for area in areas {
            self.add(net, *area);
            self.add_borders(net, state, *area);
        }
        // What lies beside an area of the region and has its class lies inside.
        self.allow(class, false);
        put(&mut self.border, class as usize, 0);
    }

    // Adds the weight of an area.
    fn add(&mut self, net: &Net, area: u32) {
        let own = net.own(area);
        let before = self.weight(own);
        if before == 0 {
            put(&mut self.owned, self.owners, own);
            self.owners = self.owners.saturating_add(1);
        }
        let weight = before.wrapping_add(net.weight(area));
        put(&mut self.weight, own as usize, weight);
    }

    // Adds the borders of an area.
    pub(crate) fn add_borders(&mut self, net: &Net, state: &mut State, area: u32) {
        state.spend(net.degree(area));
        for step in net.steps(area) {
            let class = state.class(step.area);
            let border = self.border(class).wrapping_add(step.length);
            put(&mut self.border, class as usize, border);
            self.allow(class, true);
        }
    }

    // What it costs to give all areas a class.
    pub(crate) fn recolouring(&self, net: &Net, class: u8) -> i128 {
        let mut sum = 0i128;
        for own in self.owned.get(..self.owners).unwrap_or(&[]) {
            let distance = net.distance(*own, class);
            sum = sum.wrapping_add(self.weight(*own).wrapping_mul(distance));
        }
        sum
    }
}

// A region that is to be changed.
#[derive(Drop)]
pub(crate) struct Region {
    pub(crate) areas: Areas,
    pub(crate) tally: Tally,
    pub(crate) class: u8,
    // What it costs to give its areas its class.
    pub(crate) recolouring: i128,
}

impl Region {
    pub(crate) fn of(alloc: Global, net: &Net) -> Result<Region, NoMemory> {
        Ok(Region {
            areas: Areas::with_room(alloc, net.areas() as usize)?,
            tally: Tally::of(alloc, net.classes())?,
            class: 0,
            recolouring: 0,
        })
    }

    // Reads the class of the areas.
    pub(crate) fn read_class(&mut self, state: &State) {
        if let Some(area) = self.areas.get(0) {
            self.class = state.class(area);
        }
    }

    // Tallies the areas, which are a whole region.
    pub(crate) fn count(&mut self, net: &Net, state: &mut State) {
        self.read_class(state);
        self.tally
            .count(net, state, self.areas.as_slice(), self.class);
        self.recolouring = self.tally.recolouring(net, self.class);
    }

    // How much more its areas cost in a class.
    pub(crate) fn farther(&self, net: &Net, class: u8) -> i128 {
        self.tally
            .recolouring(net, class)
            .wrapping_sub(self.recolouring)
    }
}
