// Moves of single areas that make the state cheaper.
use crate::lists::{at, put};
use crate::net::Net;
use crate::searcher::{HUB, Searcher, WAITING};

impl Searcher {
    // Moves the areas that the journal names and those beside them, and again those beside the moved ones.
    pub(crate) fn descend(&mut self, net: &Net) {
        self.waiting.clear();
        for place in 0..self.state.changes() {
            if let Some(area) = self.state.area_of_change(place) {
                self.await_around(net, area);
            }
        }
        for place in 0..WAITING {
            let Some(area) = self.waiting.get(place) else {
                break;
            };
            put(&mut self.is_waiting, area as usize, false);
            if !self.state.has_failed() && !self.state.is_spent() && self.is_moved(net, area) {
                self.await_around(net, area);
            }
        }
    }

    // Lets an area and those beside it wait for their turn.
    fn await_around(&mut self, net: &Net, area: u32) {
        self.await_turn(area);
        if net.degree(area) <= HUB {
            for next in net.beside(area) {
                self.await_turn(*next);
            }
        }
    }

    fn await_turn(&mut self, area: u32) {
        if self.waiting.len() < WAITING && !at(&self.is_waiting, area as usize, false) {
            put(&mut self.is_waiting, area as usize, true);
            self.waiting.push(area);
        }
    }

    // Whether the area was moved to another class, the cheapest one that leaves all regions rich.
    fn is_moved(&mut self, net: &Net, area: u32) -> bool {
        if net.degree(area) > HUB {
            return false;
        }
        let old = self.state.class(area);
        self.tally_around(net, area, old);
        for _ in 0..net.classes() {
            let Some(class) = self.cheapest_class(net, area, old) else {
                return false;
            };
            if self.is_moved_to(net, area, class) {
                return true;
            }
            self.around.allow(class, false);
        }
        false
    }

    // Tallies the borders of an area by class. Its own class counts as one beside where the area alone is heavy enough.
    fn tally_around(&mut self, net: &Net, area: u32, old: u8) {
        let own = net.own(area);
        self.around.clear(net);
        self.around.add_borders(net, &mut self.state, area);
        if net.weight(area) >= net.threshold(own) {
            self.around.allow(own, true);
        }
        self.around.allow(old, false);
    }

    // The class that costs least, where one costs less than the old one.
    fn cheapest_class(&self, net: &Net, area: u32, old: u8) -> Option<u8> {
        let mut best = None;
        let mut least = 0i128;
        for class in 0..net.classes() {
            if self.around.has_beside(class) {
                let price = self.move_price(net, area, old, class);
                if price < least {
                    least = price;
                    best = Some(class);
                }
            }
        }
        best
    }

    // What a move costs.
    fn move_price(&self, net: &Net, area: u32, old: u8, class: u8) -> i128 {
        let own = net.own(area);
        let farther = net
            .distance(own, class)
            .wrapping_sub(net.distance(own, old));
        let longer = self
            .around
            .border(old)
            .wrapping_sub(self.around.border(class));
        net.weight(area)
            .wrapping_mul(farther)
            .wrapping_add(net.border(longer))
    }

    // Whether a move leaves the region of the area and those beside it rich. Where not, nothing is changed.
    fn is_moved_to(&mut self, net: &Net, area: u32, class: u8) -> bool {
        let mark = self.state.changes();
        let before = self.state.cost();
        self.state.set(net, area, class);
        if !self.state.has_failed()
            && self.is_rich(net, area)
            && self.are_rich_beside(net, area, class)
        {
            return true;
        }
        self.state.undo(mark, before);
        false
    }
}
