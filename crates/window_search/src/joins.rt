// Whole regions that are joined with a neighbour, where that costs less.
use crate::net::Net;
use crate::searcher::Searcher;

// The most rounds of joins.
const ROUNDS: u32 = 20;

impl Searcher {
    // Joins regions as long as that costs less.
    pub(crate) fn join(&mut self, net: &Net) {
        for _ in 0..ROUNDS {
            if !self.are_joined(net) {
                break;
            }
        }
        self.state.count(net);
    }

    // Whether some region got another class. Each one is looked at once.
    fn are_joined(&mut self, net: &Net) -> bool {
        let met = self.met.fresh();
        let mut is_changed = false;
        for area in 0..net.areas() {
            if !self.met.is_marked(area, met) && self.is_joined(net, area, met) {
                is_changed = true;
            }
        }
        is_changed
    }

    // Whether the region of an area got another class.
    fn is_joined(&mut self, net: &Net, area: u32, met: u64) -> bool {
        self.explorer.explore(net, &mut self.state, area);
        self.explorer.exchange(&mut self.region.areas);
        self.region.count(net, &mut self.state);
        let class = self.best_join(net);
        self.repaint(class.unwrap_or(self.region.class), met);
        class.is_some()
    }

    // The class of the neighbour that makes the region cheapest, where one makes it cheaper.
    fn best_join(&self, net: &Net) -> Option<u8> {
        let mut best = None;
        let mut least = 0i128;
        for class in 0..net.classes() {
            if self.region.tally.has_beside(class) {
                let price = self.price_alone(net, class);
                if price < least {
                    least = price;
                    best = Some(class);
                }
            }
        }
        best
    }

    // Gives the region a class, and marks it as met.
    fn repaint(&mut self, class: u8, met: u64) {
        for area in self.region.areas.as_slice() {
            self.met.mark(*area, met);
            self.state.paint(*area, class);
        }
    }
}
