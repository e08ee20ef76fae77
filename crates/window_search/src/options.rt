// How a poor region is made rich, or given up, at the least price.
use crate::net::Net;
use crate::searcher::Searcher;

// What may be done with the region: it gets a class, alone or together with the chosen partner.
#[derive(Clone, Copy)]
pub(crate) struct Choice {
    pub(crate) class: u8,
    pub(crate) price: i128,
    pub(crate) has_partner: bool,
}

// Whether a price is less than that of the best choice so far.
pub(crate) fn is_better(price: i128, best: Option<Choice>) -> bool {
    match best {
        None => true,
        Some(choice) => price < choice.price,
    }
}

impl Searcher {
    // Changes the poor region that was found last: all of it gets another class, or it gets one together with a poor neighbour, or it takes
    // single areas from its neighbours. False where nothing of that can be done.
    pub(crate) fn is_resolved(&mut self, net: &Net, may_annex: bool) -> bool {
        let weight = self.explorer.weight();
        self.explorer.exchange(&mut self.region.areas);
        self.region.count(net, &mut self.state);
        let best = self.best_alone(net, weight);
        let best = if self.has_pairs {
            self.best_pair(net, best)
        } else {
            best
        };
        if may_annex && self.is_annexed_for_less(net, best) {
            return !self.state.has_failed();
        }
        match best {
            None => false,
            Some(choice) => self.is_chosen(net, choice),
        }
    }

    // Does what was chosen.
    fn is_chosen(&mut self, net: &Net, choice: Choice) -> bool {
        self.state
            .set_all(net, self.region.areas.as_slice(), choice.class);
        if choice.has_partner {
            self.state
                .set_all(net, self.chosen.as_slice(), choice.class);
        }
        !self.state.has_failed()
    }

    // The best other class for the region, alone.
    fn best_alone(&mut self, net: &Net, weight: i128) -> Option<Choice> {
        let mut best = None;
        for class in 0..net.classes() {
            if self.is_open(net, class, weight) {
                let price = self.price_alone(net, class);
                if is_better(price, best) {
                    let has_partner = false;
                    best = Some(Choice {
                        class,
                        price,
                        has_partner,
                    });
                }
            }
        }
        let choice = best?;
        let price = self.price(choice.price);
        Some(Choice { price, ..choice })
    }

    // Whether the region may get the class: a neighbour has it, or an area owns it and the region is heavy enough.
    fn is_open(&self, net: &Net, class: u8, weight: i128) -> bool {
        let tally = &self.region.tally;
        class != self.region.class
            && (tally.has_beside(class)
                || (tally.weight(class) > 0 && net.threshold(class) <= weight))
    }

    // What it costs to give the region a class.
    pub(crate) fn price_alone(&self, net: &Net, class: u8) -> i128 {
        let shorter = net.border(self.region.tally.border(class));
        self.region.farther(net, class).wrapping_sub(shorter)
    }

    // Whether it was cheaper than the best choice to take single areas from the neighbours. Then that is done, else nothing is.
    fn is_annexed_for_less(&mut self, net: &Net, best: Option<Choice>) -> bool {
        let mark = self.state.changes();
        let before = self.state.cost();
        if self.is_annexed(net, false) {
            let price = self.state.cost().wrapping_sub(before);
            if is_better(self.price(price), best) {
                return true;
            }
        }
        self.state.undo(mark, before);
        false
    }
}
