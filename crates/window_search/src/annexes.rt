// A poor region takes single areas from its neighbours, those of the least price for their weight first, until it is rich.
use crate::lists::{at, put};
use crate::net::Net;
use crate::searcher::{FEW_AREAS, HUB, MANY_AREAS, Searcher};

// How finely prices for a weight are told apart.
const FINENESS: i128 = 1_024;

// The region as it grows: what it weighs, whether an area owns its class, and the stamps of its areas, of
// those that it cannot have, and of those beside it.
#[derive(Clone, Copy)]
struct Body {
    class: u8,
    weight: i128,
    is_owned: bool,
    inside: u64,
    refused: u64,
    beside: u64,
}

// An area beside the region, and the price for its weight.
#[derive(Clone, Copy)]
struct Prey {
    area: u32,
    price: i128,
}

impl Body {
    fn is_rich(&self, net: &Net) -> bool {
        self.is_owned && self.weight >= net.threshold(self.class)
    }

    // Whether an area with this stamp was not met so far.
    fn is_new(&self, stamp: u64) -> bool {
        stamp != self.inside && stamp != self.refused && stamp != self.beside
    }

    fn with(self, net: &Net, area: u32) -> Body {
        Body {
            weight: self.weight.wrapping_add(net.weight(area)),
            is_owned: self.is_owned || net.own(area) == self.class,
            ..self
        }
    }
}

// The better of the best so far and an area.
fn better(best: Option<Prey>, area: u32, price: i128) -> Option<Prey> {
    match best {
        Some(least) if least.price < price || (least.price == price && least.area <= area) => {
            best
        }
        _ => Some(Prey { area, price }),
    }
}

impl Searcher {
    // Whether the region became rich. Where it is not free, no neighbour of an area that it takes may become poor. What it took is in the
    // journal in each case.
    pub(crate) fn is_annexed(&mut self, net: &Net, is_free: bool) -> bool {
        if self.region.areas.len() > FEW_AREAS {
            return false;
        }
        let mut body = self.begin_body(net);
        for _ in 0..2 * FEW_AREAS {
            if body.is_rich(net) {
                return true;
            }
            let Some(prey) = self.best_prey(body) else {
                return false;
            };
            if self.state.is_spent() {
                return false;
            }
            if self.is_taken(net, body, prey.area, is_free) {
                body = self.with_prey(net, body, prey.area);
                if self.taken.len() > MANY_AREAS {
                    return body.is_rich(net);
                }
            } else {
                self.marks.mark(prey.area, body.refused);
            }
        }
        false
    }

    // The region as it is, with its edge.
    fn begin_body(&mut self, net: &Net) -> Body {
        let mut body = Body {
            class: self.region.class,
            weight: 0,
            is_owned: false,
            inside: self.mark_region(),
            refused: self.marks.fresh(),
            beside: self.marks.fresh(),
        };
        self.taken.clear();
        self.edge.clear();
        for place in 0..self.region.areas.len() {
            if let Some(area) = self.region.areas.get(place) {
                self.taken.push(area);
                body = body.with(net, area);
                self.add_edge(net, body, area);
            }
        }
        body
    }

    // The area of the edge with the least price for its weight, the least number at a tie.
    fn best_prey(&mut self, body: Body) -> Option<Prey> {
        let mut best = None;
        self.state.spend(self.edge.len() / 4);
        for area in self.edge.as_slice() {
            if self.marks.is_marked(*area, body.beside) {
                best = better(best, *area, at(&self.rates, *area as usize, 0));
            }
        }
        best
    }

    // Adds the areas beside one to the edge.
    fn add_edge(&mut self, net: &Net, body: Body, area: u32) {
        self.state.spend(net.degree(area));
        for next in net.beside(area) {
            if body.is_new(self.marks.stamp(*next)) && net.degree(*next) <= HUB {
                self.marks.mark(*next, body.beside);
                self.edge.push(*next);
                self.rate(net, body, *next);
            }
        }
    }

    // Prices an area for its weight.
    fn rate(&mut self, net: &Net, body: Body, area: u32) {
        let delta = self.state.delta(net, area, body.class);
        let rate = delta.wrapping_mul(FINENESS).checked_div(net.weight(area));
        put(&mut self.rates, area as usize, rate.unwrap_or(0));
    }

    // Prices the areas of the edge beside an area anew.
    fn rate_beside(&mut self, net: &Net, body: Body, area: u32) {
        for next in net.beside(area) {
            if self.marks.is_marked(*next, body.beside) {
                self.rate(net, body, *next);
            }
        }
    }

    // Whether the region could take the area. Where not, nothing is changed.
    fn is_taken(&mut self, net: &Net, body: Body, area: u32, is_free: bool) -> bool {
        let mark = self.state.changes();
        let before = self.state.cost();
        self.state.set(net, area, body.class);
        if !self.state.has_failed() && (is_free || self.are_rich_beside(net, area, body.class)) {
            return true;
        }
        self.state.undo(mark, before);
        false
    }

    // The region with an area and all that this joins with it.
    fn with_prey(&mut self, net: &Net, body: Body, area: u32) -> Body {
        let mut body = body;
        let first = self.taken.len();
        self.rate_beside(net, body, area);
        self.take(body, area);
        for place in first..MANY_AREAS {
            let Some(area) = self.taken.get(place) else {
                break;
            };
            body = body.with(net, area);
            self.take_beside(net, body, area);
            self.add_edge(net, body, area);
        }
        body
    }

    // Takes the areas of the class beside an area.
    fn take_beside(&mut self, net: &Net, body: Body, area: u32) {
        self.state.spend(net.degree(area));
        for next in net.beside(area) {
            if self.state.class(*next) == body.class && !self.marks.is_marked(*next, body.inside) {
                self.take(body, *next);
            }
        }
    }

    fn take(&mut self, body: Body, area: u32) {
        self.marks.mark(area, body.inside);
        self.taken.push(area);
    }
}
