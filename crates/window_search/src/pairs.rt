// A poor region together with a poor neighbour.
use crate::net::Net;
use crate::options::{Choice, is_better};
use crate::searcher::{FEW_AREAS, Searcher};
use std::mem::swap;

// The most areas beside a region that are looked at for a partner.
const LOOKS: u32 = 32;

// The look for a partner: the best choice so far, how many areas were looked at, and the stamps of the region and of what was seen.
#[derive(Clone, Copy)]
struct Hunt {
    best: Option<Choice>,
    looks: u32,
    inside: u64,
    seen: u64,
}

impl Searcher {
    // The best of the choice so far and those with a poor neighbour.
    pub(crate) fn best_pair(&mut self, net: &Net, best: Option<Choice>) -> Option<Choice> {
        let mut hunt = Hunt {
            best,
            looks: 0,
            inside: self.mark_region(),
            seen: self.marks.fresh(),
        };
        for place in 0..self.region.areas.len() {
            let Some(area) = self.region.areas.get(place) else {
                break;
            };
            hunt = self.with_pairs_of(net, area, hunt);
            if hunt.looks >= LOOKS {
                break;
            }
        }
        hunt.best
    }

    // Marks the areas of the region by a fresh stamp.
    pub(crate) fn mark_region(&mut self) -> u64 {
        let stamp = self.marks.fresh();
        for area in self.region.areas.as_slice() {
            self.marks.mark(*area, stamp);
        }
        stamp
    }

    // With the choices that the areas beside one give.
    fn with_pairs_of(&mut self, net: &Net, area: u32, hunt: Hunt) -> Hunt {
        let mut hunt = hunt;
        for next in net.beside(area) {
            if hunt.looks >= LOOKS {
                return hunt;
            }
            let stamp = self.marks.stamp(*next);
            if stamp != hunt.inside && stamp != hunt.seen {
                hunt.looks = hunt.looks.saturating_add(1);
                hunt = self.with_pair(net, *next, hunt);
            }
        }
        hunt
    }

    // With the choices that the region of an area gives, where it is small and poor.
    fn with_pair(&mut self, net: &Net, area: u32, hunt: Hunt) -> Hunt {
        if self.explorer.is_rich(net, &mut self.state, area, FEW_AREAS) {
            return hunt;
        }
        self.explorer.exchange(&mut self.partner.areas);
        self.partner.count(net, &mut self.state);
        let between = self.border_between(net, hunt);
        let (best, is_changed) = self.best_class_together(net, hunt.best, between);
        if is_changed {
            swap(&mut self.partner.areas, &mut self.chosen);
        }
        Hunt { best, ..hunt }
    }

    // The length of the border between the region and its partner. The partner is marked as seen.
    fn border_between(&mut self, net: &Net, hunt: Hunt) -> i128 {
        let mut length = 0i128;
        for area in self.partner.areas.as_slice() {
            self.marks.mark(*area, hunt.seen);
            self.state.spend(net.degree(*area));
            for step in net.steps(*area) {
                if self.marks.is_marked(step.area, hunt.inside) {
                    length = length.wrapping_add(step.length);
                }
            }
        }
        length
    }

    // The best of the choice so far and those of a class for both regions, and whether it is one of the latter.
    fn best_class_together(
        &mut self,
        net: &Net,
        best: Option<Choice>,
        between: i128,
    ) -> (Option<Choice>, bool) {
        let mut best = best;
        let mut is_changed = false;
        for class in 0..net.classes() {
            if self.is_open_together(class) {
                let price = self.price_together(net, class, between);
                if is_better(price, best) {
                    let has_partner = true;
                    best = Some(Choice {
                        class,
                        price,
                        has_partner,
                    });
                    is_changed = true;
                }
            }
        }
        (best, is_changed)
    }

    // Whether both regions may get the class: one of their areas owns it, and the partner has another one.
    fn is_open_together(&self, class: u8) -> bool {
        class != self.partner.class
            && (self.region.tally.weight(class) > 0 || self.partner.tally.weight(class) > 0)
    }

    // What it costs to give both regions a class.
    fn price_together(&mut self, net: &Net, class: u8, between: i128) -> i128 {
        let mut shorter = self.partner.tally.border(class);
        if class != self.region.class {
            let outside = self.region.tally.border(class);
            shorter = shorter.wrapping_add(between).wrapping_add(outside);
        }
        let farther = self
            .region
            .farther(net, class)
            .wrapping_add(self.partner.farther(net, class));
        self.price(farther.wrapping_sub(net.border(shorter)))
    }
}
