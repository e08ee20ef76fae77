// From the own classes to a feasible state: poor regions are resolved one after the other.
use crate::net::Net;
use crate::searcher::Searcher;

// The most sweeps over all areas, and the most times in a row that the region of one area is resolved.
const SWEEPS: u32 = 40;

const TIMES: u32 = 16;

// How much work the first try may take: so many looks at each area beside another and so many more, up to the most.
const LOOKS: u64 = 400;

const MORE_LOOKS: u64 = 25_600;

const MOST_LOOKS: u64 = 100_000_000;

// How a sweep ended: no poor region was left, some were, or there was too much work.
#[derive(Clone, Copy, PartialEq, Eq)]
enum Sweep {
    Done,
    Open,
    Spent,
}

impl Searcher {
    // Makes all regions rich, as far as that works.
    pub(crate) fn grow(&mut self, net: &Net) {
        let budget = net
            .size()
            .saturating_mul(LOOKS)
            .saturating_add(MORE_LOOKS)
            .min(MOST_LOOKS);
        self.grow_within(net, budget);
    }

    // The same, with a most number of looks for the first try.
    pub(crate) fn grow_within(&mut self, net: &Net, budget: u64) {
        if self.sweeps(net, TIMES, budget) != Sweep::Done {
            self.has_pairs = false;
            let _ = self.sweeps(net, 1, u64::MAX);
            self.has_pairs = true;
        }
    }

    // Sweeps until no poor region is left.
    fn sweeps(&mut self, net: &Net, times: u32, budget: u64) -> Sweep {
        for _ in 0..SWEEPS {
            let sweep = self.sweep(net, times, budget);
            if sweep != Sweep::Open {
                return sweep;
            }
        }
        Sweep::Open
    }

    // One sweep over the areas.
    fn sweep(&mut self, net: &Net, times: u32, budget: u64) -> Sweep {
        let met = self.met.fresh();
        let mut sweep = Sweep::Done;
        for area in 0..net.areas() {
            if self.state.work() > budget {
                return Sweep::Spent;
            }
            if !self.met.is_marked(area, met) && !self.is_made_rich(net, area, times, met) {
                sweep = Sweep::Open;
            }
        }
        sweep
    }

    // Whether the region of an area could be made rich by resolving it so many times at most.
    fn is_made_rich(&mut self, net: &Net, area: u32, times: u32, met: u64) -> bool {
        for left in (0..=times).rev() {
            self.state.begin();
            let is_rich = self.is_rich(net, area);
            self.meet(met);
            if is_rich {
                return true;
            }
            if left == 0 || !self.is_resolved(net, false) {
                return false;
            }
        }
        false
    }

    // Marks what was found last as met.
    fn meet(&mut self, met: u64) {
        for area in self.explorer.found_areas() {
            self.met.mark(*area, met);
        }
    }
}
