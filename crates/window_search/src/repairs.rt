// After areas were changed: poor regions among them and beside them are made rich.
use crate::net::Net;
use crate::searcher::Searcher;

// The most poor regions that are changed in one repair.
const FUEL: u32 = 200;

impl Searcher {
    // Whether all areas that the journal names, and those beside them, were brought into rich regions.
    pub(crate) fn is_repaired(&mut self, net: &Net) -> bool {
        let mut fuel = FUEL;
        for place in 0..self.state.most_changes() {
            let Some(area) = self.state.area_of_change(place) else {
                break;
            };
            match self.fuel_after(net, area, fuel) {
                None => return false,
                Some(left) => fuel = left,
            }
        }
        !self.state.has_failed()
    }

    // The fuel that is left after an area and those beside it were brought into rich regions.
    fn fuel_after(&mut self, net: &Net, area: u32, fuel: u32) -> Option<u32> {
        let mut fuel = fuel;
        self.state.spend(net.degree(area));
        for next in net.beside(area) {
            fuel = self.fuel_at(net, *next, fuel)?;
        }
        self.fuel_at(net, area, fuel)
    }

    // The fuel that is left after an area was brought into a rich region.
    fn fuel_at(&mut self, net: &Net, area: u32, fuel: u32) -> Option<u32> {
        for left in (0..=fuel).rev() {
            if self.is_rich(net, area) {
                return Some(left);
            }
            if left == 0 || self.state.has_failed() || !self.is_resolved(net, true) {
                return None;
            }
        }
        None
    }
}
