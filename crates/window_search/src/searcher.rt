// All that a search keeps.
use crate::explorer::Explorer;
use crate::lists::Areas;
use crate::marks::Marks;
use crate::net::Net;
use crate::numbers::Numbers;
use crate::state::State;
use crate::tally::{Region, Tally};
use agg_base::NoMemory;
use std::alloc::Global;

// The most areas of a region that takes single areas from its neighbours, or that is joined with a neighbour.
pub(crate) const FEW_AREAS: usize = 64;

// The most areas that the former may grow to.
pub(crate) const MANY_AREAS: usize = 4 * FEW_AREAS;

// The most areas beside an area that is moved alone.
pub(crate) const HUB: usize = 256;

// How many areas may wait for a move of their own in one descent.
pub(crate) const WAITING: usize = 8_192;

// The first number of each search.
const SEED: u32 = 7;

#[derive(Drop)]
pub(crate) struct Searcher {
    pub(crate) state: State,
    pub(crate) explorer: Explorer,
    // Marks of sets of areas.
    pub(crate) marks: Marks,
    // Marks of what a sweep has met.
    pub(crate) met: Marks,
    pub(crate) numbers: Numbers,
    // The region to be changed, and a region beside it.
    pub(crate) region: Region,
    pub(crate) partner: Region,
    // The areas of the best partner so far.
    pub(crate) chosen: Areas,
    // What a region has taken, or the window.
    pub(crate) taken: Areas,
    // The areas beside what it has taken, and what each of them costs for its weight.
    pub(crate) edge: Areas,
    pub(crate) rates: Vec<i128>,
    // Areas that wait for a move of their own, and whether an area is among them.
    pub(crate) waiting: Areas,
    pub(crate) is_waiting: Vec<bool>,
    // The borders of one area.
    pub(crate) around: Tally,
    // Whether prices are blurred.
    pub(crate) is_blurred: bool,
    // Whether a poor region may be joined with a poor neighbour.
    pub(crate) has_pairs: bool,
}

impl Searcher {
    // A search that begins at these classes.
    pub(crate) fn of(alloc: Global, net: &Net, class_of: Vec<u8>) -> Result<Searcher, NoMemory> {
        let areas = net.areas() as usize;
        let mut state = State::of(alloc, net, class_of)?;
        state.count(net);
        Ok(Searcher {
            state,
            explorer: Explorer::of(alloc, areas)?,
            marks: Marks::of(alloc, areas)?,
            met: Marks::of(alloc, areas)?,
            numbers: Numbers::of(SEED),
            region: Region::of(alloc, net)?,
            partner: Region::of(alloc, net)?,
            chosen: Areas::with_room(alloc, areas)?,
            taken: Areas::with_room(alloc, MANY_AREAS + FEW_AREAS)?,
            edge: Areas::with_room(alloc, areas)?,
            rates: vec![in alloc; 0; areas]?,
            waiting: Areas::with_room(alloc, WAITING)?,
            is_waiting: vec![in alloc; false; areas]?,
            around: Tally::of(alloc, net.classes())?,
            is_blurred: false,
            has_pairs: true,
        })
    }

    // Whether an area lies in a rich region.
    pub(crate) fn is_rich(&mut self, net: &Net, area: u32) -> bool {
        self.explorer
            .is_rich(net, &mut self.state, area, usize::MAX)
    }

    // Whether all areas beside one lie in rich regions, those of a class left out.
    pub(crate) fn are_rich_beside(&mut self, net: &Net, area: u32, class: u8) -> bool {
        for next in net.beside(area) {
            if self.state.class(*next) != class && !self.is_rich(net, *next) {
                return false;
            }
        }
        true
    }

    // A price. Where prices are blurred it grows by as many of its 128 parts as are drawn: a loss is dearer, and a gain is less.
    pub(crate) fn price(&mut self, price: i128) -> i128 {
        if !self.is_blurred {
            return price;
        }
        let part = price.wrapping_abs() / 128;
        let blur = i128::from(self.numbers.below(128));
        price.wrapping_add(part.wrapping_mul(blur))
    }
}
