// Sets that grow from an area: what is beside them and what they weigh.
use crate::lists::{Areas, Marks, at, narrow};
use crate::net::Net;
use agg_base::NoMemory;
use std::alloc::Global;

// At how many areas one growth looks at most.
const MOST_LOOKS: u64 = 20_000;

// An area with more areas beside it is taken last where what is behind it counts.
const MANY_BESIDE: usize = 256;

// Which area a set takes next.
#[derive(Clone, Copy, PartialEq, Eq)]
pub(crate) enum Way {
    // The one beside it of the greatest fraction.
    Greatest,
    // The one that leaves the least sum of fractions beside the set.
    LeastRest,
}

impl Way {
    // The most areas of a set.
    fn most(self) -> usize {
        match self {
            Way::Greatest => 400,
            Way::LeastRest => 60,
        }
    }
}

// What a set is grown for: a kind, the least gap of a row that counts, and the fractions.
#[derive(Clone, Copy)]
pub(crate) struct Wish<'a> {
    pub(crate) kind: usize,
    pub(crate) delta: i64,
    pub(crate) fractions: &'a [i64],
}

#[derive(Drop)]
pub(crate) struct Growth {
    set: Areas,
    // The areas beside the set that it may take, and others that it has taken since.
    rim: Areas,
    is_in: Marks,
    is_met: Marks,
    // The choices beside the set.
    choices: Areas,
    weight: i128,
    has_own: bool,
    // The sum of the fractions beside the set, and of those that it can never take.
    sum: i64,
    blocked: i64,
    // At how many areas beside the set it may look in this growth, and in all until it gets more.
    looks: u64,
    budget: u64,
}

impl Growth {
    pub(crate) fn of(alloc: Global, areas: usize) -> Result<Growth, NoMemory> {
        Ok(Growth {
            set: Areas::with_room(alloc, areas)?,
            rim: Areas::with_room(alloc, areas)?,
            is_in: Marks::of(alloc, areas)?,
            is_met: Marks::of(alloc, areas)?,
            choices: Areas::with_room(alloc, areas)?,
            weight: 0,
            has_own: false,
            sum: 0,
            blocked: 0,
            looks: 0,
            budget: 0,
        })
    }

    // Sets how many looks all growths may take until this is called again.
    pub(crate) fn allow(&mut self, budget: u64) {
        self.budget = budget;
    }

    // Counts looks, and says whether more are left.
    fn has_looks(&mut self, looks: usize) -> bool {
        let looks = looks as u64;
        self.looks = self.looks.saturating_sub(looks);
        self.budget = self.budget.saturating_sub(looks);
        self.looks > 0 && self.budget > 0
    }

    // The areas of the set.
    pub(crate) fn members(&self) -> &[u32] {
        self.set.as_slice()
    }

    // The choices beside the set.
    pub(crate) fn beside(&self) -> &[u32] {
        self.choices.as_slice()
    }

    // The set of one area.
    pub(crate) fn begin(&mut self, net: &Net, area: usize) {
        self.clear();
        self.take(net, area);
    }

    fn clear(&mut self) {
        self.set.clear();
        self.rim.clear();
        self.is_in.clear();
        self.is_met.clear();
    }

    // The set takes an area, and what is beside the area comes to the rim.
    fn take(&mut self, net: &Net, area: usize) {
        self.set.push(narrow(area));
        self.is_in.mark(area);
        for next in net.beside(area) {
            self.meet(*next);
        }
    }

    fn meet(&mut self, area: u32) {
        if !self.is_in.has_area(area as usize) && !self.is_met.has_area(area as usize) {
            self.is_met.mark(area as usize);
            self.rim.push(area);
        }
    }

    // The choices of a kind beside the set, from the whole rim.
    pub(crate) fn turn_to(&mut self, net: &Net, kind: usize) {
        self.choices.clear();
        for area in self.rim.as_slice() {
            if !self.is_in.has_area(*area as usize) {
                let choice = net.choice(*area as usize, kind);
                self.choices.push(narrow(choice));
            }
        }
    }

    // Whether some set round the area breaks its row by more than the wish's delta. Then the set is the first one that breaks it most.
    pub(crate) fn is_found(&mut self, net: &Net, area: usize, wish: Wish<'_>, way: Way) -> bool {
        let len = self.grow(net, area, wish, way);
        if len == 0 {
            return false;
        }
        self.again(net, len);
        true
    }

    // The set is its first members alone again.
    fn again(&mut self, net: &Net, len: usize) {
        self.set.cut(len);
        self.rim.clear();
        self.is_in.clear();
        self.is_met.clear();
        for place in 0..self.set.len() {
            self.is_in.mark(self.set.area(place));
        }
        for place in 0..self.set.len() {
            for next in net.beside(self.set.area(place)) {
                self.meet(*next);
            }
        }
    }

    // Grows a set, and says how many of its first members break the row most, or 0.
    fn grow(&mut self, net: &Net, area: usize, wish: Wish<'_>, way: Way) -> usize {
        self.start(net, area, wish);
        let fraction = wish.at(net, area);
        let mut best = wish.delta;
        let mut len = 0;
        for _ in 0..way.most() {
            let gap = fraction.wrapping_sub(self.sum);
            if gap > best {
                best = gap;
                len = self.set.len();
            }
            if self.sum <= wish.delta / 2 || !self.is_grown(net, wish, way, fraction) {
                break;
            }
        }
        len
    }

    // The set of one area, with its weight and the sum beside it.
    fn start(&mut self, net: &Net, area: usize, wish: Wish<'_>) {
        self.clear();
        self.sum = 0;
        self.blocked = 0;
        self.looks = MOST_LOOKS;
        self.weight = 0;
        self.has_own = false;
        self.add(net, area, wish);
    }

    // The set takes an area, and the sums follow.
    fn add(&mut self, net: &Net, area: usize, wish: Wish<'_>) {
        let from = self.rim.len();
        self.take(net, area);
        self.weight = self.weight.wrapping_add(net.weight(area));
        self.has_own |= net.own(area) == wish.kind;
        for place in from..self.rim.len() {
            let fraction = wish.at(net, self.rim.area(place));
            self.sum = self.sum.wrapping_add(fraction);
        }
    }

    // Whether the set took one more area.
    fn is_grown(&mut self, net: &Net, wish: Wish<'_>, way: Way, fraction: i64) -> bool {
        let looks = self.rim.len();
        if !self.has_looks(looks) {
            return false;
        }
        let Some(next) = self.next(net, wish, way) else {
            return false;
        };
        let taken = wish.at(net, next);
        if fraction.wrapping_sub(self.blocked) <= wish.delta
            || (way == Way::Greatest && taken == 0)
        {
            return false;
        }
        self.sum = self.sum.wrapping_sub(taken);
        self.add(net, next, wish);
        true
    }

    // The area that the set takes next. Those that it can never take are dropped from the rim.
    fn next(&mut self, net: &Net, wish: Wish<'_>, way: Way) -> Option<usize> {
        let mut best = None;
        let mut kept = 0usize;
        for place in 0..self.rim.len() {
            let area = self.rim.area(place);
            if self.is_in.has_area(area) {
                continue;
            }
            if self.is_blocked(net, area, wish.kind) {
                self.blocked = self.blocked.wrapping_add(wish.at(net, area));
                continue;
            }
            self.rim.put(kept, area);
            kept = kept.wrapping_add(1);
            let rank = Rank {
                rest: self.rest(net, area, wish, way),
                weight: net.weight(area),
                area,
            };
            best = rank.better(best);
        }
        self.rim.cut(kept);
        best.map(|rank| rank.area)
    }

    // Whether the set with the area would hold an own area and be heavy enough.
    fn is_blocked(&self, net: &Net, area: usize, kind: usize) -> bool {
        (self.has_own || net.own(area) == kind)
            && self.weight.wrapping_add(net.weight(area)) >= net.threshold(kind)
    }

    // How the sum beside the set changes where it takes the area, or the part of that which the way looks at.
    fn rest(&self, net: &Net, area: usize, wish: Wish<'_>, way: Way) -> i64 {
        let mut rest = wish.at(net, area).wrapping_neg();
        if way == Way::Greatest {
            return rest;
        }
        let beside = net.beside(area);
        if beside.len() > MANY_BESIDE {
            return i64::MAX;
        }
        for next in beside {
            if !self.is_in.has_area(*next as usize) && !self.is_met.has_area(*next as usize) {
                rest = rest.wrapping_add(wish.at(net, *next as usize));
            }
        }
        rest
    }
}

impl Wish<'_> {
    // The fraction of an area in the kind.
    fn at(self, net: &Net, area: usize) -> i64 {
        at(self.fractions, net.choice(area, self.kind), 0)
    }
}

// What decides which area is taken: the rest, then the weight, then the number.
#[derive(Clone, Copy)]
struct Rank {
    rest: i64,
    weight: i128,
    area: usize,
}

impl Rank {
    // The lesser of the two.
    fn better(self, other: Option<Rank>) -> Option<Rank> {
        match other {
            Some(other) if !self.is_before(other) => Some(other),
            _ => Some(self),
        }
    }

    fn is_before(self, other: Rank) -> bool {
        if self.rest != other.rest {
            return self.rest < other.rest;
        }
        if self.weight != other.weight {
            return self.weight < other.weight;
        }
        self.area < other.area
    }
}
