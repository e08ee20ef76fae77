// One turn: a window is changed, made feasible again, and kept where it costs no more.
use crate::net::Net;
use crate::searcher::Searcher;

// How much work one turn may take.
const TURN_WORK: u64 = 20_000;

// The areas of the window in the first round.
const WINDOW: u32 = 8;

// How many of a hundred turns paint areas in a later round.
const PAINTS: u32 = 65;

// By how much windows differ in size then, and by how much every fourth does.
const SPREAD: u32 = 24;

const WIDE: u32 = 40;

// How many areas a painting is chosen from, and how many it paints: at most as many, or at most a few.
const RING: u32 = 8;

const FEW: u32 = 2;

// How many of a hundred paintings are grown until their region is rich.
const GROWN: u32 = 50;

impl Searcher {
    // A turn at an area.
    pub(crate) fn turn(&mut self, net: &Net, area: u32, is_first: bool) {
        self.is_blurred = true;
        self.begin_turn();
        let before = self.state.cost();
        let is_begun = self.is_changed(net, area, is_first);
        let is_good = is_begun && self.is_mended(net) && self.state.cost() <= before;
        if !is_good {
            self.state.undo(0, before);
        }
        self.state.allow(u64::MAX);
        self.is_blurred = false;
    }

    fn begin_turn(&mut self) {
        self.state.begin();
        self.state.allow(TURN_WORK);
    }

    // Whether a window at the area was changed.
    fn is_changed(&mut self, net: &Net, area: u32, is_first: bool) -> bool {
        if is_first {
            self.free(net, area, WINDOW);
        } else if self.numbers.is_hit(PAINTS) {
            return self.is_painted(net, area);
        } else {
            let most = if self.numbers.below(4) == 0 {
                WIDE
            } else {
                SPREAD
            };
            let size = self.numbers.below(most).saturating_add(2);
            self.free(net, area, size);
        }
        self.state.changes() > 0
    }

    // Whether all regions that were changed are rich again.
    fn is_mended(&mut self, net: &Net) -> bool {
        if self.state.has_failed() || !self.is_repaired(net) {
            return false;
        }
        self.descend(net);
        !self.state.has_failed()
    }

    // Lays a window of so many areas round an area, the nearest ones by links.
    fn lay_window(&mut self, net: &Net, area: u32, size: u32) {
        let stamp = self.marks.fresh();
        self.taken.clear();
        self.marks.mark(area, stamp);
        self.taken.push(area);
        for place in 0..size {
            let Some(inside) = self.taken.get(place as usize) else {
                break;
            };
            self.widen_window(net, inside, stamp, size);
        }
    }

    // Takes the areas beside one into the window, as long as it has room.
    fn widen_window(&mut self, net: &Net, area: u32, stamp: u64, size: u32) {
        for next in net.beside(area) {
            if self.taken.len() >= size as usize {
                return;
            }
            if !self.marks.is_marked(*next, stamp) {
                self.marks.mark(*next, stamp);
                self.taken.push(*next);
            }
        }
    }

    // Gives all areas of a window their own classes.
    fn free(&mut self, net: &Net, area: u32, size: u32) {
        self.lay_window(net, area, size);
        for area in self.taken.as_slice() {
            self.state.set(net, *area, net.own(*area));
        }
    }

    // Whether areas of a window were painted in one class, and the region of the area was grown where that was drawn.
    fn is_painted(&mut self, net: &Net, area: u32) -> bool {
        let most = if self.numbers.below(2) == 0 {
            FEW
        } else {
            RING
        };
        let count = self.numbers.below(most).saturating_add(1);
        let size = self.numbers.below(RING).saturating_add(1);
        let mode = self.numbers.below(3);
        let is_grown = self.numbers.is_hit(GROWN);
        self.lay_window(net, area, size);
        let class = self.class_to_paint(net, mode);
        self.paint_window(net, class, count);
        self.state.changes() > 0 && (!is_grown || self.is_grown(net, area))
    }

    // The own class of the window's last area, its class, or any class.
    fn class_to_paint(&mut self, net: &Net, mode: u32) -> u8 {
        let last = self.taken.len().saturating_sub(1);
        let area = self.taken.get(last).unwrap_or(0);
        match mode {
            0 => net.own(area),
            1 => self.state.class(area),
            _ => self.numbers.class(net.classes()),
        }
    }

    // Paints the first areas of the window.
    fn paint_window(&mut self, net: &Net, class: u8, count: u32) {
        for place in 0..count {
            if let Some(area) = self.taken.get(place as usize) {
                self.state.set(net, area, class);
            }
        }
    }

    // Whether the region of an area is rich, or became so by taking what it needs.
    fn is_grown(&mut self, net: &Net, area: u32) -> bool {
        if self.is_rich(net, area) {
            return true;
        }
        self.explorer.exchange(&mut self.region.areas);
        self.region.read_class(&self.state);
        self.is_annexed(net, true)
    }
}
