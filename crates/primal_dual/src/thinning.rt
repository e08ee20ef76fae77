// Takes rows out of the best sum: those that cost nothing, and then those that lose least for their marks, until it has few enough.
use crate::fixed::{nearest_price, over};
use crate::lists::{at, put, raise};
use crate::net::Net;
use crate::reduced::{least, pay_row, reduce};
use crate::relaxation::Relaxation;

// The marks of a row without its members.
pub(crate) const ROW_MARKS: u64 = 8;

// The first loss for each mark that is taken is so small a part of what a mark is worth.
const FIRST_PART: i128 = 64;

// How often it may grow by a quarter.
const MOST_GROWTHS: u32 = 200;

impl Relaxation {
    // Thins the best sum to so many marks, and says whether rows were dropped that count.
    pub(crate) fn thin(&mut self, share: u64) -> bool {
        reduce(
            &mut self.left,
            &self.net,
            &self.rows,
            &self.best_flows,
            &self.best_prices,
        );
        self.drop_rows(0, 0);
        self.drop_flows(0, 0);
        let is_cut = self.marks() > share;
        if is_cut {
            self.cut(share);
        }
        self.best = self.total();
        is_cut
    }

    // Drops rows that lose more and more for each mark, until so many marks are left.
    fn cut(&mut self, share: u64) {
        let mean = over(self.total(), i128::from(self.marks()));
        let mut loss = nearest_price(over(mean, FIRST_PART)).max(1);
        for _ in 0..MOST_GROWTHS {
            self.drop_rows(loss, share);
            self.drop_flows(loss, share);
            if self.marks() <= share {
                break;
            }
            loss = loss.saturating_add(loss / 4).saturating_add(1);
        }
    }

    // The marks of the best sum.
    pub(crate) fn marks(&self) -> u64 {
        let mut marks = 0u64;
        for flow in &self.best_flows {
            if *flow != 0 {
                marks = marks.saturating_add(ROW_MARKS);
            }
        }
        marks.saturating_add(self.row_marks())
    }

    fn row_marks(&self) -> u64 {
        let mut marks = 0u64;
        for place in 0..self.rows.len() {
            if at(&self.best_prices, place, 0) != 0 {
                marks = marks.saturating_add(self.marks_of(place));
            }
        }
        marks
    }

    fn marks_of(&self, place: usize) -> u64 {
        (self.rows.row(place).members.len() as u64).saturating_add(ROW_MARKS)
    }

    // Drops escape rows that lose no more than so much for each mark, while there are more marks than the share.
    fn drop_rows(&mut self, loss: i64, share: u64) {
        let mut marks = self.marks();
        for place in 0..self.rows.len() {
            if marks <= share {
                break;
            }
            let price = at(&self.best_prices, place, 0);
            let own = self.marks_of(place);
            let limit = i128::from(loss).wrapping_mul(i128::from(own));
            if price != 0 && self.row_loss(place, price) <= limit {
                pay_row(&mut self.left, self.rows.row(place), price.wrapping_neg());
                put(&mut self.best_prices, place, 0);
                marks = marks.saturating_sub(own);
            }
        }
    }

    // What the total loses without a row.
    fn row_loss(&mut self, place: usize, price: i64) -> i128 {
        let row = self.rows.row(place);
        let choice = row.choice;
        let beside = loss_of_all(
            &mut self.left,
            &self.net,
            &self.is_open,
            &self.caps,
            row.beside,
            price,
        );
        beside.wrapping_add(self.loss(choice, price.wrapping_neg()))
    }

    // What the total loses where the number at a choice changes by so much.
    fn loss(&mut self, choice: usize, by: i64) -> i128 {
        loss_of(
            &mut self.left,
            &self.net,
            &self.is_open,
            &self.caps,
            choice,
            by,
        )
    }

    // Drops flows that lose no more than so much for each mark, while there are more marks than the share.
    fn drop_flows(&mut self, loss: i64, share: u64) {
        let limit = i128::from(loss).wrapping_mul(i128::from(ROW_MARKS));
        let mut marks = self.marks();
        for link in 0..self.net.ties.len() {
            if marks <= share {
                break;
            }
            marks = marks.saturating_sub(self.drop_flows_of(link, limit));
        }
    }

    // Those of one link. Says how many marks they had.
    fn drop_flows_of(&mut self, link: usize, limit: i128) -> u64 {
        let kinds = self.net.kinds();
        let Some(tie) = self.net.ties.get(link).copied() else {
            return 0;
        };
        let mut marks = 0u64;
        for kind in 0..kinds {
            let place = link.wrapping_mul(kinds).wrapping_add(kind);
            let flow = at(&self.best_flows, place, 0);
            let (near, far) = (tie.near.wrapping_add(kind), tie.far.wrapping_add(kind));
            if flow != 0
                && self
                    .loss(near, flow.wrapping_neg())
                    .wrapping_add(self.loss(far, flow))
                    <= limit
            {
                raise(&mut self.left, near, flow.wrapping_neg());
                raise(&mut self.left, far, flow);
                put(&mut self.best_flows, place, 0);
                marks = marks.saturating_add(ROW_MARKS);
            }
        }
        marks
    }
}

// What the least numbers of the choices' areas lose where the number at each choice changes by so much.
fn loss_of_all(
    left: &mut [i64],
    net: &Net,
    is_open: &[bool],
    caps: &[i64],
    choices: &[u32],
    by: i64,
) -> i128 {
    let mut loss = 0i128;
    for choice in choices {
        let more = loss_of(left, net, is_open, caps, *choice as usize, by);
        loss = loss.wrapping_add(more);
    }
    loss
}

// What the least number of a choice's area loses where the number at the choice changes by so much.
fn loss_of(
    left: &mut [i64],
    net: &Net,
    is_open: &[bool],
    caps: &[i64],
    choice: usize,
    by: i64,
) -> i128 {
    let kinds = net.kinds();
    let area = choice.checked_div(kinds).unwrap_or(0);
    let first = area.wrapping_mul(kinds);
    let cap = at(caps, area, i64::MAX);
    let before = least(left, is_open, first, kinds, cap);
    raise(left, choice, by);
    let after = least(left, is_open, first, kinds, cap);
    raise(left, choice, by.wrapping_neg());
    i128::from(before).wrapping_sub(i128::from(after))
}
