// What flows and prices leave of the cost of each choice.
use crate::lists::{at, raise};
use crate::net::{Net, Tie};
use crate::rows::{Row, Rows};

// Each choice begins at its cost. A flow adds to the near choice of its link and takes from the far one; a price adds to the choice of its row
// and takes from those beside the set.
pub(crate) fn reduce(left: &mut [i64], net: &Net, rows: &Rows, flows: &[i64], prices: &[i64]) {
    crate::point::take(left, &net.cost);
    let kinds = net.kinds();
    let mut place = 0usize;
    for tie in &net.ties {
        flow_along(left, *tie, flows, place, kinds);
        place = place.wrapping_add(kinds);
    }
    pay(left, rows, prices);
}

// The flows of one link.
fn flow_along(left: &mut [i64], tie: Tie, flows: &[i64], place: usize, kinds: usize) {
    for kind in 0..kinds {
        let flow = at(flows, place.wrapping_add(kind), 0);
        if flow != 0 {
            raise(left, tie.near.wrapping_add(kind), flow);
            raise(left, tie.far.wrapping_add(kind), flow.wrapping_neg());
        }
    }
}

// The prices of all rows.
fn pay(left: &mut [i64], rows: &Rows, prices: &[i64]) {
    for place in 0..rows.len() {
        let price = at(prices, place, 0);
        if price != 0 {
            pay_row(left, rows.row(place), price);
        }
    }
}

// The price of one row.
pub(crate) fn pay_row(left: &mut [i64], row: Row<'_>, price: i64) {
    raise(left, row.choice, price);
    for choice in row.beside {
        raise(left, *choice as usize, price.wrapping_neg());
    }
}

// The least of what is left at the open choices of an area, or the cap where that is less.
pub(crate) fn least(left: &[i64], is_open: &[bool], first: usize, kinds: usize, cap: i64) -> i64 {
    let mut least = cap;
    for kind in 0..kinds {
        let choice = first.wrapping_add(kind);
        if at(is_open, choice, false) {
            least = least.min(at(left, choice, 0));
        }
    }
    if least == i64::MAX { 0 } else { least }
}
