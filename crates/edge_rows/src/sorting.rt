// Pieces in the order in which they are laid out.
ghost use Rattle.std.specs.List.Sorted.{IsPermutation};

use crate::piece::Piece;
use crate::sides::compare_at;
use std::cmp::Ordering;

// Level by level, from below upwards, then from left to right.
fn compare(p: &Piece, q: &Piece) -> Ordering {
    match (p.level, p.low, p.high).cmp(&(q.level, q.low, q.high)) {
        Ordering::Equal => compare_across(p, q),
        order => order,
    }
}

// From left to right along the lower height, then along the upper one.
fn compare_across(p: &Piece, q: &Piece) -> Ordering {
    match compare_at(&p.edge, &q.edge, p.low) {
        Ordering::Equal => compare_at(&p.edge, &q.edge, p.high),
        order => order,
    }
}

/// Sorts the pieces: those of one level together, then from below upwards, then from left to right. Pieces that cross stand in some order.
pub fn sort(pieces: &mut Vec<Piece>)
    ensures { IsPermutation pieces.old.items pieces.new.items }
{
    pieces.sort_unstable_by(|p, q| compare(p, q));
}
