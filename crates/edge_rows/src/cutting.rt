// Edges cut into pieces, so that those at one height are few lists of long ones.
//
// The heights of all ends are numbered from below. A piece of level k goes from a number that 2^k divides to the next such number, and an
// edge has two pieces of a level at most. Only speed rests on that: where a piece ends is tested when it is cut.
ghost use Rattle.std.specs.Prelude.{◌≡◌, ◌+◌, ◌<◌, ◌≤ℤ◌, ◌<ℤ◌, length, IfOk, OnOk};
ghost use Rattle.edge_rows.specs.Cutting.{IsCut, ArePiecesOf};

use crate::piece::Piece;
use agg_base::NoMemory;
use plane_edge::Edge;
use std::alloc::Global;

// How many levels there are: as many distinct heights as a map has ends of steps have numbers below 2^23.
const LEVELS: u32 = 23;

// The distinct heights of the ends of the edges, from below.
fn heights_of(alloc: Global, edges: &[Edge]) -> Result<Vec<i32>, NoMemory> {
    let mut heights = Vec::new(alloc);
    for edge in edges {
        heights.push(edge.low.y)?;
        heights.push(edge.high.y)?;
    }
    heights.sort_unstable();
    heights.dedup();
    Ok(heights)
}

// Appends the piece of the edge between two heights, if the second is above the first.
fn push_piece(
    pieces: &mut Vec<Piece>,
    edge: &Edge,
    low: i32,
    high: i32,
    level: u32,
) -> Result<(), NoMemory>
    requires from { edge.now.low.y ≤ℤ low }
    requires rising { low ≤ℤ high }
    requires to { high ≤ℤ edge.now.high.y }
    ensures { OnOk result (IsCut edge.now low high pieces.old.items pieces.new.items) }
{
    if low < high {
        pieces.push(Piece {
            edge: *edge,
            low,
            high,
            level,
        })?;
    }
    Ok(())
}

// Appends the piece of the edge from one height to another where the edge reaches that, and tells from which height on it is left to cut.
fn cut_off(
    pieces: &mut Vec<Piece>,
    edge: &Edge,
    low: i32,
    high: i32,
    level: u32,
) -> Result<i32, NoMemory>
    requires from { edge.now.low.y ≤ℤ low }
    requires to { low ≤ℤ edge.now.high.y }
    ensures up { IfOk result (λ left. low ≤ℤ left) }
    ensures within { IfOk result (λ left. left ≤ℤ edge.now.high.y) }
    ensures cut { IfOk result (λ left. IsCut edge.now low left pieces.old.items pieces.new.items) }
{
    let left = height_within(low, high, edge.high.y);
    push_piece(pieces, edge, low, left, level)?;
    Ok(left)
}

// The second height where it is from the first to the last, else the first.
fn height_within(low: i32, high: i32, most: i32) -> i32
    requires { low ≤ℤ most }
    ensures up { low ≤ℤ result }
    ensures within { result ≤ℤ most }
{
    if low <= high && high <= most {
        high
    } else {
        low
    }
}

// How many numbers of heights the piece goes up that is cut off at that turn, from the height numbered `place` on with `end` as the
// last; 0 where none is. The levels are tried from the least to the greatest, then back.
fn size_at(turn: u32, place: usize, end: usize) -> usize {
    let level = level_at(turn);
    let size = 1usize << level;
    let is_due = turn >= LEVELS || place & size != 0;
    if is_due && size <= end.saturating_sub(place) {
        size
    } else {
        0
    }
}

// The level of that turn.
fn level_at(turn: u32) -> u32
    ensures { result < 64 }
{
    if turn < LEVELS {
        turn
    } else {
        (2 * LEVELS - 1).saturating_sub(turn)
    }
}

// Appends pieces of an edge that together are the edge.
fn push_pieces(pieces: &mut Vec<Piece>, edge: &Edge, heights: &[i32]) -> Result<(), NoMemory>
    ensures { OnOk result (IsCut edge.now edge.now.low.y edge.now.high.y pieces.old.items pieces.new.items) }
{
    let mut place = heights.partition_point(|height| *height < edge.low.y);
    let end = heights.partition_point(|height| *height < edge.high.y);
    let mut left = edge.low.y;
    for turn in 0..2 * LEVELS {
        let size = size_at(turn, place, end);
        let next = place.saturating_add(size);
        let height = heights.get(next).copied().unwrap_or(left);
        left = cut_off(pieces, edge, left, height, level_at(turn))?;
        place = next;
    }
    push_piece(pieces, edge, left, edge.high.y, LEVELS)
}

/// The edges in pieces. Each spot meets as many of the pieces as it crosses edges.
pub fn pieces_of(alloc: Global, edges: &[Edge]) -> Result<Vec<Piece>, NoMemory>
    ensures { IfOk result (λ pieces. ArePiecesOf edges.now pieces.items) }
{
    let heights = heights_of(alloc, edges)?;
    let mut pieces = Vec::new(alloc);
    for edge in edges {
        push_pieces(&mut pieces, edge, &heights)?;
    }
    Ok(pieces)
}
