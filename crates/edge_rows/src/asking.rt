// Spots against rows and banks.
ghost use Rattle.std.specs.Prelude.{◌≡◌, ◌%◌, ◌==◌, ◌≤◌, ◌&&◌, true, false, AllPairs, length, count_by, flat_map, int_le, int_lt};
ghost use Rattle.std.specs.List.Sorted.{IsPartitionPoint};
ghost use Rattle.plane_edge.specs.Plane.{IsBounded};
ghost use Rattle.edge_rows.specs.Pieces.{is_met, met, is_in};
ghost use Rattle.edge_rows.specs.Banks.{IsBefore, is_under, is_begun};
ghost use Rattle.edge_rows.specs.Whole.{pieces_of_bank};

use crate::bank::Bank;
use crate::piece::Piece;
use crate::row::Row;
use plane_edge::{Spot, is_crossed, scale};

// Whether `y` is from `low` to below `high`, and the third holds.
fn is_passed(low: i128, y: i128, high: i128, is_crossed: bool) -> bool
    ensures { result ≡ (int_le low y && int_lt y high) && is_crossed }
{
    low <= y && y < high && is_crossed
}

// Whether the ray from the spot to the right crosses the piece.
fn is_met(piece: &Piece, spot: &Spot) -> bool
    requires { IsBounded spot.now }
    ensures { result ≡ is_met piece.now spot.now }
{
    let low = scale(piece.low, spot.m);
    let high = scale(piece.high, spot.m);
    let is_crossed = is_crossed(&piece.edge, spot);
    is_passed(low, spot.y, high, is_crossed)
}

// How many pieces of the row the ray from the spot to the right crosses.
fn met_of(row: &Row, spot: &Spot) -> usize
    requires { IsBounded spot.now }
    ensures { result ≡ met row.now.pieces.items spot.now }
{
    let pieces = &row.pieces;
    pieces.len() - pieces.partition_point(|piece| !is_met(piece, spot))
}

// Whether the spot is inside the pieces of the row.
fn is_in_row(row: &Row, spot: &Spot) -> bool
    requires { IsBounded spot.now }
    ensures { result ≡ is_in row.now.pieces.items spot.now }
{
    met_of(row, spot) % 2 == 1
}

// Whether the top of the row is at the spot's height or below.
fn is_under(row: &Row, spot: &Spot) -> bool
    requires { IsBounded spot.now }
    ensures { result ≡ is_under row.now spot.now }
{
    let top = scale(row.top, spot.m);
    top <= spot.y
}

// Whether the row begins at the spot's height or below.
fn is_begun(row: &Row, spot: &Spot) -> bool
    requires { IsBounded spot.now }
    ensures { result ≡ is_begun row.now spot.now }
{
    let low = scale(row.last.low, spot.m);
    low <= spot.y
}

// How many rows, from the first, have their tops at the spot's height or below.
fn rows_under(rows: &[Row], spot: &Spot) -> usize
    requires bounded { IsBounded spot.now }
    requires rising { AllPairs IsBefore rows.now }
    ensures bound { result ≤ length rows.now }
    ensures point { IsPartitionPoint (λ r. is_under r spot.now ≡ true) (λ r. is_under r spot.now ≡ false) rows.now result }
{
    rows.partition_point(|row| is_under(row, spot))
}

// How many rows, from the first, begin at the spot's height or below.
fn rows_begun(rows: &[Row], spot: &Spot) -> usize
    requires bounded { IsBounded spot.now }
    requires rising { AllPairs IsBefore rows.now }
    ensures bound { result ≤ length rows.now }
    ensures point { IsPartitionPoint (λ r. is_begun r spot.now ≡ true) (λ r. is_begun r spot.now ≡ false) rows.now result }
{
    rows.partition_point(|row| is_begun(row, spot))
}

// Whether the spot is inside an odd number of the rows.
fn is_in_odd_rows(rows: &[Row], spot: &Spot) -> bool
    requires { IsBounded spot.now }
    ensures { result ≡ ((count_by (λ r. is_in r.pieces.items spot.now) rows.now % 2) == 1) }
{
    rows.iter().filter(|row| is_in_row(row, spot)).count() % 2 == 1
}

// Whether the spot is inside the pieces of the bank.
fn is_in_bank(bank: &Bank, spot: &Spot) -> bool
    requires { IsBounded spot.now }
    ensures { result ≡ is_in (pieces_of_bank bank.now) spot.now }
{
    let rows = bank.rows.as_slice();
    let (_, above) = rows.split_at(rows_under(rows, spot));
    let (near, _) = above.split_at(rows_begun(above, spot));
    is_in_odd_rows(near, spot)
}

// Whether the spot is inside an odd number of the banks.
fn is_in_odd_banks(banks: &[Bank], spot: &Spot) -> bool
    requires { IsBounded spot.now }
    ensures { result ≡ ((count_by (λ b. is_in (pieces_of_bank b) spot.now) banks.now % 2) == 1) }
{
    banks.iter().filter(|bank| is_in_bank(bank, spot)).count() % 2 == 1
}

/// Whether the spot is inside the pieces of the banks.
pub fn is_inside(banks: &[Bank], spot: &Spot) -> bool
    requires { IsBounded spot.now }
    ensures { result ≡ is_in (flat_map pieces_of_bank banks.now) spot.now }
{
    is_in_odd_banks(banks, spot)
}
