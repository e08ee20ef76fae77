// Pieces laid out in rows, and rows in banks.
ghost use Rattle.std.specs.Prelude.{◌≡◌, ◌↔◌, ◌≤ℤ◌, ◌&&◌, not, IsTrue, All, [], ◌∷◌, ◌++◌, flat_map, int_le, int_lt, pos, IfOk};
ghost use Rattle.std.specs.Ordering.{int_eq};
ghost use Rattle.plane_edge.specs.Coordinate.{IsCoordinate};
ghost use Rattle.plane_strip.specs.Strip.{lead};
ghost use Rattle.edge_rows.specs.Beside.{IsBeside, is_beside as beside};
ghost use Rattle.edge_rows.specs.Banks.{pieces_of_row};
ghost use Rattle.edge_rows.specs.Whole.{pieces_of_bank};

use crate::bank::Bank;
use crate::piece::Piece;
use crate::row::Row;
use crate::sides::is_back_at;
use agg_base::NoMemory;
use plane_edge::are_equal;
use std::alloc::Global;

// A row of one piece.
fn row_of(alloc: Global, piece: Piece) -> Result<Row, NoMemory>
    ensures { IfOk result (λ row. row.pieces.items ≡ piece ∷ []) }
{
    let mut pieces = Vec::new(alloc);
    pieces.push(piece)?;
    Ok(Row {
        pieces,
        last: piece,
        top: piece.high,
    })
}

// The row with one more piece.
fn longer(row: Row, piece: Piece) -> Result<Row, NoMemory>
    requires { IsBeside row.last piece }
    ensures { IfOk result (λ r. r.pieces.items ≡ row.pieces.items ++ piece ∷ []) }
{
    let Row {
        mut pieces,
        last: _,
        top,
    } = row;
    pieces.push(piece)?;
    Ok(Row {
        pieces,
        last: piece,
        top,
    })
}

// Whether both hold.
fn are_both(a: bool, b: bool) -> bool
    ensures { result ≡ a && b }
{
    a && b
}

// Whether neither holds.
fn is_neither(a: bool, b: bool) -> bool
    ensures { result ≡ not a && not b }
{
    !a && !b
}

// Whether the pieces are between the same heights.
fn are_level(p: &Piece, q: &Piece) -> bool
    ensures { result ≡ int_eq p.now.low q.now.low && int_eq p.now.high q.now.high }
{
    are_equal(p.low, p.high, q.low, q.high)
}

// Whether the second piece is not further left at the heights of the first.
fn is_right(p: &Piece, q: &Piece) -> bool
    ensures { result ≡ not (int_lt (pos 0) (lead p.now.edge q.now.edge p.now.low (pos 1))) && not (int_lt (pos 0) (lead p.now.edge q.now.edge p.now.high (pos 1))) }
{
    let is_back_below = is_back_at(&p.edge, &q.edge, p.low);
    let is_back_above = is_back_at(&p.edge, &q.edge, p.high);
    is_neither(is_back_below, is_back_above)
}

// The test of `is_beside`.
fn are_beside(p: &Piece, q: &Piece) -> bool
    ensures { result ≡ beside p.now q.now }
{
    are_both(are_level(p, q), is_right(p, q))
}

// Whether the second piece is between the heights of the first, and nowhere further left.
#[tactic(auto, using(crate::proofs::RowLemmas::beside_test))]
fn is_beside(p: &Piece, q: &Piece) -> bool
    ensures { IsTrue result ↔ IsBeside p.now q.now }
{
    are_beside(p, q)
}

// The row to go on with: the same where the piece fits into it, else a new one, and `rows` takes the old one.
fn next_row(alloc: Global, rows: &mut Vec<Row>, row: Row, piece: Piece) -> Result<Row, NoMemory>
    ensures { IfOk result (λ r. flat_map pieces_of_row rows.new.items ++ r.pieces.items ≡ (flat_map pieces_of_row rows.old.items ++ row.pieces.items) ++ piece ∷ []) }
{
    if is_beside(&row.last, &piece) {
        longer(row, piece)
    } else {
        rows.push(row)?;
        row_of(alloc, piece)
    }
}

/// The pieces in rows, in their order.
pub fn rows_of(alloc: Global, pieces: &[Piece]) -> Result<Vec<Row>, NoMemory>
    ensures { IfOk result (λ rows. flat_map pieces_of_row rows.items ≡ pieces.now) }
{
    let mut rows = Vec::new(alloc);
    let [first, rest @ ..] = pieces else {
        return Ok(rows);
    };
    let mut row = row_of(alloc, *first)?;
    for piece in rest {
        row = next_row(alloc, &mut rows, row, *piece)?;
    }
    rows.push(row)?;
    Ok(rows)
}

// The greater of two heights.
fn higher(height: i32, other: i32) -> i32
    requires height_in { IsCoordinate height }
    requires other_in { IsCoordinate other }
    ensures first { height ≤ℤ result }
    ensures second { other ≤ℤ result }
    ensures within { IsCoordinate result }
{
    if height < other { other } else { height }
}

// Whether the second piece does not begin below the first.
fn is_not_lower(p: &Piece, q: &Piece) -> bool
    ensures { result ≡ int_le p.now.low q.now.low }
{
    p.low <= q.low
}

// Whether the row may follow those of the bank: it is of the level of the last one, and does not begin below it.
fn has_place_for(bank: &Bank, row: &Row) -> bool
    ensures { IsTrue result → All (λ r. r.last.low ≤ℤ row.now.last.low) bank.now.rows.items }
{
    match bank.rows.last() {
        Some(last) => {
            let is_alike = last.last.level == row.last.level;
            are_both(is_alike, is_not_lower(&last.last, &row.last))
        }
        None => true,
    }
}

// A height not below `top` and the tops of the bank.
fn top_over(bank: &Bank, top: i32) -> i32
    requires { IsCoordinate top }
    ensures own { top ≤ℤ result }
    ensures others { All (λ r. r.top ≤ℤ result) bank.now.rows.items }
    ensures within { IsCoordinate result }
{
    match bank.rows.last() {
        Some(last) => higher(top, last.top),
        None => top,
    }
}

// The row, with a top that is not below those of the bank.
fn raise(bank: &Bank, row: Row) -> Row
    ensures pieces { result.pieces.items ≡ row.pieces.items }
    ensures last { result.last ≡ row.last }
    ensures tops { All (λ r. r.top ≤ℤ result.top) bank.now.rows.items }
{
    let Row { pieces, last, top } = row;
    let top = top_over(bank, top);
    Row { pieces, last, top }
}

// The bank with one more row.
fn taller(bank: Bank, row: Row) -> Result<Bank, NoMemory>
    requires { All (λ r. r.last.low ≤ℤ row.last.low) bank.rows.items }
    ensures { IfOk result (λ b. pieces_of_bank b ≡ pieces_of_bank bank ++ row.pieces.items) }
{
    let row = raise(&bank, row);
    let Bank { mut rows } = bank;
    rows.push(row)?;
    Ok(Bank { rows })
}

// A bank of no row.
fn no_bank(alloc: Global) -> Bank
    ensures { result.rows.items ≡ [] }
{
    Bank {
        rows: Vec::new(alloc),
    }
}

// The bank to go on with: the same where the row may follow, else a new one, and `banks` takes the old one.
fn next_bank(alloc: Global, banks: &mut Vec<Bank>, bank: Bank, row: Row) -> Result<Bank, NoMemory>
    ensures { IfOk result (λ b. flat_map pieces_of_bank banks.new.items ++ pieces_of_bank b ≡ (flat_map pieces_of_bank banks.old.items ++ pieces_of_bank bank) ++ row.pieces.items) }
{
    if has_place_for(&bank, &row) {
        taller(bank, row)
    } else {
        banks.push(bank)?;
        taller(no_bank(alloc), row)
    }
}

/// The rows in banks, in their order.
pub fn banks_of(alloc: Global, rows: Vec<Row>) -> Result<Vec<Bank>, NoMemory>
    ensures { IfOk result (λ banks. flat_map pieces_of_bank banks.items ≡ flat_map pieces_of_row rows.items) }
{
    let mut banks = Vec::new(alloc);
    let mut bank = no_bank(alloc);
    for row in rows {
        bank = next_bank(alloc, &mut banks, bank, row)?;
    }
    banks.push(bank)?;
    Ok(banks)
}
