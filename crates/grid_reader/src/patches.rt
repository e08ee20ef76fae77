// The patches of a grid. Cells are joined cell by cell, each set led by its first cell.
ghost use Rattle.std.specs.Prelude.{ℕ, ◌≡◌, ◌+◌, ◌<◌, ◌≤◌, [], IfOk, IfSome, IfNone, OnOk, length, slice_index};
ghost use Rattle.std.specs.Bool.{Decides};
ghost use Rattle.union_find.specs.Sets.{AreSets};
ghost use Rattle.grid_reader.specs.Grid.{value_at};
ghost use Rattle.grid_reader.specs.Joins.{IsJoined};
ghost use Rattle.grid_reader.specs.Walks.{IsRightOf, IsBelow, HaveOneValue};
ghost use Rattle.grid_reader.specs.Patches.{ArePatches, AreNumbered, AreLeaders, number_at};

use crate::grid::Grid;
use agg_base::NoMemory;
use agg_base::limits::CELLS;
use std::alloc::Global;
use union_find::Forest;

// The number of each cell's patch, and how many patches there are.
#[derive(Drop)]
pub(crate) struct Numbered {
    // By cell; None where it has no data.
    pub(crate) numbers: Vec<Option<u32>>,
    pub(crate) count: u32,
}

// The patches of a grid, numbered by their first cells.
pub(crate) fn patches(alloc: Global, grid: &Grid) -> Result<Numbered, NoMemory>
    ensures length { IfOk result (λ p. length p.numbers.items ≡ length grid.now.cells) }
    ensures few { IfOk result (λ p. length p.numbers.items ≤ CELLS) }
    ensures patches { IfOk result (λ p. ArePatches grid.now (number_at p.numbers.items) p.count) }
{
    let mut forest = Forest::of(alloc, grid.count())?;
    join_all(&mut forest, grid);
    let leaders = forest.least_members();
    number_all(alloc, grid, &leaders)
}

// Joins each cell with the ones to its left and above it.
fn join_all(forest: &mut Forest, grid: &Grid)
    requires length { length forest.old ≡ length grid.now.cells }
    requires alone { AreSets [] forest.old }
    ensures length { length forest.new ≡ length grid.now.cells }
    ensures leaders { AreLeaders grid.now (λ i. slice_index forest.new i) }
{
    for at in 0..grid.count() {
        join_left(forest, grid, at);
        join_upper(forest, grid, at);
    }
}

// Joins a cell with the one to its left.
fn join_left(forest: &mut Forest, grid: &Grid, at: u32)
    requires length { length forest.old ≡ length grid.now.cells }
    requires at { at < length grid.now.cells }
    requires joined { IsJoined grid.now at at forest.old }
    ensures length { length forest.new ≡ length grid.now.cells }
    ensures joined { IsJoined grid.now (at + 1) at forest.new }
{
    let Some(left) = cell_left(grid, at) else {
        return;
    };
    if have_one_value(grid, left, at) {
        forest.join(left, at);
    }
}

// The cell to the left of a cell, where there is one.
fn cell_left(grid: &Grid, at: u32) -> Option<u32>
    ensures some { IfSome result (λ i. IsRightOf grid.now i at) }
    ensures none { IfNone result ((i : ℕ) → ¬ IsRightOf grid.now i at) }
{
    if at % grid.columns() == 0 {
        return None;
    }
    Some(at - 1)
}

// Joins a cell with the one above it.
fn join_upper(forest: &mut Forest, grid: &Grid, at: u32)
    requires length { length forest.old ≡ length grid.now.cells }
    requires at { at < length grid.now.cells }
    requires joined { IsJoined grid.now (at + 1) at forest.old }
    ensures length { length forest.new ≡ length grid.now.cells }
    ensures joined { IsJoined grid.now (at + 1) (at + 1) forest.new }
{
    let Some(upper) = cell_above(grid, at) else {
        return;
    };
    if have_one_value(grid, upper, at) {
        forest.join(upper, at);
    }
}

// The cell above a cell, where there is one.
fn cell_above(grid: &Grid, at: u32) -> Option<u32>
    ensures some { IfSome result (λ i. IsBelow grid.now i at) }
    ensures none { IfNone result ((i : ℕ) → ¬ IsBelow grid.now i at) }
{
    let columns = grid.columns();
    if at < columns {
        return None;
    }
    Some(at - columns)
}

// Whether two cells have the same value, which is data.
fn have_one_value(grid: &Grid, a: u32, b: u32) -> bool
    requires a { a < length grid.now.cells }
    requires b { b < length grid.now.cells }
    ensures { Decides result (HaveOneValue grid.now a b) }
{
    let value = grid.value(b);
    grid.value(a) == value && value != grid.nodata()
}

// Whether a cell has no data.
fn is_empty(grid: &Grid, at: u32) -> bool
    requires { at < length grid.now.cells }
    ensures { Decides result (value_at grid.now at ≡ grid.now.nodata) }
{
    grid.value(at) == grid.nodata()
}

// The numbers of the patches that these cells lead.
fn number_all(alloc: Global, grid: &Grid, leaders: &[u32]) -> Result<Numbered, NoMemory>
    requires length { length leaders.now ≡ length grid.now.cells }
    requires leaders { AreLeaders grid.now (λ i. slice_index leaders.now i) }
    ensures length { IfOk result (λ p. length p.numbers.items ≡ length grid.now.cells) }
    ensures few { IfOk result (λ p. length p.numbers.items ≤ CELLS) }
    ensures patches { IfOk result (λ p. ArePatches grid.now (number_at p.numbers.items) p.count) }
{
    let mut numbers = Vec::new(alloc);
    let mut count = 0;
    for at in 0..grid.count() {
        count = push_number(&mut numbers, grid, leaders, at, count)?;
    }
    Ok(Numbered { numbers, count })
}

// Appends the number of the next cell's patch, and gives how many patches have begun.
fn push_number(
    numbers: &mut Vec<Option<u32>>,
    grid: &Grid,
    leaders: &[u32],
    at: u32,
    count: u32,
) -> Result<u32, NoMemory>
    requires length { length leaders.now ≡ length grid.now.cells }
    requires leaders { AreLeaders grid.now (λ i. slice_index leaders.now i) }
    requires few_cells { length grid.now.cells ≤ CELLS }
    requires next { at < length grid.now.cells }
    requires long { length numbers.old.items ≡ at }
    requires few { count ≤ at }
    requires before { AreNumbered grid.now at (number_at numbers.old.items) count }
    ensures length { OnOk result (length numbers.new.items ≡ at + 1) }
    ensures few { IfOk result (λ more. more ≤ at + 1) }
    ensures after { IfOk result (λ more. AreNumbered grid.now (at + 1) (number_at numbers.new.items) more) }
{
    if is_empty(grid, at) {
        numbers.push(None)?;
        return Ok(count);
    }
    let leader = leaders[at as usize];
    if leader == at {
        numbers.push(Some(count))?;
        return Ok(count + 1);
    }
    numbers.push(numbers[leader as usize])?;
    Ok(count)
}
