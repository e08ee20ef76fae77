// The cells of each patch.
ghost use Rattle.std.specs.Prelude.{◌≡◌, ◌<◌, ◌≤◌, ◌+◌, ◌∷◌, ◌++◌, [], IfOk, IfSome, OnOk, length, replicate, slice_set, Some, None};
ghost use Rattle.grid_reader.specs.Patches.{ArePatches, number_at};
ghost use Rattle.grid_reader.specs.Members.{AreMembers, list_at, put};
ghost use Rattle.agg_base.specs.Lists.{lists_of};

use crate::grid::Grid;
use crate::patches::Numbered;
use agg_base::NoMemory;
use std::alloc::Global;

// The cells of each patch, in their order.
pub(crate) fn members(
    alloc: Global,
    grid: &Grid,
    numbered: &Numbered,
) -> Result<Vec<Vec<u32>>, NoMemory>
    requires length { length numbered.now.numbers.items ≡ length grid.now.cells }
    requires patches { ArePatches grid.now (number_at numbered.now.numbers.items) numbered.now.count }
    ensures { IfOk result (λ m. AreMembers (number_at numbered.now.numbers.items) (length grid.now.cells) numbered.now.count (lists_of m.items)) }
{
    let mut members = no_members(alloc, numbered.count)?;
    for cell in 0..grid.count() {
        put_cell(&mut members, numbered.numbers[cell as usize], cell)?;
    }
    Ok(members)
}

// So many empty lists.
fn no_members(alloc: Global, count: u32) -> Result<Vec<Vec<u32>>, NoMemory>
    ensures { IfOk result (λ m. lists_of m.items ≡ replicate count []) }
{
    let mut members = Vec::with_capacity(alloc, count as usize)?;
    for _patch in 0..count {
        members.push(Vec::new(alloc))?;
    }
    Ok(members)
}

// Puts a cell into the list of its patch, where it is in one.
fn put_cell(members: &mut Vec<Vec<u32>>, patch: Option<u32>, cell: u32) -> Result<(), NoMemory>
    requires { IfSome patch (λ p. p < length members.old.items) }
    ensures { OnOk result (lists_of members.new.items ≡ put (lists_of members.old.items) patch cell) }
{
    match patch {
        Some(patch) => push_member(members, patch, cell),
        None => Ok(()),
    }
}

// Appends a cell to the list of its patch.
fn push_member(members: &mut Vec<Vec<u32>>, patch: u32, cell: u32) -> Result<(), NoMemory>
    requires { patch < length members.old.items }
    ensures { OnOk result (lists_of members.new.items ≡ slice_set (lists_of members.old.items) patch (list_at (lists_of members.old.items) patch ++ cell ∷ [])) }
{
    let list = &mut members[patch as usize];
    list.push(cell)?;
    Ok(())
}
