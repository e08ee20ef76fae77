// Shells in boxes, so that a spot is tested against few of them.
ghost use Rattle.std.specs.Prelude.{◌<◌, ◌≤◌, length, IfOk};
ghost use Rattle.arc_dissolve.specs.Reaches.{IsReachOf, AreReachesOf};

use crate::extent::Extent;
use crate::shell::Shell;
use agg_base::NoMemory;
use std::alloc::Global;

/// A rectangle round a shell and those that follow it up to an end.
#[derive(Clone, Copy, Debug)]
pub struct Reach {
    /// The rectangle.
    pub extent: Extent,
    /// The place after the last of the shells.
    pub end: usize,
}

// Where the reach of a place ends among so many: a place that is an odd multiple of 2^k reaches over 2^k places, and the first over all. So of two
// reaches one is in the other, or they are apart.
fn end_of(place: usize, count: usize) -> usize
    requires { place < count }
    ensures after { place < result }
    ensures within { result ≤ count }
{
    if place == 0 {
        return count;
    }
    let length = (place & place.wrapping_neg()).max(1);
    if length < count - place {
        place + length
    } else {
        count
    }
}

// A reach of a place that goes on as far as it may, over the reaches of the places after it.
fn reach_of(shells: &[Shell], reaches: &[Reach], place: usize) -> Reach
    requires place { place < length shells.now }
    requires reaches { AreReachesOf shells.now reaches.now }
    ensures { IsReachOf shells.now place result }
{
    let end = end_of(place, shells.len());
    let mut extent = shells[place].extent;
    let mut next = place + 1;
    while next < end {
        let reach = &reaches[next];
        extent = extent.around(&reach.extent);
        next = reach.end;
    }
    Reach { extent, end: next }
}

// The reach over one shell alone.
fn own_reach(shells: &[Shell], place: usize) -> Reach
    requires { place < length shells.now }
    ensures { IsReachOf shells.now place result }
{
    let extent = shells[place].extent;
    let end = place + 1;
    Reach { extent, end }
}

// For each shell the reach over it alone.
fn own_reaches(alloc: Global, shells: &[Shell]) -> Result<Vec<Reach>, NoMemory>
    ensures { IfOk result (λ reaches. AreReachesOf shells.now reaches.items) }
{
    let mut reaches = Vec::new(alloc);
    for place in 0..shells.len() {
        reaches.push(own_reach(shells, place))?;
    }
    Ok(reaches)
}

// Takes the shells after each into the reaches, from the last to the first.
fn grow(shells: &[Shell], reaches: &mut [Reach])
    requires { AreReachesOf shells.now reaches.old }
    ensures { AreReachesOf shells.now reaches.new }
{
    for place in (0..shells.len()).rev() {
        reaches[place] = reach_of(shells, reaches, place);
    }
}

/// The reach of each shell.
pub fn reaches_of(alloc: Global, shells: &[Shell]) -> Result<Vec<Reach>, NoMemory>
    ensures { IfOk result (λ reaches. AreReachesOf shells.now reaches.items) }
{
    let mut reaches = own_reaches(alloc, shells)?;
    grow(shells, &mut reaches);
    Ok(reaches)
}
