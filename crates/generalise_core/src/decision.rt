// From the names of the files to what is put out.
ghost use Rattle.std.specs.Prelude.{◌≤◌};
ghost use Rattle.generalise_core.specs.Orders.{request};
ghost use Rattle.generalise_core.specs.Plans.{Decides};

use crate::{NoPlan, Order, Plan, Stop, make_plan};
use agg_base::limits::{MAP_BYTES, SPLITS, TABLE_BYTES};
use crew_work::Crew;
use shelf_io::{Fetch, Shelf};
use std::alloc::Global;

/// Fetches the map and the table, and makes of them what is to be put out.
///
/// It is stopped where the map is not fetched or too long, where the table is not, and where what they hold is refused, by the first of
/// these that applies. Unless a file is not fetched, the shelf stays as it was.
pub(crate) fn decide<S: Shelf, W: Crew>(
    alloc: Global,
    shelf: &mut S,
    order: &Order,
    crew: &W,
) -> Result<Plan, NoPlan>
    requires { order.now.splits ≤ SPLITS }
    ensures { Decides (S.state shelf.old) (S.state shelf.new) (request order.now) result }
{
    let map = match shelf.fetch(alloc, order.map, MAP_BYTES) {
        Ok(bytes) => bytes,
        Err(Fetch::Failed) => return Err(NoPlan::Stopped(Stop::MapMissed)),
        Err(Fetch::TooLong) => return Err(NoPlan::Stopped(Stop::MapTooLong)),
        Err(Fetch::Memory) => return Err(NoPlan::Memory),
    };
    let table = match shelf.fetch(alloc, order.table, TABLE_BYTES) {
        Ok(bytes) => bytes,
        Err(Fetch::Failed) => return Err(NoPlan::Stopped(Stop::TableMissed)),
        Err(Fetch::TooLong) => return Err(NoPlan::Stopped(Stop::TableTooLong)),
        Err(Fetch::Memory) => return Err(NoPlan::Memory),
    };
    make_plan(alloc, &order.format, map, table, order.splits, crew)
}
