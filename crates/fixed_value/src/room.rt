// Room for the components of areas.
ghost use Rattle.std.specs.Prelude.{IfOk};
ghost use Rattle.fixed_value.specs.Components.{IsRoomFor};

use crate::tallies::Tally;
use agg_base::NoMemory;
use agg_model::Problem;
use std::alloc::Global;
use union_find::Forest;

/// Room to tell the components of a problem's areas, so that `fixed_value` takes no memory.
#[derive(Drop)]
pub struct Room {
    pub(crate) heads: Forest,
    pub(crate) tallies: Vec<Tally>,
}

impl Room {
    /// Room for the areas of a problem. Its one refusal is want of memory.
    pub fn new(alloc: Global, problem: &Problem) -> Result<Room, NoMemory>
        ensures { IfOk result (λ room. IsRoomFor problem.now room) }
    {
        let areas = problem.areas();
        let none = Tally {
            owned: false,
            weight: 0,
        };
        Ok(Room {
            heads: Forest::of(alloc, areas)?,
            tallies: vec![in alloc; none; areas as usize]?,
        })
    }
}
