// Whether a grouping is feasible, and what it lacks else.
ghost use Rattle.std.specs.Prelude.{◌≡◌, ◌↔◌, IsOk, IfErr, length};
ghost use Rattle.agg_model.specs.Problem.{IsNumbered, IsFeasible, areas};
ghost use Rattle.agg_model.specs.Lacks.{IsFirstLack, LackLaw, region_in};

use crate::tallies::first_poor;
use crate::tops::first_broken;
use crate::{Grouping, Problem};

/// What a region has in no feasible grouping.
#[derive(Clone, Copy, Debug, PartialEq, Eq)]
pub enum Lack {
    /// The region has no area.
    Empty { region: u32 },
    /// The links between areas of the region do not join them all.
    Loose { region: u32 },
    /// No area of the region has its class as own class.
    NoOwn { region: u32 },
    /// The areas of the region weigh less than the threshold of its class.
    TooSmall { region: u32 },
}

impl Lack {
    /// The region that lacks something.
    pub fn region(self) -> u32
        ensures { result ≡ region_in self }
    {
        match self {
            Lack::Empty { region }
            | Lack::Loose { region }
            | Lack::NoOwn { region }
            | Lack::TooSmall { region } => region,
        }
    }
}

/// Whether each region of a numbered grouping has areas, links between them that join them all, an area that owns its class, and the weight
/// of the threshold of its class. Else the least region that lacks some of it, and what it lacks first in this order.
///
/// The scratch has one number for each area, and is left with others. It takes no memory, and n areas and links take some n log n steps.
pub fn feasible(problem: &Problem, grouping: &Grouping, scratch: &mut Vec<u32>) -> Result<(), Lack>
    requires numbered { IsNumbered problem.now grouping.now }
    requires room { length scratch.old.items ≡ areas problem.now }
    ensures feasible { IsOk result ↔ IsFeasible problem.now grouping.now }
    ensures lack { IfErr result (λ lack. IsFirstLack problem.now grouping.now lack) }
    ensures room { length scratch.new.items ≡ length scratch.old.items }
{
    match first_broken(problem, grouping, scratch) {
        Ok(()) => first_poor(problem, grouping, scratch, grouping.regions()),
        Err(lack) => {
            first_poor(problem, grouping, scratch, lack.region())?;
            Err(lack)
        }
    }
}

/// A grouping has one first lack at most, and none where it is feasible.
pub fn lack_law()
    ensures { LackLaw }
{}
