// Rows, and the sets of areas that they speak of.
use agg_base::NoMemory;
use std::alloc::Global;
use std::marker::Model;

/// Areas, strictly rising.
#[derive(Drop)]
pub struct Set {
    areas: Vec<u32>,
}

impl Model for Set {
    ghost use Rattle.std.specs.Prelude.{List, ℕ};
    ghost use Rattle.agg_model.specs.Problem.{IsRising};

    ghost Value = { List ℕ };

    ghost view = { λ s. s.areas.items };

    ghost invariant = { λ s. IsRising s.areas.items };
}

/// An inequality that every feasible grouping keeps, where the row is in form: the sum of its entries is 0 or more.
#[derive(Drop)]
pub enum Row {
    /// The link joins two regions, or its near area has another class, or its far area has this class. Side 0 begins with the lesser area.
    Border { link: u32, side: u8, class: u8 },
    /// The area has another class, or a neighbour of the set has this class.
    Escape { area: u32, class: u8, set: Set },
}

ghost use Rattle.std.specs.Prelude.{◌≡◌, IfOk, IfSome, IfNone, IsTrue, ◌↔◌, ◌<◌, ◌≤◌, ℕ, length, slice_index};
ghost use Rattle.agg_model.specs.Problem.{IsRising};

impl Set {
    /// The set of these areas, or none exactly where they do not rise strictly. It takes no memory.
    pub fn of(areas: Vec<u32>) -> Option<Set>
        ensures found { IfSome result (λ set. set ≡ areas.items) }
        ensures none { IfNone result (¬ IsRising areas.items) }
    {
        if is_rising(&areas) {
            Some(Set { areas })
        } else {
            None
        }
    }

    /// The areas of the set, strictly rising.
    pub fn areas(&self) -> &[u32]
        ensures areas { result.now ≡ self.now }
        ensures rising { IsRising self.now }
    {
        &self.areas
    }

    /// The same set again. Its one refusal is want of memory.
    pub fn copy(&self, alloc: Global) -> Result<Set, NoMemory>
        ensures { IfOk result (λ set. set ≡ self.now) }
    {
        Ok(Set {
            areas: Vec::from_slice(alloc, &self.areas)?,
        })
    }
}

// Whether each area is greater than the one before it.
fn is_rising(areas: &[u32]) -> bool
    ensures { IsTrue result ↔ IsRising areas.now }
{
    for at in 1..areas.len() {
        if areas[at] <= areas[at - 1] {
            return false;
        }
    }
    true
}

impl Row {
    /// The same row again. Its one refusal is want of memory.
    pub fn copy(&self, alloc: Global) -> Result<Row, NoMemory>
        ensures { IfOk result (λ row. row ≡ self.now) }
    {
        Ok(match self {
            Row::Border { link, side, class } => Row::Border {
                link: *link,
                side: *side,
                class: *class,
            },
            Row::Escape { area, class, set } => Row::Escape {
                area: *area,
                class: *class,
                set: set.copy(alloc)?,
            },
        })
    }
}
