// Members in sets, as a forest: each member has one above it in its set, or is the least of its set.
use crate::steps::{flatten, join, singles, stand_alone, top_of};
use agg_base::NoMemory;
use std::alloc::Global;
use std::marker::Model;

/// The members 0, 1, 2 and so on, in sets. Contracts see for each member the least member of its set.
///
/// Walks to the least member halve the way for later ones, so n members and m joins take at most some (n + m) log n steps.
#[derive(Drop)]
pub struct Forest {
    above: Vec<u32>,
}

impl Model for Forest {
    ghost use Rattle.std.specs.Prelude.{ℕ, List};
    ghost use Rattle.union_find.specs.Steps.{AreSteps, tops};

    ghost Value = { List ℕ };

    ghost view = { λ f. tops f.above.items };

    ghost invariant = { λ f. AreSteps f.above.items };
}

ghost use Rattle.std.specs.Prelude.{ℕ, ◌≡◌, ◌<◌, ◌≤◌, ◌^◌, List, [], ◌∷◌, IfOk, EachIndex, length, slice_index, vec_len};
ghost use Rattle.union_find.specs.Sets.{AreSets, SetsLaw};
ghost use Rattle.union_find.specs.Steps.{merge};

impl Forest {
    /// So many members, each in a set of its own. Its one refusal is want of memory.
    pub fn of(alloc: Global, members: u32) -> Result<Forest, NoMemory>
        ensures members { IfOk result (λ forest. length forest ≡ members) }
        ensures sets { IfOk result (λ forest. AreSets [] forest) }
    {
        Ok(Forest {
            above: singles(alloc, members)?,
        })
    }

    /// As many members as there are numbers, each in a set of its own. It takes over the numbers' memory, whatever they are.
    pub fn over(numbers: Vec<u32>) -> Forest
        requires { vec_len numbers ≤ 2 ^ 32 }
        ensures members { length result ≡ vec_len numbers }
        ensures sets { AreSets [] result }
    {
        let mut above = numbers;
        stand_alone(&mut above);
        Forest { above }
    }

    /// Puts each member into a set of its own again. It takes no memory.
    pub fn reset(&mut self)
        ensures members { length self.new ≡ length self.old }
        ensures sets { AreSets [] self.new }
    {
        stand_alone(&mut self.above);
    }

    /// Joins the sets of two members.
    pub fn join(&mut self, a: u32, b: u32)
        requires a { a < length self.old }
        requires b { b < length self.old }
        ensures members { length self.new ≡ length self.old }
        ensures sets { (pairs : List (ℕ × ℕ)) → AreSets pairs self.old → AreSets ((a, b) ∷ pairs) self.new }
        ensures merged { EachIndex self.old (λ v. slice_index self.new v ≡ merge (slice_index self.old a) (slice_index self.old b) (slice_index self.old v)) }
    {
        join(&mut self.above, a, b);
    }

    /// The least member of a member's set. The sets stay, and later calls find a shorter way. It takes no memory.
    pub fn least(&mut self, member: u32) -> u32
        requires { member < length self.old }
        ensures least { result ≡ slice_index self.old member }
        ensures sets { self.new ≡ self.old }
    {
        top_of(&mut self.above, member)
    }

    /// For each member, the least member of its set.
    pub fn least_members(self) -> Vec<u32>
        ensures { result.items ≡ self }
    {
        let mut above = self.above;
        flatten(&mut above);
        above
    }
}

/// Two members have one least member exactly where a walk along joined pairs leads from one to the other.
pub fn sets_law()
    ensures { SetsLaw }
{}
