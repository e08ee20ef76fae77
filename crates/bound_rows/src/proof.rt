// What a leaf must prove, and what trees over such leaves then prove.
ghost use Rattle.std.specs.Prelude.{◌≡◌, ◌↔◌, IsOk, IfErr, Result};
ghost use Rattle.agg_model.specs.Problem.{Problem};
ghost use Rattle.row_laws.specs.Values.{Allowed};
ghost use Rattle.row_laws.specs.declared.bound.Bound.{Bound};
ghost use Rattle.row_laws.specs.declared.bound.Weak.{Weak};
ghost use Rattle.row_laws.specs.declared.bound.Unsound.{Unsound};
ghost use Rattle.row_laws.specs.Trees.{LeafLaw, TreeLaw};
ghost use Rattle.bound_rows.specs.Domains.{allows, IsFor};
ghost use Rattle.bound_rows.specs.Scratches.{IsScratchFor, IsForSame};

use crate::{Bound, Domains, Scratch, Unsound, Weak};
use agg_model::Problem;

/// What proves a bound of each feasible grouping inside domains.
pub trait LeafProof {
    /// Whether the leaf may be relied on over these domains.
    ghost sound_at: { Self → Problem → Allowed → Type 0 };

    /// Which fault is the first of a leaf that may not be relied on.
    ghost fault_at: { Self → Problem → Allowed → Unsound → Type 0 };

    /// What a sound leaf is worth over these domains, or why it is weak.
    ghost answer_at: { Self → Problem → Allowed → Result Bound Weak };

    /// Whether the leaf may be relied on, or its first fault. It takes no memory.
    fn sound(&self, problem: &Problem, domains: &Domains) -> Result<(), Unsound>
        requires { IsFor problem.now domains.now }
        ensures sound { IsOk result ↔ sound_at self.now problem.now (allows domains.now) }
        ensures fault { IfErr result (fault_at self.now problem.now (allows domains.now)) };

    /// What the leaf is worth, or why it is weak. The scratch is afterwards for the same problems as before; nothing else of its contents is
    /// promised. It takes no memory.
    fn value(
        &self,
        problem: &Problem,
        domains: &Domains,
        scratch: &mut Scratch,
    ) -> Result<Bound, Weak>
        requires sound { sound_at self.now problem.now (allows domains.now) }
        requires domains { IsFor problem.now domains.now }
        requires scratch { IsScratchFor problem.now scratch.old }
        ensures scratch { IsScratchFor problem.now scratch.new }
        ensures same { IsForSame scratch.old scratch.new }
        ensures value { result ≡ answer_at self.now problem.now (allows domains.now) };

    /// A sound leaf's value holds of every feasible grouping inside the domains.
    ghost holds: { LeafLaw sound_at answer_at };
}

/// A sound tree has a bound, and it holds of every feasible grouping inside the domains: each costs at least the bound, and there is none
/// where the bound is void.
pub fn tree_law<L: LeafProof>()
    ensures { TreeLaw L.sound_at L.answer_at }
{}
