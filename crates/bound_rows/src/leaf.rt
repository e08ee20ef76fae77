// What sums and single classes prove.
ghost use Rattle.std.specs.Prelude.{◌≡◌, ◌↔◌, ◌<◌, ℕ, IsOk, IfErr, length, slice_index};
ghost use Rattle.agg_model.specs.Problem.{Problem, areas};
ghost use Rattle.row_laws.specs.Fixed.{AreSingle, IsFixedFault, fixed_value, kind_in};
ghost use Rattle.bound_rows.specs.Domains.{allows, IsFor};
ghost use Rattle.bound_rows.specs.Scratches.{IsScratchFor};

use crate::{Bound, Domains, Leaf, LeafProof, Scratch, Unsound, Weak};
use agg_model::Problem;
use fixed_value::fixed_value;

impl LeafProof for Leaf {
    ghost use Rattle.row_laws.specs.Leaves.{IsSoundLeaf, IsLeafFault, leaf_answer};
    ghost use Rattle.row_laws.proofs.LeafLemmas.{leaf_law};

    ghost sound_at = { λ leaf p allowed. IsSoundLeaf leaf p allowed };

    ghost fault_at = { λ leaf p allowed fault. IsLeafFault leaf p allowed fault };

    ghost answer_at = { λ leaf p allowed. leaf_answer leaf p allowed };

    ghost holds = { λ leaf p allowed b ok sound e. leaf_law leaf p allowed b ok sound e };

    fn sound(&self, problem: &Problem, domains: &Domains) -> Result<(), Unsound> {
        match self {
            Leaf::Sum(sum) => sum.sound(problem, domains),
            Leaf::Fixed => single_areas(problem, domains),
        }
    }

    fn value(
        &self,
        problem: &Problem,
        domains: &Domains,
        scratch: &mut Scratch,
    ) -> Result<Bound, Weak> {
        match self {
            Leaf::Sum(sum) => sum.value(problem, domains, scratch),
            Leaf::Fixed => Ok(scratch.single_value(problem, domains)),
        }
    }
}

impl Scratch {
    // What areas with one class each are worth.
    fn single_value(&mut self, problem: &Problem, domains: &Domains) -> Bound
        requires single { AreSingle problem.now (allows domains.now) (areas problem.now) }
        requires domains { IsFor problem.now domains.now }
        requires scratch { IsScratchFor problem.now self.old }
        ensures scratch { IsScratchFor problem.now self.new }
        ensures ways { self.new.ways ≡ self.old.ways }
        ensures value { result ≡ fixed_value problem.now (kind_in problem.now (allows domains.now)) }
    {
        take_kinds(&mut self.kinds, problem, domains);
        fixed_value(problem, &self.kinds, &mut self.room)
    }
}

// Whether each area has one allowed class, or the least area that has not.
fn single_areas(problem: &Problem, domains: &Domains) -> Result<(), Unsound>
    requires { IsFor problem.now domains.now }
    ensures sound { IsOk result ↔ AreSingle problem.now (allows domains.now) (areas problem.now) }
    ensures fault { IfErr result (IsFixedFault problem.now (allows domains.now)) }
{
    for area in 0..problem.areas() {
        if !domains.single(area) {
            return Err(Unsound::NotFixed { area });
        }
    }
    Ok(())
}

// The one class of each area.
fn take_kinds(kinds: &mut [u8], problem: &Problem, domains: &Domains)
    requires count { length kinds.old ≡ areas problem.now }
    requires domains { IsFor problem.now domains.now }
    requires single { AreSingle problem.now (allows domains.now) (areas problem.now) }
    ensures { (v : ℕ) → v < areas problem.now → slice_index kinds.new v ≡ kind_in problem.now (allows domains.now) v }
{
    for area in 0..problem.areas() {
        kinds[area as usize] = domains.kind(area);
    }
}
