// A leaf that proves what holds of every problem.
ghost use Rattle.std.specs.Prelude.{pos, Ok};
ghost use Rattle.row_laws.specs.declared.bound.Bound.TheVariants.{Least};

use agg_model::Problem;
use bound_rows::{Bound, Domains, LeafProof, Scratch, Unsound, Weak};

/// Proves that nothing costs less than 0, over all domains of every problem.
#[derive(Drop)]
pub struct Nothing {}

impl LeafProof for Nothing {
    ghost use Rattle.std.specs.Prelude.{refl};
    ghost use Rattle.row_laws.proofs.FloorLemmas.{floor_law};

    ghost sound_at = { λ _ _ _. Unit {0} };

    ghost fault_at = { λ _ _ _ _. ⊥ };

    ghost answer_at = { λ _ _ _. Ok (Least (pos 0)) };

    ghost holds = { λ _ p allowed b ok _ e. floor_law p allowed b (Ok (Least (pos 0))) refl e ok };

    fn sound(&self, _problem: &Problem, _domains: &Domains) -> Result<(), Unsound> {
        Ok(())
    }

    fn value(
        &self,
        _problem: &Problem,
        _domains: &Domains,
        _scratch: &mut Scratch,
    ) -> Result<Bound, Weak> {
        Ok(Bound::Least(0))
    }
}
