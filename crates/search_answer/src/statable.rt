// Offers of sums that a certificate can state.
ghost use Rattle.std.specs.Prelude.{◌≡◌, ◌↔◌, ◌+◌, ◌-◌, ◌^◌, ℕ, min, IfOk, IsTrue};
ghost use Rattle.agg_model.specs.Problem.{Problem};
ghost use Rattle.row_laws.specs.Values.{RowSum, Allowed, IsSoundSum};
ghost use Rattle.bound_rows.specs.Domains.{allows, IsFor};
ghost use Rattle.search_answer.specs.Offers.{AreStatable, FitsStatable};

use agg_base::NoMemory;
use agg_model::Problem;
use bound_rows::{BoundProvider, Domains, Row, RowSum};
use std::alloc::Global;

/// Offers what another provider does, where a certificate can state its multipliers, and else the sum without rows.
#[derive(Drop)]
pub(crate) struct Statable<P> {
    inner: P,
}

impl<P> Statable<P> {
    /// Offers what this provider does. It takes no memory.
    pub(crate) fn new(inner: P) -> Statable<P>
        ensures { result.inner ≡ inner }
    {
        Statable { inner }
    }
}

impl<P: BoundProvider> BoundProvider for Statable<P> {
    ghost asks = { λ statable. P.asks statable.inner };

    ghost fits = { λ statable p allowed share sum. FitsStatable p (P.fits statable.inner p allowed share) sum };

    fn offer(
        &mut self,
        alloc: Global,
        problem: &Problem,
        domains: &Domains,
        goal: i128,
        share: u64,
    ) -> Result<RowSum, NoMemory>
        requires { IsFor problem.now domains.now }
        ensures asks { P.asks self.new.inner ≡ min (P.asks self.old.inner + 1) (2 ^ 64 - 1) }
        ensures fits { (p : Problem) (allowed : Allowed) (n : ℕ) (s : RowSum) → FitsStatable p (P.fits self.new.inner p allowed n) s ↔ FitsStatable p (P.fits self.old.inner p allowed n) s }
        ensures offer { IfOk result (λ sum. FitsStatable problem.now (P.fits self.old.inner problem.now (allows domains.now) share) sum) }
    {
        let sum = self.inner.offer(alloc, problem, domains, goal, share)?;
        if are_statable(&sum.rows) {
            Ok(sum)
        } else {
            Ok(no_rows(alloc))
        }
    }

    fn hint(&self, problem: &Problem, domains: &Domains) -> Option<(u32, u8)> {
        self.inner.hint(problem, domains)
    }
}

// Whether each multiplier is one that a certificate can state.
fn are_statable(rows: &[(Row, i128)]) -> bool
    ensures stated { IsTrue result → AreStatable rows.now }
    ensures unsound { (p : Problem) (sum : RowSum) → sum.rows ≡ rows.now → IsSoundSum p sum → IsTrue result }
{
    for at in 0..rows.len() {
        let (_, multiplier) = &rows[at];
        if *multiplier < 0 {
            return false;
        }
    }
    true
}

// The sum without rows.
fn no_rows(alloc: Global) -> RowSum
    ensures { AreStatable result.rows }
{
    RowSum {
        denominator: 1,
        void: false,
        rows: Vec::new(alloc),
    }
}
