// Who offers sums of rows.
ghost use Rattle.std.specs.Prelude.{◌≡◌, ◌↔◌, ◌+◌, ◌-◌, ◌^◌, ℕ, min, IfOk, Ok};
ghost use Rattle.agg_model.specs.Problem.{Problem};
ghost use Rattle.row_laws.specs.Values.{RowSum, Allowed};
ghost use Rattle.bound_rows.specs.Domains.{allows, IsFor};
ghost use Rattle.row_laws.specs.FirstSums.{plain_sum};

use crate::{Domains, RowSum};
use agg_base::NoMemory;
use agg_model::Problem;
use std::alloc::Global;

/// Who offers sums of rows. An offer need not be sound: who takes it tests it.
pub trait BoundProvider {
    /// How often it was asked. At 2^64 - 1 it stays.
    ghost asks: { Self → ℕ };

    /// Which sums it may offer for a problem, domains and a share of marks.
    ghost fits: { Self → Problem → Allowed → ℕ → RowSum → Type 0 };

    /// A sum for the domains. The goal is a hint: the cost of the best grouping known, or 2^110 where none is known. Its one refusal is want of
    /// memory, and that counts as asked too.
    fn offer(
        &mut self,
        alloc: Global,
        problem: &Problem,
        domains: &Domains,
        goal: i128,
        share: u64,
    ) -> Result<RowSum, NoMemory>
        requires { IsFor problem.now domains.now }
        ensures asks { asks self.new ≡ min (asks self.old + 1) (2 ^ 64 - 1) }
        ensures fits { (p : Problem) (allowed : Allowed) (n : ℕ) (s : RowSum) → fits self.new p allowed n s ↔ fits self.old p allowed n s }
        ensures offer { IfOk result (λ sum. fits self.old problem.now (allows domains.now) share sum) };

    /// An area and a class to split on, as a hint on which nothing rests. Most have none.
    fn hint(&self, _problem: &Problem, _domains: &Domains) -> Option<(u32, u8)> {
        None
    }
}

/// Offers the sum without rows in cost mode, over the denominator 1. It takes no memory.
#[derive(Drop)]
pub struct Plain {
    asked: u64,
}

impl Plain {
    /// Who was not asked yet.
    pub fn new() -> Plain
        ensures { result.asked ≡ 0 }
    {
        Plain { asked: 0 }
    }
}

impl BoundProvider for Plain {
    ghost asks = { λ plain. plain.asked };

    ghost fits = { λ plain p allowed share sum. sum ≡ plain_sum };

    fn offer(
        &mut self,
        alloc: Global,
        _problem: &Problem,
        _domains: &Domains,
        _goal: i128,
        _share: u64,
    ) -> Result<RowSum, NoMemory>
        ensures asks { self.new.asked ≡ min (self.old.asked + 1) (2 ^ 64 - 1) }
        ensures offer { result ≡ Ok plain_sum }
    {
        self.asked = self.asked.saturating_add(1);
        Ok(no_rows(alloc))
    }
}

// The sum without rows.
pub(crate) fn no_rows(alloc: Global) -> RowSum
    ensures { result ≡ plain_sum }
{
    RowSum {
        denominator: 1,
        void: false,
        rows: Vec::new(alloc),
    }
}
