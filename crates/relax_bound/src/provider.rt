// The provider.
ghost use Rattle.std.specs.Prelude.{◌≡◌, ◌↔◌, ◌+◌, ◌-◌, ◌^◌, ◌<◌, ◌≤◌, ◌*◌, ℕ, min, IfOk, IsOk, length};
ghost use Rattle.agg_model.specs.Problem.{Problem};
ghost use Rattle.row_laws.specs.Values.{RowSum, Allowed};
ghost use Rattle.bound_rows.specs.Domains.{allows, IsFor};
ghost use Rattle.relax_bound.specs.Ascents.{IsAscent, AscentLaw};
ghost use Rattle.bound_rows.specs.Offers.{IsUsable};
ghost use Rattle.relax_bound.specs.Climbs.{sum_of};

use crate::climb::Climb;
use agg_base::NoMemory;
use agg_model::Problem;
use bound_rows::{BoundProvider, Domains, RowSum};
use std::alloc::Global;

/// Offers ascents: sums of border rows and of escape rows of one area, in cost mode over the denominator 1, in which each row gives a greater
/// total and is taken as far as each unit of its multiplier helps. An offer ends where no such row gives a greater total, where the total is 2^110
/// or more, where it has 16 rows for each area, or where 9 more marks would pass the share. So every offer is sound and has at most the share of
/// marks. It keeps nothing from one offer to the next: the same domains and share give the same offer.
#[derive(Drop)]
pub struct Ascent {
    asked: u64,
}

impl Ascent {
    /// Who was not asked yet. It takes no memory.
    pub fn new(_alloc: Global, _problem: &Problem) -> Result<Ascent, NoMemory>
        ensures fresh { IfOk result (λ ascent. ascent.asked ≡ 0) }
        ensures made { IsOk result }
    {
        Ok(Ascent { asked: 0 })
    }
}

impl BoundProvider for Ascent {
    ghost asks = { λ ascent. ascent.asked };

    ghost fits = { λ ascent p allowed share sum. IsAscent p allowed share sum };

    fn offer(
        &mut self,
        alloc: Global,
        problem: &Problem,
        domains: &Domains,
        _goal: i128,
        share: u64,
    ) -> Result<RowSum, NoMemory>
        requires { IsFor problem.now domains.now }
        ensures asks { self.new.asked ≡ min (self.old.asked + 1) (2 ^ 64 - 1) }
        ensures offer { IfOk result (λ sum. IsAscent problem.now (allows domains.now) share sum) }
        ensures usable { IfOk result (λ sum. IsUsable problem.now (allows domains.now) share sum) }
    {
        self.asked = self.asked.saturating_add(1);
        let mut climb = Climb::new(alloc, problem, domains)?;
        climb.rise(alloc, problem, domains, share)?;
        Ok(climb.into_sum())
    }
}

impl Climb {
    // The sum of the rows.
    fn into_sum(self) -> RowSum
        requires { length self.rows.items < 2 ^ 32 }
        ensures { result ≡ sum_of self.rows.items }
    {
        RowSum {
            denominator: 1,
            void: false,
            rows: self.rows,
        }
    }
}

/// Every ascent is sound, is not weak, and has at most the share of marks.
#[tactic(auto, using(crate::proofs::AscentLemmas::ascent_law))]
pub fn ascent_law()
    ensures { AscentLaw }
{}
