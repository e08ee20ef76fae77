// The better of two providers.
ghost use Rattle.std.specs.Prelude.{◌≡◌, ◌↔◌, ◌+◌, ◌-◌, ◌^◌, ℕ, Bool, true, IsTrue, min, IfOk};
ghost use Rattle.agg_model.specs.Problem.{Problem};
ghost use Rattle.row_laws.specs.Values.{RowSum, Allowed};
ghost use Rattle.bound_rows.specs.Domains.{allows, IsFor};
ghost use Rattle.bound_rows.specs.Offers.{IsValueOf, IsBest, FitsBetter, is_less, better_sum};
ghost use Rattle.bound_rows.specs.Scratches.{IsScratchFor};

use crate::provider::no_rows;
use crate::{Bound, BoundProvider, Domains, LeafProof, RowSum, Scratch, marks};
use agg_base::NoMemory;
use agg_model::Problem;
use std::alloc::Global;

/// Asks two providers, and offers the usable sum of greater value, that of the first at a tie. Where neither is usable it offers what `Plain`
/// does. A sum is usable where it is sound, not weak, and has at most the share of marks.
#[derive(Drop)]
pub struct Better<A, B> {
    a: A,
    b: B,
    asked: u64,
}

impl<A, B> Better<A, B> {
    /// The better of two, which was not asked yet. It takes no memory.
    pub fn new(a: A, b: B) -> Better<A, B>
        ensures asked { result.asked ≡ 0 }
        ensures first { result.a ≡ a }
        ensures second { result.b ≡ b }
    {
        Better { a, b, asked: 0 }
    }
}

impl<A: BoundProvider, B: BoundProvider> BoundProvider for Better<A, B> {
    ghost asks = { λ better. better.asked };

    ghost fits = { λ better p allowed share sum. FitsBetter p allowed share (A.fits better.a p allowed share) (B.fits better.b p allowed share) sum };

    fn offer(
        &mut self,
        alloc: Global,
        problem: &Problem,
        domains: &Domains,
        goal: i128,
        share: u64,
    ) -> Result<RowSum, NoMemory>
        requires { IsFor problem.now domains.now }
        ensures asks { self.new.asked ≡ min (self.old.asked + 1) (2 ^ 64 - 1) }
        ensures asked { IfOk result (λ _. (A.asks self.new.a ≡ min (A.asks self.old.a + 1) (2 ^ 64 - 1)) × (B.asks self.new.b ≡ min (B.asks self.old.b + 1) (2 ^ 64 - 1))) }
        ensures fits { (p : Problem) (allowed : Allowed) (n : ℕ) (s : RowSum) → FitsBetter p allowed n (A.fits self.new.a p allowed n) (B.fits self.new.b p allowed n) s ↔ FitsBetter p allowed n (A.fits self.old.a p allowed n) (B.fits self.old.b p allowed n) s }
        ensures offer { IfOk result (λ sum. FitsBetter problem.now (allows domains.now) share (A.fits self.old.a problem.now (allows domains.now) share) (B.fits self.old.b problem.now (allows domains.now) share) sum) }
        ensures best { IfOk result (λ sum. IsBest problem.now (allows domains.now) share (A.fits self.old.a problem.now (allows domains.now) share) (B.fits self.old.b problem.now (allows domains.now) share) sum) }
    {
        self.asked = self.asked.saturating_add(1);
        let first = self.a.offer(alloc, problem, domains, goal, share)?;
        let second = self.b.offer(alloc, problem, domains, goal, share)?;
        let mut scratch = Scratch::new(alloc, problem)?;
        let x = usable_value(&first, problem, domains, share, &mut scratch);
        let y = usable_value(&second, problem, domains, share, &mut scratch);
        Ok(better_of(alloc, first, second, x, y))
    }

    fn hint(&self, problem: &Problem, domains: &Domains) -> Option<(u32, u8)> {
        match self.a.hint(problem, domains) {
            None => self.b.hint(problem, domains),
            some => some,
        }
    }
}

// What a sum is worth, where it is usable.
fn usable_value(
    sum: &RowSum,
    problem: &Problem,
    domains: &Domains,
    share: u64,
    scratch: &mut Scratch,
) -> Option<Bound>
    requires domains { IsFor problem.now domains.now }
    requires scratch { IsScratchFor problem.now scratch.old }
    ensures scratch { IsScratchFor problem.now scratch.new }
    ensures value { IsValueOf problem.now (allows domains.now) share sum.now result }
{
    if marks(sum) > share {
        return None;
    }
    if sum.sound(problem, domains).is_err() {
        return None;
    }
    match sum.value(problem, domains, scratch) {
        Ok(bound) => Some(bound),
        Err(_) => None,
    }
}

// The sum of greater value, the first at a tie, or that without rows where neither has one.
fn better_of(
    alloc: Global,
    first: RowSum,
    second: RowSum,
    x: Option<Bound>,
    y: Option<Bound>,
) -> RowSum
    ensures { result ≡ better_sum first second x y }
{
    match (x, y) {
        (None, None) => no_rows(alloc),
        (Some(_), None) => first,
        (None, Some(_)) => second,
        (Some(x), Some(y)) => { if is_less(x, y) { second } else { first } }
    }
}

// Whether the first bound is less than the second, where a void one is greater than every number.
fn is_less(x: Bound, y: Bound) -> bool
    ensures { result ≡ is_less x y }
{
    match (x, y) {
        (Bound::Void, _) => false,
        (Bound::Least(_), Bound::Void) => true,
        (Bound::Least(x), Bound::Least(y)) => x < y,
    }
}
