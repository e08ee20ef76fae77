// A search: the tree as far as it has grown, and the best grouping that was found.
ghost use Rattle.std.specs.Prelude.{◌≡◌, ◌+◌, ◌-◌, ◌*◌, ◌^◌, ◌≤◌, ◌⊎◌, ◌↔◌, ℕ, ℤ, ◌≤ℤ◌, ◌<ℤ◌, min, true, false, IfOk, IfSome, IfNone, Ok};
ghost use Rattle.agg_model.specs.Problem.{Problem, IsProblem, IsFeasible, cost};
ghost use Rattle.greedy_start.specs.Starts.{IsNumberedByLeast};
ghost use Rattle.row_laws.specs.Values.{Allowed, RowSum};
ghost use Rattle.row_laws.specs.Leaves.{IsSoundLeaf, leaf_answer};
ghost use Rattle.row_laws.specs.declared.leaf.Leaf.TheVariants.{Fixed};
ghost use Rattle.row_laws.specs.declared.bound.Bound.TheVariants.{Least};
ghost use Rattle.bound_rows.specs.Domains.{allows, IsFor};
ghost use Rattle.bound_rows.specs.Scratches.{IsScratchFor};
ghost use Rattle.branch_bound.specs.Tips.{is_below, is_open};
ghost use Rattle.branch_bound.specs.Growth.{shape_of};
ghost use Rattle.branch_bound.specs.Shapes.{rank_of, splits_in};
ghost use Rattle.branch_bound.specs.Trees.{IsTipOver, IsNoCheaper};
ghost use Rattle.branch_bound.specs.Searches.{IsBest, IsSearch};
ghost use Rattle.branch_bound.specs.Outcomes.{IsKindBy};

use crate::Kind;
use crate::components::component_grouping;
use crate::growth::Growth;
use crate::halves::{Halves, first_place, halves_of};
use crate::tips::{Rank, Tip};
use crate::tries::Tries;
use crate::values::{no_rows, tip_over};
use agg_base::NoMemory;
use agg_base::limits::DEPTH;
use agg_model::{Grouping, Problem, cost};
use bound_rows::{Bound, BoundProvider, Domains, Leaf, Scratch};
use greedy_start::cheaper_from;
use std::alloc::Global;

// A feasible grouping and what it costs, and what was tried to find a better one.
#[derive(Drop)]
pub(crate) struct Best {
    pub(crate) grouping: Grouping,
    pub(crate) cost: i128,
    pub(crate) tries: Tries,
}

// The domains of the root, the tree over them, the best grouping, and room for values.
#[derive(Drop)]
pub(crate) struct Search {
    pub(crate) whole: Domains,
    pub(crate) growth: Growth,
    pub(crate) best: Best,
    pub(crate) scratch: Scratch,
}

impl Best {
    // Takes the components of areas with one class each, where they cost less.
    fn improve(
        &mut self,
        alloc: Global,
        problem: &Problem,
        domains: &Domains,
        tip: &Tip,
    ) -> Result<(), NoMemory>
        requires rules { IsProblem problem.now }
        requires domains { IsFor problem.now domains.now }
        requires best { IsBest problem.now self.old }
        requires sound { IsSoundLeaf tip.now.leaf problem.now (allows domains.now) }
        requires worth { leaf_answer tip.now.leaf problem.now (allows domains.now) ≡ Ok tip.now.bound }
        ensures best { IfOk result (λ _. IsBest problem.now self.new) }
        ensures less { IfOk result (λ _. self.new.cost ≤ℤ self.old.cost) }
        ensures cheap { IfOk result (λ _. IsNoCheaper self.new.cost tip.now) }
    {
        let Some(cost) = fixed_cost(tip) else {
            return Ok(());
        };
        if cost >= self.cost {
            return Ok(());
        }
        self.grouping = component_grouping(alloc, problem, domains)?;
        self.cost = cost;
        Ok(())
    }

    // Takes what a search finds from the cheapest classes of the tip, where it costs less. It is made where the tip is worth less than the best
    // grouping costs, and where these classes are worth a try.
    fn attempt(
        &mut self,
        alloc: Global,
        problem: &Problem,
        domains: &Domains,
        tip: &Tip,
    ) -> Result<(), NoMemory>
        requires domains { IsFor problem.now domains.now }
        requires best { IsBest problem.now self.old }
        ensures best { IfOk result (λ _. IsBest problem.now self.new) }
        ensures less { IfOk result (λ _. self.new.cost ≤ℤ self.old.cost) }
    {
        let Leaf::Sum(sum) = &tip.leaf else {
            return Ok(());
        };
        if !is_below(tip.bound, self.cost) {
            return Ok(());
        }
        let classes = self
            .tries
            .classes(alloc, problem, domains, sum, &self.grouping)?;
        let Some(classes) = classes else {
            return Ok(());
        };
        self.improve_from(alloc, problem, classes)
    }

    // Takes what a search finds from these classes, where it costs less.
    fn improve_from(
        &mut self,
        alloc: Global,
        problem: &Problem,
        classes: Vec<u8>,
    ) -> Result<(), NoMemory>
        requires best { IsBest problem.now self.old }
        ensures best { IfOk result (λ _. IsBest problem.now self.new) }
        ensures less { IfOk result (λ _. self.new.cost ≤ℤ self.old.cost) }
    {
        let turns = self.tries.begin(problem, classes);
        let found = cheaper_from(alloc, problem, &self.grouping, self.tries.last(), turns)?;
        match found {
            None => Ok(()),
            Some(found) => {
                self.take(problem, found);
                Ok(())
            }
        }
    }

    // Takes a grouping that costs less.
    fn take(&mut self, problem: &Problem, found: Grouping)
        requires best { IsBest problem.now self.old }
        requires feasible { IsFeasible problem.now found }
        requires numbered { IsNumberedByLeast problem.now found }
        requires cheaper { cost problem.now found <ℤ cost problem.now self.old.grouping }
        ensures best { IsBest problem.now self.new }
        ensures less { self.new.cost ≤ℤ self.old.cost }
    {
        let price = cost(problem, &found);
        self.grouping = found;
        self.cost = price;
    }

    // The tip over domains, for which the provider is asked.
    fn ask<P: BoundProvider>(
        &mut self,
        alloc: Global,
        problem: &Problem,
        provider: &mut P,
        domains: &Domains,
        from: &Leaf,
        depth: u32,
        share: u64,
        scratch: &mut Scratch,
    ) -> Result<Tip, NoMemory>
        requires rules { IsProblem problem.now }
        requires domains { IsFor problem.now domains.now }
        requires shallow { depth ≤ DEPTH }
        requires best { IsBest problem.now self.old }
        requires scratch { IsScratchFor problem.now scratch.old }
        ensures scratch { IfOk result (λ _. IsScratchFor problem.now scratch.new) }
        ensures tip { IfOk result (λ tip. IsTipOver problem.now share (λ allowed sum. P.fits provider.old problem.now allowed share sum) from.now (allows domains.now) depth tip) }
        ensures best { IfOk result (λ _. IsBest problem.now self.new) }
        ensures less { IfOk result (λ _. self.new.cost ≤ℤ self.old.cost) }
        ensures cheap { IfOk result (λ tip. IsNoCheaper self.new.cost tip) }
        ensures asks { P.asks provider.new ≡ min (P.asks provider.old + 1) (2 ^ 64 - 1) }
        ensures fits { (p : Problem) (allowed : Allowed) (n : ℕ) (s : RowSum) → P.fits provider.new p allowed n s ↔ P.fits provider.old p allowed n s }
    {
        let sum = provider.offer(alloc, problem, domains, self.cost, share)?;
        let tip = tip_over(alloc, problem, domains, sum, from, depth, share, scratch)?;
        self.attempt(alloc, problem, domains, &tip)?;
        self.improve(alloc, problem, domains, &tip)?;
        Ok(tip)
    }
}

// What areas with one class each cost, where the tip is of such areas and they lack nothing.
fn fixed_cost(tip: &Tip) -> Option<i128>
    ensures fixed { IfSome result (λ _. tip.now.leaf ≡ Fixed) }
    ensures bound { IfSome result (λ cost. tip.now.bound ≡ Least cost) }
    ensures none { IfNone result ((c : ℤ) → IsNoCheaper c tip.now) }
{
    match (&tip.leaf, tip.bound) {
        (Leaf::Fixed, Bound::Least(cost)) => Some(cost),
        _ => None,
    }
}

impl Search {
    // A search that begins with this grouping, and has the root alone.
    pub(crate) fn of<P: BoundProvider>(
        alloc: Global,
        problem: &Problem,
        provider: &mut P,
        best: Best,
        share: u64,
    ) -> Result<Search, NoMemory>
        requires { IsBest problem.now best }
        ensures state { IfOk result (λ found. IsSearch problem.now share (λ allowed sum. P.fits provider.old problem.now allowed share sum) found) }
        ensures root { IfOk result (λ found. splits_in (shape_of found.growth) ≡ 0) }
        ensures asks { IfOk result (λ _. P.asks provider.new ≡ min (P.asks provider.old + 1) (2 ^ 64 - 1)) }
        ensures fits { (p : Problem) (allowed : Allowed) (n : ℕ) (s : RowSum) → P.fits provider.new p allowed n s ↔ P.fits provider.old p allowed n s }
    {
        let mut best = best;
        let whole = Domains::whole(alloc, problem)?;
        let mut scratch = Scratch::new(alloc, problem)?;
        let from = Leaf::Sum(no_rows(alloc));
        let tip = best.ask(
            alloc,
            problem,
            provider,
            &whole,
            &from,
            0,
            share,
            &mut scratch,
        )?;
        Ok(Search {
            whole,
            growth: Growth::of(tip),
            best,
            scratch,
        })
    }

    // Splits until the bound meets the cost, so many splits are made, or no tip of least bound may be split.
    pub(crate) fn run<P: BoundProvider>(
        &mut self,
        alloc: Global,
        problem: &Problem,
        provider: &mut P,
        splits: u32,
        share: u64,
    ) -> Result<(), NoMemory>
        requires state { IsSearch problem.now share (λ allowed sum. P.fits provider.old problem.now allowed share sum) self.old }
        requires root { splits_in (shape_of self.old.growth) ≡ 0 }
        requires bounded { P.asks provider.old ≤ 2 ^ 64 - 1 }
        ensures state { IfOk result (λ _. IsSearch problem.now share (λ allowed sum. P.fits provider.old problem.now allowed share sum) self.new) }
        ensures few { IfOk result (λ _. splits_in (shape_of self.new.growth) ≤ splits) }
        ensures end { IfOk result (λ _. (splits_in (shape_of self.new.growth) ≡ splits) ⊎ (is_open (rank_of (shape_of self.new.growth)) self.new.best.cost ≡ false)) }
        ensures asks { IfOk result (λ _. P.asks provider.new ≡ min (P.asks provider.old + 2 * splits_in (shape_of self.new.growth)) (2 ^ 64 - 1)) }
    {
        for done in 0..splits {
            if !is_open(self.growth.rank(), self.best.cost) {
                return Ok(());
            }
            self.split(alloc, problem, provider, share)?;
        }
        Ok(())
    }

    // The tip over domains, for which the provider is asked. The tree stays as it is.
    fn ask<P: BoundProvider>(
        &mut self,
        alloc: Global,
        problem: &Problem,
        provider: &mut P,
        domains: &Domains,
        from: &Leaf,
        depth: u32,
        share: u64,
    ) -> Result<Tip, NoMemory>
        requires rules { IsProblem problem.now }
        requires domains { IsFor problem.now domains.now }
        requires shallow { depth ≤ DEPTH }
        requires best { IsBest problem.now self.old.best }
        requires scratch { IsScratchFor problem.now self.old.scratch }
        ensures whole { IfOk result (λ _. self.new.whole ≡ self.old.whole) }
        ensures growth { IfOk result (λ _. self.new.growth ≡ self.old.growth) }
        ensures scratch { IfOk result (λ _. IsScratchFor problem.now self.new.scratch) }
        ensures tip { IfOk result (λ tip. IsTipOver problem.now share (λ allowed sum. P.fits provider.old problem.now allowed share sum) from.now (allows domains.now) depth tip) }
        ensures best { IfOk result (λ _. IsBest problem.now self.new.best) }
        ensures less { IfOk result (λ _. self.new.best.cost ≤ℤ self.old.best.cost) }
        ensures cheap { IfOk result (λ tip. IsNoCheaper self.new.best.cost tip) }
        ensures asks { P.asks provider.new ≡ min (P.asks provider.old + 1) (2 ^ 64 - 1) }
        ensures fits { (p : Problem) (allowed : Allowed) (n : ℕ) (s : RowSum) → P.fits provider.new p allowed n s ↔ P.fits provider.old p allowed n s }
    {
        self.best.ask(
            alloc,
            problem,
            provider,
            domains,
            from,
            depth,
            share,
            &mut self.scratch,
        )
    }

    // Splits the first tip.
    fn split<P: BoundProvider>(
        &mut self,
        alloc: Global,
        problem: &Problem,
        provider: &mut P,
        share: u64,
    ) -> Result<(), NoMemory>
        requires state { IsSearch problem.now share (λ allowed sum. P.fits provider.old problem.now allowed share sum) self.old }
        requires may_split { is_open (rank_of (shape_of self.old.growth)) self.old.best.cost ≡ true }
        ensures state { IfOk result (λ _. IsSearch problem.now share (λ allowed sum. P.fits provider.old problem.now allowed share sum) self.new) }
        ensures count { IfOk result (λ _. splits_in (shape_of self.new.growth) ≡ splits_in (shape_of self.old.growth) + 1) }
        ensures asks { IfOk result (λ _. P.asks provider.new ≡ min (P.asks provider.old + 2) (2 ^ 64 - 1)) }
        ensures fits { (p : Problem) (allowed : Allowed) (n : ℕ) (s : RowSum) → P.fits provider.new p allowed n s ↔ P.fits provider.old p allowed n s }
    {
        let place = first_place(alloc, problem, &self.whole, &self.growth)?;
        let halves = halves_of(alloc, problem, provider, place)?;
        let Halves {
            leaf,
            area,
            class,
            depth,
            with,
            rest,
        } = halves;
        let left = self.ask(alloc, problem, provider, &with, &leaf, depth, share)?;
        let right = self.ask(alloc, problem, provider, &rest, &leaf, depth, share)?;
        let fork = Growth::fork(alloc, area, class, left, right)?;
        self.growth.grow(fork);
        Ok(())
    }
}

// Whether the bound is below the cost.
fn is_below(bound: Bound, cost: i128) -> bool
    ensures { result ≡ is_below bound cost }
{
    match bound {
        Bound::Least(bound) => bound < cost,
        Bound::Void => false,
    }
}

// Whether a tip of this rank may be split and is worth less than the cost.
fn is_open(rank: Rank, cost: i128) -> bool
    ensures { result ≡ is_open rank cost }
{
    is_below(rank.bound, cost) && !rank.is_closed
}

// How the cost of the best stands to the bound of the first tip.
pub(crate) fn kind_of(best: Best, rank: Rank) -> Kind
    ensures { IsKindBy best.grouping best.cost rank result }
{
    let Best { grouping, cost, .. } = best;
    match rank.bound {
        Bound::Least(bound) if bound < cost => Kind::Within {
            best: grouping,
            cost,
            bound,
            deep: rank.is_closed,
        },
        _ => Kind::Optimal {
            best: grouping,
            cost,
        },
    }
}
