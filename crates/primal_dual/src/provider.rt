// The provider.
ghost use Rattle.std.specs.Prelude.{◌≡◌, ◌↔◌, ◌+◌, ◌-◌, ◌^◌, ◌≤◌, ℕ, min, IfOk, IsTrue};
ghost use Rattle.agg_model.specs.Problem.{Problem};
ghost use Rattle.row_laws.specs.Values.{RowSum, Allowed};
ghost use Rattle.bound_rows.specs.Domains.{IsFor};
ghost use Rattle.primal_dual.specs.Offers.{IsWithin};

use crate::net::Net;
use crate::relaxation::Relaxation;
use crate::sums::no_rows;
use agg_base::NoMemory;
use agg_base::limits::MARKS;
use agg_model::Problem;
use bound_rows::{BoundProvider, Domains, LeafProof, RowSum, marks};
use std::alloc::Global;

// How many steps are taken for the domains of the root, for few areas and for many, and for other domains.
const FEW_STEPS: u32 = 3_000;

const MANY_STEPS: u32 = 1_500;

const NODE_STEPS: u32 = 200;

const MANY_AREAS: usize = 5_000;

// Fewer steps than these are of no use.
const LEAST_STEPS: u32 = 20;

// How many choices and flows all steps of the first run may move, and those of all later runs.
const FIRST_MOVES: u64 = 2_000_000_000;

const NODE_MOVES: u64 = 4_000_000_000;

/// Offers sums that are worth nearly the linear relaxation with its escape rows, which it finds by first-order steps in whole numbers. What it
/// offers is sound and has at most the share of marks, which is tested; how much it is worth is not promised. The same calls in the same order
/// give the same offers on every machine.
///
/// The work for one problem and one share is limited: the first offer takes 3,000 steps at most. For the later ones there are four thousand
/// million moves of single numbers, dealt out evenly over as many offers as a search makes that gives each leaf the share. Where too little falls
/// to each, or the share takes much off the first sum, the first sum is offered again.
#[derive(Drop)]
pub struct PrimalDual {
    asked: u64,
    // The relaxation of the last run, where the later ones begin as the first one ended.
    kept: Option<Kept>,
}

// A relaxation, the share of marks that its sums have, and how many steps each later run takes. Where that is none, the first sum is offered
// again.
#[derive(Drop)]
struct Kept {
    share: u64,
    steps: u32,
    again: Option<RowSum>,
    relaxation: Relaxation,
}

impl Kept {
    // The sum that is offered again, for a problem that looks the same and the same share.
    fn offered_again(&self, problem: &Problem, share: u64) -> Option<&RowSum> {
        let net = &self.relaxation.net;
        if self.share == share
            && net.areas == problem.areas() as usize
            && net.ties.len() == problem.links().len()
        {
            self.again.as_ref()
        } else {
            None
        }
    }
}

impl PrimalDual {
    /// Who was not asked yet. It takes no memory.
    pub fn new() -> PrimalDual
        ensures { result.asked ≡ 0 }
    {
        PrimalDual {
            asked: 0,
            kept: None,
        }
    }
}

impl BoundProvider for PrimalDual {
    ghost asks = { λ dual. dual.asked };

    ghost fits = { λ dual p allowed share sum. IsWithin p share sum };

    fn offer(
        &mut self,
        alloc: Global,
        problem: &Problem,
        domains: &Domains,
        goal: i128,
        share: u64,
    ) -> Result<RowSum, NoMemory>
        requires { IsFor problem.now domains.now }
        ensures asks { self.new.asked ≡ min (self.old.asked + 1) (2 ^ 64 - 1) }
        ensures offer { IfOk result (λ sum. IsWithin problem.now share sum) }
    {
        self.asked = self.asked.saturating_add(1);
        let sum = self.sum_for(alloc, problem, domains, goal, share)?;
        if is_within(&sum, problem, domains, share) {
            Ok(sum)
        } else {
            Ok(no_rows(alloc))
        }
    }

    fn hint(&self, _problem: &Problem, _domains: &Domains) -> Option<(u32, u8)> {
        match &self.kept {
            Some(kept) => kept.relaxation.hint(),
            None => None,
        }
    }
}

// Whether a sum is sound and has at most the share of marks.
fn is_within(sum: &RowSum, problem: &Problem, domains: &Domains, share: u64) -> bool
    requires { IsFor problem.now domains.now }
    ensures { IsTrue result → IsWithin problem.now share sum.now }
{
    marks(sum) <= share && sum.sound(problem, domains).is_ok()
}

impl PrimalDual {
    // What the steps find for the domains.
    fn sum_for(
        &mut self,
        alloc: Global,
        problem: &Problem,
        domains: &Domains,
        goal: i128,
        share: u64,
    ) -> Result<RowSum, NoMemory>
        requires { IsFor problem.now domains.now }
        ensures { self.new.asked ≡ self.old.asked }
    {
        if let Some(kept) = &self.kept {
            if let Some(sum) = kept.offered_again(problem, share) {
                return sum.copy(alloc);
            }
        }
        let net = Net::of(alloc, problem)?;
        match self.kept.take() {
            Some(kept) if kept.share == share && kept.relaxation.net.is_same(&net) => {
                self.later(alloc, problem, domains, goal, kept)
            }
            _ => self.first(alloc, problem, domains, goal, share, net),
        }
    }

    // The first sum for a problem and a share. Where the share is too small for it, the steps go on over what was kept of it.
    fn first(
        &mut self,
        alloc: Global,
        problem: &Problem,
        domains: &Domains,
        goal: i128,
        share: u64,
        net: Net,
    ) -> Result<RowSum, NoMemory>
        requires { IsFor problem.now domains.now }
        ensures { self.new.asked ≡ self.old.asked }
    {
        let steps = first_steps(&net);
        let mut relaxation = Relaxation::of(alloc, net)?;
        relaxation.open(problem, domains);
        relaxation.run(alloc, goal, steps)?;
        let whole = relaxation.best;
        if relaxation.thin(share) {
            relaxation.become_narrow(alloc)?;
            relaxation.run(alloc, goal, NODE_STEPS)?;
            let _ = relaxation.thin(share);
        }
        relaxation.keep_start();
        let sum = relaxation.sum(alloc)?;
        let steps = later_steps(&relaxation, whole, share);
        let again = if steps == 0 {
            Some(sum.copy(alloc)?)
        } else {
            None
        };
        self.kept = Some(Kept {
            share,
            steps,
            again,
            relaxation,
        });
        Ok(sum)
    }

    // A later sum for the same problem and share.
    fn later(
        &mut self,
        alloc: Global,
        problem: &Problem,
        domains: &Domains,
        goal: i128,
        kept: Kept,
    ) -> Result<RowSum, NoMemory>
        requires { IsFor problem.now domains.now }
        ensures { self.new.asked ≡ self.old.asked }
    {
        let mut kept = kept;
        let relaxation = &mut kept.relaxation;
        relaxation.open(problem, domains);
        relaxation.run(alloc, goal, kept.steps)?;
        let _ = relaxation.thin(kept.share);
        let sum = relaxation.sum(alloc)?;
        self.kept = Some(kept);
        Ok(sum)
    }
}

// How many steps the first run takes at most.
fn first_steps(net: &Net) -> u32 {
    let most = if net.areas < MANY_AREAS {
        FEW_STEPS
    } else {
        MANY_STEPS
    };
    most_steps(FIRST_MOVES, net).min(most)
}

// How many steps each later run takes at most. It is none where the share takes more than a hundredth off the sum, which no split wins back.
fn later_steps(relaxation: &Relaxation, whole: i128, share: u64) -> u32 {
    if whole.wrapping_sub(relaxation.best) > whole / 100 {
        0
    } else {
        node_steps(&relaxation.net, share)
    }
}

// How many steps each later run takes at most, where there are as many runs as a search makes that gives each leaf this share.
fn node_steps(net: &Net, share: u64) -> u32 {
    let leaves = MARKS.checked_div(share).unwrap_or(MARKS);
    let moves = NODE_MOVES / 2 / leaves.max(1);
    let steps = most_steps(moves, net);
    if steps < LEAST_STEPS {
        0
    } else {
        steps.min(NODE_STEPS)
    }
}

// How many steps make so many moves.
fn most_steps(moves: u64, net: &Net) -> u32 {
    let flows = (net.ties.len() as u64).saturating_mul(net.kinds() as u64);
    let each = flows.saturating_add(net.cost.len() as u64);
    let steps = moves.checked_div(each).unwrap_or(0);
    u32::try_from(steps).unwrap_or(u32::MAX)
}
