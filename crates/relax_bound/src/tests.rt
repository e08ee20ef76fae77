// Small problems whose ascents are worked by hand.
ghost use Rattle.std.specs.Prelude.{◌≡◌, ◌<◌, IfOk, ℕ, length};
ghost use Rattle.agg_model.specs.Problem.{Problem, areas};
ghost use Rattle.bound_rows.specs.Domains.{IsFor};

use crate::Ascent;
use agg_model::{Link, Problem, ProblemParts};
use bound_rows::{Bound, BoundProvider, Domains, LeafProof, RowSum, Scratch, marks};
use std::alloc::Global;
use std::process::Abort;
use std::test::Fail;

const fn link(a: u32, b: u32) -> Link {
    Link { a, b, length: 256 }
}

// Cells of these classes and weights with these links. Two classes at this distance, thresholds of 4, border weight 1.
fn cells(
    rt: &impl Abort,
    own: Vec<u8>,
    weight: Vec<i128>,
    links: Vec<Link>,
    distance: Vec<u32>,
    threshold: Vec<i128>,
) -> Result<Problem, Fail>
    ensures { IfOk result (λ problem. areas problem ≡ length own.items) }
{
    let parts = ProblemParts {
        classes: 2,
        own,
        weight,
        links,
        distance,
        threshold,
        border: 1,
    };
    Ok(Problem::of(parts).expect(rt, "a problem"))
}

// Three cells of the classes 0, 1, 0 in a row: one region of class 0 costs 10.
fn row(rt: &impl Abort, alloc: Global) -> Result<Problem, Fail>
    ensures { IfOk result (λ problem. areas problem ≡ 3) }
{
    cells(
        rt,
        vec![in alloc; 0, 1, 0]?,
        vec![in alloc; 2, 2, 2]?,
        vec![in alloc; link(0, 1), link(1, 2)]?,
        vec![in alloc; 0, 5, 5, 0]?,
        vec![in alloc; 4, 4]?,
    )
}

// What is offered for the domains of the root, and what it is worth.
fn offered(
    rt: &impl Abort,
    alloc: Global,
    problem: &Problem,
    share: u64,
) -> Result<(RowSum, Bound), Fail> {
    let domains = Domains::whole(alloc, problem)?;
    offered_over(rt, alloc, problem, &domains, share)
}

// What is offered for domains, and what it is worth.
fn offered_over(
    rt: &impl Abort,
    alloc: Global,
    problem: &Problem,
    domains: &Domains,
    share: u64,
) -> Result<(RowSum, Bound), Fail>
    requires { IsFor problem.now domains.now }
{
    let mut provider = Ascent::new(alloc, problem)?;
    let sum = provider.offer(alloc, problem, domains, 1_000_000, share)?;
    let mut scratch = Scratch::new(alloc, problem)?;
    assert!(rt; sum.sound(problem, domains).is_ok());
    assert!(rt; marks(&sum) <= share);
    let value = sum
        .value(problem, domains, &mut scratch)
        .ok()
        .expect(rt, "a value");
    Ok((sum, value))
}

// One cell that is too small may not keep its class without a neighbour of that class.
#[test]
fn offers_what_the_best_grouping_costs(rt: HostRuntime) -> Result<(), Fail> {
    let alloc = rt.alloc();
    let problem = row(&rt, alloc)?;
    let (sum, value) = offered(&rt, alloc, &problem, 1_000)?;
    assert_eq!(rt; value, Bound::Least(10));
    assert_eq!(rt; sum.rows.len(), 1);
    Ok(())
}

// A share of 9 marks has room for one row, one of 8 for none.
#[test]
fn offers_no_row_beyond_the_share(rt: HostRuntime) -> Result<(), Fail> {
    let alloc = rt.alloc();
    let problem = row(&rt, alloc)?;
    let (_, value) = offered(&rt, alloc, &problem, 9)?;
    assert_eq!(rt; value, Bound::Least(10));
    let (sum, value) = offered(&rt, alloc, &problem, 8)?;
    assert_eq!(rt; value, Bound::Least(0));
    assert_eq!(rt; sum.rows.len(), 0);
    Ok(())
}

// A cell without links that is too small for both classes: its row raises the own class to the cost of the other one, and then no row helps.
#[test]
fn one_cell_alone(rt: HostRuntime) -> Result<(), Fail> {
    let alloc = rt.alloc();
    let problem = cells(
        &rt,
        vec![in alloc; 0]?,
        vec![in alloc; 2]?,
        Vec::new(alloc),
        vec![in alloc; 0, 5, 5, 0]?,
        vec![in alloc; 4, 4]?,
    )?;
    let (sum, value) = offered(&rt, alloc, &problem, 1_000)?;
    assert_eq!(rt; value, Bound::Least(10));
    assert_eq!(rt; sum.rows.len(), 1);
    Ok(())
}

// Two heavy cells side by side, each large enough for its class: no escape row is in form for the own class, and no border row helps beyond the
// cost of the link, which both sides pay for together.
#[test]
fn two_large_cells(rt: HostRuntime) -> Result<(), Fail> {
    let alloc = rt.alloc();
    let problem = cells(
        &rt,
        vec![in alloc; 0, 1]?,
        vec![in alloc;
            39_614_081_257_132_168_796_771_975_168,
            39_614_081_257_132_168_796_771_975_168,
        ]?,
        vec![in alloc; link(0, 1)]?,
        vec![in alloc; 0, 10_000, 10_000, 0]?,
        vec![in alloc; 4, 4]?,
    )?;
    let (_, value) = offered(&rt, alloc, &problem, 1_000)?;
    assert_eq!(rt; value, Bound::Least(256));
    Ok(())
}

// The area may have the class alone, which it may have beside another one.
fn only(domains: &mut Domains, area: u32, class: u8, other: u8) -> Result<(), Fail>
    requires area { area < length domains.old }
    requires class { class < 64 }
    requires other { other < 64 }
    ensures domains { (p : Problem) → IsFor p domains.old → IsFor p domains.new }
    ensures length { length domains.new ≡ length domains.old }
{
    if !domains.allows(area, class) {
        return Err(Fail::new("the class is not allowed"));
    }
    if !domains.allows(area, other) {
        return Err(Fail::new("the other class is not allowed"));
    }
    if class == other {
        return Err(Fail::new("no other class"));
    }
    domains.only(area, class);
    Ok(())
}

// Where each cell of the row may have its own class alone, the first one has no region: its row is taken as far as any row may be.
#[test]
fn single_classes(rt: HostRuntime) -> Result<(), Fail> {
    let alloc = rt.alloc();
    let problem = row(&rt, alloc)?;
    let mut domains = Domains::whole(alloc, &problem)?;
    only(&mut domains, 0, 0, 1)?;
    only(&mut domains, 1, 1, 0)?;
    only(&mut domains, 2, 0, 1)?;
    let (sum, value) = offered_over(&rt, alloc, &problem, &domains, 1_000)?;
    assert_eq!(rt; value, Bound::Least(1 << 111));
    assert_eq!(rt; sum.rows.len(), 1);
    Ok(())
}
