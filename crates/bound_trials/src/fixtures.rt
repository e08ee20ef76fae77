// Three areas, and the rows and domains that are tried on them.
ghost use Rattle.std.specs.Prelude.{◌≡◌, ◌<◌, ◌≤◌, ◌^◌, length, IfOk};
ghost use Rattle.agg_model.specs.Problem.{Problem, areas};
ghost use Rattle.bound_rows.specs.Domains.{IsFor};

use agg_model::{Link, Problem, ProblemParts};
use bound_rows::{Bound, Domains, LeafProof, Row, Scratch, Set, Weak};
use std::alloc::Global;
use std::test::Fail;

const fn link(a: u32, b: u32) -> Link {
    Link { a, b, length: 256 }
}

// Areas of own classes 0, 1 and 0 and weights of 2, with these links and thresholds of this weight. Two classes at distance 5, border weight 1.
fn three(alloc: Global, links: Vec<Link>, threshold: i128) -> Result<Problem, Fail>
    ensures { IfOk result (λ problem. (areas problem ≡ 3) × (problem.classes ≡ 2)) }
{
    let parts = ProblemParts {
        classes: 2,
        own: vec![in alloc; 0, 1, 0]?,
        weight: vec![in alloc; 2, 2, 2]?,
        links,
        distance: vec![in alloc; 0, 5, 5, 0]?,
        threshold: vec![in alloc; threshold, threshold]?,
        border: 1,
    };
    match Problem::of(parts) {
        Some(problem) => Ok(problem),
        None => Err(Fail::new("no problem")),
    }
}

// The areas in a row, with thresholds of 4.
pub(crate) fn row(alloc: Global) -> Result<Problem, Fail>
    ensures { IfOk result (λ problem. (areas problem ≡ 3) × (problem.classes ≡ 2)) }
{
    three(alloc, vec![in alloc; link(0, 1), link(1, 2)]?, 4)
}

// The areas each linked to each, with thresholds of 5.
pub(crate) fn triangle(alloc: Global) -> Result<Problem, Fail>
    ensures { IfOk result (λ problem. (areas problem ≡ 3) × (problem.classes ≡ 2)) }
{
    three(
        alloc,
        vec![in alloc; link(0, 1), link(0, 2), link(1, 2)]?,
        5,
    )
}

fn escape(alloc: Global, area: u32, class: u8, areas: &[u32]) -> Result<Row, Fail> {
    match Set::of(Vec::from_slice(alloc, areas)?) {
        Some(set) => Ok(Row::Escape { area, class, set }),
        None => Err(Fail::new("no set")),
    }
}

// Escape rows with their areas, classes, sets and multipliers, behind border rows with their links, sides, classes and multipliers.
pub(crate) fn rows(
    alloc: Global,
    borders: &[(u32, u8, u8, i128)],
    escapes: &[(u32, u8, &[u32], i128)],
) -> Result<Vec<(Row, i128)>, Fail> {
    let mut rows = Vec::new(alloc);
    for (link, side, class, multiplier) in borders {
        rows.push((
            Row::Border {
                link: *link,
                side: *side,
                class: *class,
            },
            *multiplier,
        ))?;
    }
    for (area, class, set, multiplier) in escapes {
        rows.push((escape(alloc, *area, *class, set)?, *multiplier))?;
    }
    Ok(rows)
}

// The area may have the class alone, which it may have beside another one.
pub(crate) fn only(domains: &mut Domains, area: u32, class: u8, other: u8) -> Result<(), Fail>
    requires area { area < length domains.old }
    requires class { class < 64 }
    requires other { other < 64 }
    ensures domains { (p : Problem) → IsFor p domains.old → IsFor p domains.new }
    ensures length { length domains.new ≡ length domains.old }
{
    if !domains.allows(area, class) {
        return Err(Fail::new("the class is not allowed"));
    }
    if !domains.allows(area, other) {
        return Err(Fail::new("the other class is not allowed"));
    }
    if class == other {
        return Err(Fail::new("no other class"));
    }
    domains.only(area, class);
    Ok(())
}

// What a leaf is worth, where it is sound.
pub(crate) fn worth<L: LeafProof>(
    alloc: Global,
    leaf: &L,
    problem: &Problem,
    domains: &Domains,
) -> Result<Result<Bound, Weak>, Fail>
    requires { IsFor problem.now domains.now }
{
    if leaf.sound(problem, domains).is_err() {
        return Err(Fail::new("unsound"));
    }
    let mut scratch = Scratch::new(alloc, problem)?;
    Ok(leaf.value(problem, domains, &mut scratch))
}
