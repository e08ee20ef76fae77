// The rules of a problem, each tested by one function.
ghost use Rattle.std.specs.Prelude.{ℕ, ◌≡◌, ◌↔◌, ◌<◌, ◌≤◌, ◌*◌, ◌+◌, ◌^◌, suc, pos, ◌≤ℤ◌, ◌<ℤ◌, ◌*ℤ◌, ◌+ℤ◌, IsTrue, IfSome, IfNone, EachIndex, length, slice_index, slice_index_or};
ghost use Rattle.whole_ring.specs.Sums.{sum_below};
ghost use Rattle.agg_model.specs.Problem.{IsProblem};
ghost use Rattle.agg_model.specs.Rules.{HasCounts, HasLengths, IsGoodLink, IsBelow, IsLight, IsTooMuch, link_in, length_in, weight_in, all_weights, all_lengths};

use crate::{Link, ProblemParts};
use agg_base::limits::{AREAS, CLASSES, LINKS};

/// The greatest sum of all weights and lengths: 10,000 times as much is below 2^110.
const GREATEST_SUM: i128 = ((1 << 110) - 1) / 10_000;

/// The greatest threshold, 10^30.
const GREATEST_THRESHOLD: i128 = 1_000_000_000_000_000_000_000_000_000_000;

/// Whether the parts keep every rule of a problem.
pub(crate) fn is_problem(parts: &ProblemParts) -> bool
    ensures { IsTrue result ↔ IsProblem parts.now }
{
    if !has_counts(parts) || !has_lengths(parts) {
        return false;
    }
    let classes = parts.classes;
    let areas = parts.own.len() as u32;
    if !are_below(&parts.own, classes) || !are_heavy(&parts.weight) {
        return false;
    }
    if !are_good_links(&parts.links, areas) || !are_rising(&parts.links) {
        return false;
    }
    if !are_near(&parts.distance) || !are_zero_to_themselves(&parts.distance, classes) {
        return false;
    }
    if !are_thresholds(&parts.threshold) {
        return false;
    }
    is_light(&parts.weight, &parts.links)
}

// Whether the numbers of classes, areas and links and the border weight are in range.
fn has_counts(parts: &ProblemParts) -> bool
    ensures { IsTrue result ↔ HasCounts parts.now }
{
    let areas = parts.own.len();
    let links = parts.links.len();
    let few_classes = parts.classes >= 1 && parts.classes as usize <= CLASSES;
    few_classes && areas <= AREAS && links <= LINKS && parts.border <= 10_000
}

// Whether each list has as many entries as it should.
fn has_lengths(parts: &ProblemParts) -> bool
    ensures { IsTrue result ↔ HasLengths parts.now }
{
    let classes = parts.classes as usize;
    parts.weight.len() == parts.own.len()
        && parts.threshold.len() == classes
        && parts.distance.len() == classes * classes
}

// Whether all numbers are below the bound.
pub(crate) fn are_below(numbers: &[u8], bound: u8) -> bool
    ensures { IsTrue result ↔ EachIndex numbers.now (λ i. slice_index numbers.now i < bound) }
{
    numbers.iter().all(|number| *number < bound)
}

// Whether all weights are 1 or more.
fn are_heavy(weight: &[i128]) -> bool
    ensures { IsTrue result ↔ EachIndex weight.now (λ v. pos 1 ≤ℤ weight_in weight.now v) }
{
    weight.iter().all(|one| *one >= 1)
}

// Whether a link leads from a lesser area to a greater one that exists, and its length is 0 or more.
fn is_good_link(link: Link, areas: u32) -> bool
    ensures { IsTrue result ↔ IsGoodLink areas link }
{
    link.a < link.b && link.b < areas && link.length >= 0
}

// Whether all links are good.
fn are_good_links(links: &[Link], areas: u32) -> bool
    ensures { IsTrue result ↔ EachIndex links.now (λ l. IsGoodLink areas (link_in links.now l)) }
{
    links.iter().all(|link| is_good_link(*link, areas))
}

// Whether one link comes before the other, by the lesser areas and then by the greater ones.
fn is_before(one: Link, other: Link) -> bool
    ensures { IsTrue result ↔ IsBelow one other }
{
    one.a < other.a || one.a == other.a && one.b < other.b
}

// Whether each link comes before the next.
fn are_rising(links: &[Link]) -> bool
    ensures { IsTrue result ↔ ((l : ℕ) → suc l < length links.now → IsBelow (link_in links.now l) (link_in links.now (suc l))) }
{
    for next in 1..links.len() {
        if !is_before(links[next - 1], links[next]) {
            return false;
        }
    }
    true
}

// Whether no distance is above 10,000.
fn are_near(distance: &[u32]) -> bool
    ensures { IsTrue result ↔ EachIndex distance.now (λ i. slice_index distance.now i ≤ 10000) }
{
    distance.iter().all(|one| *one <= 10_000)
}

// Whether the distance from each class to itself is 0.
fn are_zero_to_themselves(distance: &[u32], classes: u8) -> bool
    requires { length distance.now ≡ classes * classes }
    ensures { IsTrue result ↔ ((k : ℕ) → k < classes → slice_index distance.now (k * classes + k) ≡ 0) }
{
    for class in 0..classes {
        if distance[class as usize * classes as usize + class as usize] != 0 {
            return false;
        }
    }
    true
}

// Whether a threshold is 0 to 10^30.
fn is_threshold(threshold: i128) -> bool
    ensures { IsTrue result ↔ ((pos 0 ≤ℤ threshold) × (threshold ≤ℤ pos (10 ^ 30))) }
{
    threshold >= 0 && threshold <= GREATEST_THRESHOLD
}

// Whether all thresholds are 0 to 10^30.
fn are_thresholds(threshold: &[i128]) -> bool
    ensures { IsTrue result
        ↔ EachIndex threshold.now (λ k. (pos 0 ≤ℤ slice_index_or threshold.now k (pos 0)) × (slice_index_or threshold.now k (pos 0) ≤ℤ pos (10 ^ 30))) }
{
    threshold.iter().all(|one| is_threshold(*one))
}

// The sum of two numbers of 0 or more, where it is not above the greatest one that is allowed.
fn add_up(sum: i128, term: i128) -> Option<i128>
    requires sum { (pos 0 ≤ℤ sum) × IsLight sum }
    requires term { pos 0 ≤ℤ term }
    ensures found { IfSome result (λ s. (s ≡ sum +ℤ term) × (pos 0 ≤ℤ s) × IsLight s) }
    ensures none { IfNone result (IsTooMuch (sum +ℤ term)) }
{
    if term > GREATEST_SUM - sum {
        None
    } else {
        Some(sum + term)
    }
}

// The sum of all weights, where it is not above the greatest one that is allowed.
fn weight_sum(weight: &[i128]) -> Option<i128>
    requires { EachIndex weight.now (λ v. pos 0 ≤ℤ weight_in weight.now v) }
    ensures found { IfSome result (λ s. (s ≡ all_weights weight.now) × (pos 0 ≤ℤ s) × IsLight s) }
    ensures none { IfNone result (IsTooMuch (all_weights weight.now)) }
{
    let mut sum = 0;
    for one in weight {
        let Some(more) = add_up(sum, *one) else {
            return None;
        };
        sum = more;
    }
    Some(sum)
}

// The sum of all lengths, where it is not above the greatest one that is allowed.
fn length_sum(links: &[Link]) -> Option<i128>
    requires { EachIndex links.now (λ l. pos 0 ≤ℤ length_in links.now l) }
    ensures found { IfSome result (λ s. (s ≡ all_lengths links.now) × (pos 0 ≤ℤ s) × IsLight s) }
    ensures none { IfNone result (IsTooMuch (all_lengths links.now)) }
{
    let mut sum = 0;
    for link in links {
        let Some(more) = add_up(sum, link.length) else {
            return None;
        };
        sum = more;
    }
    Some(sum)
}

// Whether 10,000 times the sum of all weights and lengths is below 2^110.
fn is_light(weight: &[i128], links: &[Link]) -> bool
    requires weight { EachIndex weight.now (λ v. pos 0 ≤ℤ weight_in weight.now v) }
    requires links { EachIndex links.now (λ l. pos 0 ≤ℤ length_in links.now l) }
    ensures { IsTrue result ↔ IsLight (all_weights weight.now +ℤ all_lengths links.now) }
{
    let Some(weights) = weight_sum(weight) else {
        return false;
    };
    let Some(lengths) = length_sum(links) else {
        return false;
    };
    add_up(weights, lengths).is_some()
}
