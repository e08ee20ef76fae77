// What areas weigh.
ghost use Rattle.std.specs.Prelude.{◌≡◌, ◌≢◌, ◌<◌, ◌≤◌, ◌*◌, ◌^◌, ℕ, ℤ, pos, if◌then◌else◌, ◌-ℤ◌, ◌*ℤ◌, ◌≤ℤ◌, ◌<ℤ◌, unsigned_abs, length, IfOk};
ghost use Rattle.agg_base.specs.declared.limits.TheConstants.{STEPS};
ghost use Rattle.area_graph.specs.Weights.{signed_term, sum_over, weight_of_edges, swept};
ghost use Rattle.area_graph.specs.Problems.{AreWeights, IsFirstLight, AreHeavy};

use crate::fault::GraphFault;
use crate::lengths::Unit;
use agg_base::NoMemory;
use class_table::Table;
use coverage_check::Checked;
use edge_rows::EdgeRows;
use plane_edge::{Edge, gap, sum};
use std::alloc::Global;

// The product of two numbers that are not large.
fn product(a: i128, b: i128) -> i128
    requires a_within { unsigned_abs a ≤ 2 ^ 31 }
    requires b_within { unsigned_abs b ≤ 2 ^ 31 }
    ensures value { result ≡ a *ℤ b }
    ensures within { unsigned_abs result ≤ 2 ^ 62 }
{
    a * b
}

// Twice what lies between the edge and the axis, a level edge none.
fn swept_of(edge: &Edge) -> i128
    ensures value { result ≡ swept edge.now }
    ensures within { unsigned_abs result ≤ 2 ^ 62 }
{
    let across = sum(edge.low.x, edge.high.x);
    let up = gap(edge.high.y, edge.low.y);
    product(across, up)
}

// What an edge adds to the weight of an area with these odd edges.
fn term_of(rows: &EdgeRows, edge: &Edge) -> i128
    ensures value { result ≡ signed_term rows.now edge.now }
    ensures within { unsigned_abs result ≤ 2 ^ 62 }
{
    let swept = swept_of(edge);
    let is_inside = rows.inside(&edge.middle());
    with_sign(is_inside, swept)
}

// The number, with its sign changed where `is_inside` holds.
fn with_sign(is_inside: bool, value: i128) -> i128
    requires { unsigned_abs value ≤ 2 ^ 62 }
    ensures value { result ≡ (if is_inside then (pos 0 -ℤ value) else value) }
    ensures within { unsigned_abs result ≤ 2 ^ 62 }
{
    if is_inside { -value } else { value }
}

// The sum of what the edges add to the weight of an area whose odd edges are laid out as `rows`.
fn terms(rows: &EdgeRows, odd: &[Edge]) -> i128
    requires { length odd.now ≤ STEPS }
    ensures value { result ≡ sum_over (signed_term rows.now) odd.now }
    ensures within { unsigned_abs result ≤ 2 ^ 83 }
{
    let mut sum = 0;
    for edge in odd {
        sum += term_of(rows, edge);
    }
    sum
}

// The product of a factor and a sum.
fn product_by(factor: u32, sum: i128) -> i128
    requires factor { factor ≤ 10000 }
    requires sum { unsigned_abs sum ≤ 2 ^ 83 }
    ensures { result ≡ pos factor *ℤ sum }
{
    i128::from(factor) * sum
}

// The weight of an area whose odd edges are laid out as `rows`.
fn weight_by(unit: Unit, rows: &EdgeRows, odd: &[Edge]) -> i128
    requires wide { unit.wide ≤ 100 }
    requires high { unit.high ≤ 100 }
    requires few { length odd.now ≤ STEPS }
    ensures { result ≡ pos (unit.wide * unit.high) *ℤ sum_over (signed_term rows.now) odd.now }
{
    product_by(unit.wide * unit.high, terms(rows, odd))
}

// The weight of an area with these odd edges, in twice the square unit.
fn weight_of(alloc: Global, unit: Unit, odd: &[Edge]) -> Result<i128, NoMemory>
    requires wide { unit.wide ≤ 100 }
    requires high { unit.high ≤ 100 }
    requires few { length odd.now ≤ STEPS }
    ensures { IfOk result (λ weight. weight ≡ weight_of_edges unit.wide unit.high odd.now) }
{
    let rows = EdgeRows::of(alloc, odd)?;
    Ok(weight_by(unit, &rows, odd))
}

/// The weight of each area, or the least area that weighs less than 1.
pub fn weights(alloc: Global, checked: &Checked, table: &Table) -> Result<Vec<i128>, GraphFault>
    ensures found { IfOk result (λ weight. AreWeights checked.now.areas table.now weight.items) }
    ensures heavy { IfOk result (λ weight. AreHeavy checked.now.areas table.now (length checked.now.areas)) }
    ensures light { (v : ℕ) (s : ℤ) → result ≡ Err (GraphFault.NoWeight v s) → IsFirstLight checked.now.areas table.now v s }
    ensures other { (v : ℕ) → result ≢ Err (GraphFault.UnknownClass v) }
{
    let unit = Unit::of(table);
    let mut weight = Vec::new(alloc);
    for area in 0..checked.areas() as u32 {
        let sum = weight_of(alloc, unit, checked.odd(area))?;
        if sum < 1 {
            return Err(GraphFault::NoWeight { area, sum });
        }
        weight.push(sum)?;
    }
    Ok(weight)
}
