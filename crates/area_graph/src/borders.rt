// Which areas are linked.
ghost use Rattle.std.specs.Prelude.{◌≡◌, ◌≤◌, ◌<◌, ◌+◌, ◌*◌, ◌^◌, ◌&&◌, ℕ, ℤ, pos, unsigned_abs, cond, eqb, map, length, None, Some, IfOk, OnOk};
ghost use Rattle.std.specs.BTreeMap.{get, btree_map_len, IsOrdered};
ghost use Rattle.agg_base.specs.declared.limits.TheConstants.{LINKS, STEPS};
ghost use Rattle.coverage_check.specs.Cover.{odd_of, IsPlanarCover};
ghost use Rattle.coverage_check.specs.Areas.{is_this};
ghost use Rattle.coverage_check.specs.Kept.{odds_of};
ghost use Rattle.plane_edge.specs.Edges.{is_same_edge, IsRisingEdges};
ghost use Rattle.area_graph.specs.Lengths.{AreLinksOf, edge_length, is_among};
ghost use Rattle.area_graph.specs.Steps.{edge_cmp, pair_cmp, is_same_pair, toggled_by, longer, border_sum, border_in, link_of};

use crate::lengths::{Unit, length_of};
use crate::pair::Pair;
use agg_base::NoMemory;
use agg_model::Link;
use class_table::Table;
use coverage_check::Checked;
use plane_edge::Edge;
use std::alloc::Global;
use std::collections::BTreeMap;

// The areas that wait for a second one, by edge.
type Waiting = BTreeMap<Edge, u32>;

// The lengths of common borders.
type Lengths = BTreeMap<Pair, i128>;

// The sum of what was summed up, if anything, and a length.
fn longer_by(sum: Option<i128>, length: i128) -> i128
    requires small { (s : ℤ) → sum ≡ Some s → unsigned_abs s ≤ 2 ^ 68 }
    requires short { unsigned_abs length ≤ 2 ^ 47 }
    ensures { Some result ≡ longer sum length }
{
    match sum {
        Some(sum) => sum + length,
        None => length,
    }
}

// Adds a length to that of two areas.
fn lengthen(lengths: &mut Lengths, pair: Pair, length: i128) -> Result<(), NoMemory>
    requires small { (s : ℤ) → get pair_cmp lengths.old pair ≡ Some s → unsigned_abs s ≤ 2 ^ 68 }
    requires short { unsigned_abs length ≤ 2 ^ 47 }
    ensures sums { OnOk result ((q : Pair) → get pair_cmp lengths.new q ≡ cond (is_same_pair pair q) (longer (get pair_cmp lengths.old pair) length) (get pair_cmp lengths.old q)) }
    ensures count { OnOk result (btree_map_len lengths.new ≤ btree_map_len lengths.old + 1) }
{
    let sum = longer_by(lengths.get(&pair).copied(), length);
    lengths.insert(pair, sum)?;
    Ok(())
}

// Adds an edge of an area: its length where another area waits at it, else the area waits from now on.
fn add_edge(
    waiting: &mut Waiting,
    lengths: &mut Lengths,
    edge: &Edge,
    area: u32,
    unit: Unit,
) -> Result<(), NoMemory>
    requires wide { unit.wide ≤ 100 }
    requires high { unit.high ≤ 100 }
    requires small { (q : Pair) (s : ℤ) → q.b ≡ area → get pair_cmp lengths.old q ≡ Some s → unsigned_abs s ≤ 2 ^ 68 }
    ensures owners { OnOk result ((e : Edge) → get edge_cmp waiting.new e ≡ cond (is_same_edge edge.now e) (toggled_by area (get edge_cmp waiting.old edge.now)) (get edge_cmp waiting.old e)) }
    ensures sums { OnOk result ((q : Pair) → get pair_cmp lengths.new q ≡ cond (eqb q.b area && is_this q.a (get edge_cmp waiting.old edge.now)) (longer (get pair_cmp lengths.old q) (pos (edge_length unit.wide unit.high edge.now))) (get pair_cmp lengths.old q)) }
    ensures count { OnOk result (btree_map_len waiting.new + 2 * btree_map_len lengths.new ≤ btree_map_len waiting.old + 2 * btree_map_len lengths.old + 1) }
{
    let length = length_of(unit, edge);
    match waiting.remove(edge) {
        Some(first) => lengthen(lengths, Pair { a: first, b: area }, length)?,
        None => {
            waiting.insert(*edge, area)?;
        }
    }
    Ok(())
}

// Adds the edges of an area.
fn add_area(
    waiting: &mut Waiting,
    lengths: &mut Lengths,
    odd: &[Edge],
    area: u32,
    unit: Unit,
) -> Result<(), NoMemory>
    requires wide { unit.wide ≤ 100 }
    requires high { unit.high ≤ 100 }
    requires rising { IsRisingEdges odd.now }
    requires few { length odd.now ≤ STEPS }
    requires fresh { (q : Pair) → q.b ≡ area → get pair_cmp lengths.old q ≡ None }
    ensures owners { OnOk result ((e : Edge) → get edge_cmp waiting.new e ≡ cond (is_among odd.now e) (toggled_by area (get edge_cmp waiting.old e)) (get edge_cmp waiting.old e)) }
    ensures sums { OnOk result ((q : Pair) → get pair_cmp lengths.new q ≡ cond (eqb q.b area) (border_sum unit.wide unit.high (get edge_cmp waiting.old) odd.now q.a) (get pair_cmp lengths.old q)) }
    ensures count { OnOk result (btree_map_len waiting.new + 2 * btree_map_len lengths.new ≤ btree_map_len waiting.old + 2 * btree_map_len lengths.old + length odd.now) }
{
    for edge in odd {
        add_edge(waiting, lengths, edge, area, unit)?;
    }
    Ok(())
}

// The length of the common border of each two areas that have one.
fn lengths_of(alloc: Global, checked: &Checked, unit: Unit) -> Result<Lengths, NoMemory>
    requires wide { unit.wide ≤ 100 }
    requires high { unit.high ≤ 100 }
    ensures sums { IfOk result (λ lengths. (q : Pair) → get pair_cmp lengths q ≡ border_in unit.wide unit.high (odds_of checked.now.areas) (length checked.now.areas) q) }
    ensures count { IfOk result (λ lengths. btree_map_len lengths ≤ LINKS) }
    ensures planar { IsPlanarCover (odds_of checked.now.areas) }
{
    let mut waiting = BTreeMap::new(alloc);
    let mut lengths = BTreeMap::new(alloc);
    for area in 0..checked.areas() as u32 {
        add_area(&mut waiting, &mut lengths, checked.odd(area), area, unit)?;
    }
    Ok(lengths)
}

// The lengths as links, in rising order.
fn listing(alloc: Global, lengths: &Lengths) -> Result<Vec<Link>, NoMemory>
    ensures links { IfOk result (λ links. links.items ≡ map link_of lengths.now.entries) }
    ensures ordered { IfOk result (λ links. IsOrdered pair_cmp lengths.now) }
{
    let mut links = Vec::new(alloc);
    for (pair, length) in lengths.iter() {
        links.push(Link {
            a: pair.a,
            b: pair.b,
            length: *length,
        })?;
    }
    Ok(links)
}

/// The links of the areas, in rising order.
pub fn links(alloc: Global, checked: &Checked, table: &Table) -> Result<Vec<Link>, NoMemory>
    ensures links { IfOk result (λ links. AreLinksOf table.now.wide table.now.high (odds_of checked.now.areas) links.items) }
    ensures few { IfOk result (λ links. length links.items ≤ LINKS) }
{
    let lengths = lengths_of(alloc, checked, Unit::of(table))?;
    let links = listing(alloc, &lengths)?;
    Ok(links)
}
