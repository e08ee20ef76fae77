// How long an edge is.
ghost use Rattle.std.specs.Prelude.{◌≡◌, ◌≤◌, ◌*◌, ◌^◌, pos, unsigned_abs};
ghost use Rattle.class_table.specs.Table.{IsTable};
ghost use Rattle.area_graph.specs.Lengths.{stretched, edge_length};

use agg_base::isqrt;
use class_table::Table;
use plane_edge::{Edge, gap};

/// The factors of the axes.
#[derive(Clone, Copy)]
pub struct Unit {
    /// What a step of 1 in x stands for.
    pub wide: u32,
    /// What a step of 1 in y stands for.
    pub high: u32,
}

impl Unit {
    /// The factors of the table.
    pub fn of(table: &Table) -> Unit
        ensures wide { result.wide ≡ table.now.wide }
        ensures high { result.high ≡ table.now.high }
        ensures rules { IsTable table.now }
    {
        let (wide, high) = table.unit();
        Unit { wide, high }
    }
}

// The square of a difference of coordinates times its factor.
fn square_of(factor: u32, gap: i128) -> u128
    requires factor { factor ≤ 100 }
    requires gap { unsigned_abs gap ≤ 2 ^ 31 }
    ensures value { result ≡ stretched factor gap }
    ensures within { result ≤ 2 ^ 76 }
{
    let side = u128::from(factor) * gap.unsigned_abs();
    side * side
}

/// The length of an edge in 1/256 unit, rounded down.
pub fn length_of(unit: Unit, edge: &Edge) -> i128
    requires wide { unit.wide ≤ 100 }
    requires high { unit.high ≤ 100 }
    ensures value { result ≡ pos (edge_length unit.wide unit.high edge.now) }
    ensures within { edge_length unit.wide unit.high edge.now ≤ 2 ^ 47 }
{
    let across = square_of(unit.wide, gap(edge.high.x, edge.low.x));
    let up = square_of(unit.high, gap(edge.high.y, edge.low.y));
    isqrt(65_536 * (across + up)) as i128
}
