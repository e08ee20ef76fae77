// Edges laid out so that many spots can be tested.
ghost use Rattle.std.specs.Prelude.{◌≡◌, ◌↔◌, IsTrue, IfOk};
ghost use Rattle.plane_edge.specs.Plane.{IsBounded, IsInside};
ghost use Rattle.edge_rows.specs.Beside.{AreCrossedAlike};

use crate::asking::is_inside;
use crate::bank::Bank;
use crate::cutting::pieces_of;
use crate::laying::{banks_of, rows_of};
use crate::sorting::sort;
use agg_base::NoMemory;
use plane_edge::{Edge, Spot};
use std::alloc::Global;
use std::marker::Model;

/// A list of edges, laid out so that many spots can be tested against it. To contracts it is a list of edges.
///
/// The edges are cut at the heights of ends into pieces that stand in a few levels, as in a tree over the heights: of each level one row of
/// pieces, which do not fall back to the left, is at a spot's height. It is found by halving, and so are the pieces of the row that the spot
/// crosses. That takes n log n memory and a time of (log n)² for each spot, however many edges are at its height.
#[derive(Drop)]
pub struct EdgeRows {
    edges: Vec<Edge>,
    banks: Vec<Bank>,
}

impl Model for EdgeRows {
    ghost use Rattle.std.specs.Prelude.{List};
    ghost use Rattle.std.specs.List.{flat_map};
    ghost use Rattle.plane_edge.specs.declared.edge.Edge.{Edge};
    ghost use Rattle.edge_rows.specs.Cutting.{ArePiecesOf};
    ghost use Rattle.edge_rows.specs.Whole.{pieces_of_bank};

    ghost Value = { List Edge };

    ghost view = { λ r. r.edges.items };

    ghost invariant = { λ r. ArePiecesOf r.edges.items (flat_map pieces_of_bank r.banks.items) };
}

impl EdgeRows {
    /// Lays out the edges. What is laid out is crossed at every spot as often as the edges. Its one refusal is want of memory.
    pub fn of(alloc: Global, edges: &[Edge]) -> Result<EdgeRows, NoMemory>
        ensures { IfOk result (λ rows. AreCrossedAlike rows edges.now) }
    {
        let mut pieces = pieces_of(alloc, edges)?;
        sort(&mut pieces);
        let banks = banks_of(alloc, rows_of(alloc, &pieces)?)?;
        let edges = Vec::from_slice(alloc, edges)?;
        Ok(EdgeRows { edges, banks })
    }

    /// Whether the spot is inside the edges by the even-odd rule: the ray from it to the right crosses an
    /// odd number of them. An edge's high end does not count, and a level edge is never crossed. It takes no memory.
    pub fn inside(&self, spot: &Spot) -> bool
        requires bounded { IsBounded spot.now }
        ensures { IsTrue result ↔ IsInside self.now spot.now }
    {
        is_inside(&self.banks, spot)
    }
}
