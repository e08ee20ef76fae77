// Borders from uses.
ghost use Rattle.std.specs.Prelude.{◌≡◌, ◌↔◌, ◌+◌, ◌<◌, ℕ, true, IsTrue, length, IfOk, IfSome, IfNone};
ghost use Rattle.coverage_check.specs.Areas.{is_this};
ghost use Rattle.coverage_check.specs.Bordering.{IsUseAt, IsSecond, IsBorderOf, IsNoBorder, AreBordersUpTo, AreBordersOf};
ghost use Rattle.coverage_check.specs.Sharing.{IsShared};
ghost use Rattle.coverage_check.specs.Uses.{used_by, AreRisingUses, IsUsed};

use crate::border::Border;
use crate::usage::Use;
use agg_base::NoMemory;
use plane_edge::Edge;
use std::alloc::Global;

// The area of the use of that number, where it has the edge.
fn area_at(uses: &[Use], at: usize, edge: &Edge) -> Option<u32>
    ensures { (c : ℕ) → (is_this c result ≡ true) ↔ IsUseAt uses.now at (used_by edge.now c) }
{
    if at < uses.len() && uses[at].edge == *edge {
        Some(uses[at].area)
    } else {
        None
    }
}

// Whether the use before that number has the edge.
fn is_second(uses: &[Use], at: usize, edge: &Edge) -> bool
    requires { at < length uses.now }
    ensures { IsTrue result ↔ IsSecond uses.now at edge.now }
{
    at > 0 && area_at(uses, at - 1, edge).is_some()
}

// The border that begins at the use of that number, if its edge is not level.
fn border_at(uses: &[Use], at: usize) -> Option<Border>
    requires within { at < length uses.now }
    requires rising { AreRisingUses uses.now }
    ensures some { IfSome result (λ b. IsBorderOf uses.now at b) }
    ensures none { IfNone result (IsNoBorder uses.now at) }
{
    let used = uses[at];
    if used.edge.low.y >= used.edge.high.y || is_second(uses, at, &used.edge) {
        return None;
    }
    let second = area_at(uses, at + 1, &used.edge);
    Some(Border {
        edge: used.edge,
        first: used.area,
        second,
    })
}

// The borders that begin at the uses.
fn collect(alloc: Global, uses: &[Use]) -> Result<Vec<Border>, NoMemory>
    requires { AreRisingUses uses.now }
    ensures { IfOk result (λ borders. AreBordersUpTo uses.now (length uses.now) borders.items) }
{
    let mut borders = Vec::new(alloc);
    for at in 0..uses.len() {
        if let Some(border) = border_at(uses, at) {
            borders.push(border)?;
        }
    }
    Ok(borders)
}

/// The edges that are not level, with the one or two areas in which each is odd, in rising order.
pub fn borders_of(alloc: Global, uses: &[Use]) -> Result<Vec<Border>, NoMemory>
    requires rising { AreRisingUses uses.now }
    requires few { (e : Edge) → ¬ IsShared (IsUsed uses.now) e }
    ensures { IfOk result (λ borders. AreBordersOf uses.now borders.items) }
{
    collect(alloc, uses)
}
