// The check of a coverage.
ghost use Rattle.std.specs.Prelude.{◌≡◌, ◌≤◌, ◌+◌, ◌-◌, ℕ, All, Contains, length, IfOk, OnOk, IfErr, IfSome, IfNone, IsErrAnd};
ghost use Rattle.agg_base.specs.declared.limits.TheConstants.{AREAS};
ghost use Rattle.plane_strip.specs.Strip.{IsPlanar};
ghost use Rattle.coverage_check.specs.Checked.{IsChecked};
ghost use Rattle.coverage_check.specs.Cover.{IsOddIn, IsOddSomewhere, IsPlanarCover, IsDisjointCover, IsOverlap, IsFirstOverlap};
ghost use Rattle.coverage_check.specs.Crossing.{IsCrossing};
ghost use Rattle.coverage_check.specs.Fault.{IsUncrossed, IsFaultOf, IsCrossingOrMemory, IsSharedOrMemory, IsOverlapOrMemory, IsMemory};
ghost use Rattle.coverage_check.specs.Kept.{kept_of, odds_of};
ghost use Rattle.coverage_check.specs.Parts.{IsOddPart};
ghost use Rattle.coverage_check.specs.Sharing.{IsShared};
ghost use Rattle.coverage_check.specs.Uses.{AreUsesOf, AreEdgesOf, IsUsed};

use crate::bordering::borders_of;
use crate::checked::{Checked, assemble};
use crate::crossing::first_crossing;
use crate::distinct::edges_of;
use crate::fault::CoverFault;
use crate::heights::heights_of;
use crate::kept::{OddArea, keep};
use crate::overlap::{Overlap, first_overlap};
use crate::shared::first_shared;
use crate::usage::{Use, uses_of};
use agg_base::NoMemory;
use crew_work::Crew;
use plane_edge::{Coverage, Edge, Spot};
use std::alloc::Global;

// The first place inside two areas. No two of the edges cross, and none is odd in three areas.
fn overlap_of(
    alloc: Global,
    areas: &[OddArea],
    uses: &[Use],
    edges: &[Edge],
) -> Result<Option<Overlap>, NoMemory>
    requires parts { All IsOddPart areas.now }
    requires used { AreUsesOf (odds_of areas.now) uses.now }
    requires distinct { AreEdgesOf uses.now edges.now }
    requires planar { IsPlanar edges.now }
    requires few { (e : Edge) → ¬ IsShared (IsUsed uses.now) e }
    ensures found { IfOk result (λ r. IfSome r (λ o. IsFirstOverlap (odds_of areas.now) o.a o.b o.spot)) }
    ensures nowhere { IfOk result (λ r. IfNone r (IsDisjointCover (odds_of areas.now))) }
{
    let _ = areas;
    let heights = heights_of(alloc, edges)?;
    let borders = borders_of(alloc, uses)?;
    first_overlap(alloc, &heights, &borders)
}

// The first fault of the areas.
fn first_fault(alloc: Global, areas: &[OddArea]) -> Result<(), CoverFault>
    requires few { length areas.now ≤ AREAS }
    requires parts { All IsOddPart areas.now }
    ensures planar { OnOk result (IsPlanarCover (odds_of areas.now)) }
    ensures disjoint { OnOk result (IsDisjointCover (odds_of areas.now)) }
    ensures fault { IfErr result (λ f. IsFaultOf (odds_of areas.now) f) }
{
    let uses = uses_of(alloc, areas)?;
    let edges = edges_of(alloc, &uses)?;
    if let Some(crossing) = first_crossing(alloc, &edges)? {
        return Err(CoverFault::Crossing {
            e: crossing.e,
            f: crossing.f,
            spot: crossing.spot,
        });
    }
    if let Some(edge) = first_shared(&uses) {
        return Err(CoverFault::Shared { edge });
    }
    match overlap_of(alloc, areas, &uses, &edges)? {
        Some(overlap) => Err(CoverFault::Overlap {
            a: overlap.a,
            b: overlap.b,
            spot: overlap.spot,
        }),
        None => Ok(()),
    }
}

// The areas that count, checked.
fn check_kept(alloc: Global, coverage: Coverage) -> Result<Checked, CoverFault>
    ensures areas { IfOk result (λ c. c.areas ≡ kept_of coverage.areas.items) }
    ensures passed { IfOk result (λ c. c.passed + length c.areas ≡ coverage.passed + length coverage.areas.items) }
    ensures frame { IfOk result (λ c. c.frame ≡ coverage.frame) }
    ensures planar { OnOk result (IsPlanarCover (odds_of (kept_of coverage.areas.items))) }
    ensures disjoint { OnOk result (IsDisjointCover (odds_of (kept_of coverage.areas.items))) }
    ensures fault { IfErr result (λ f. IsFaultOf (odds_of (kept_of coverage.areas.items)) f) }
{
    let areas = keep(alloc, &coverage.areas)?;
    first_fault(alloc, &areas)?;
    Ok(assemble(areas, coverage))
}

/// The checked map of the areas that have an odd edge, where no point lies on two different odd edges
/// unless it is an end of both, no edge is odd in three areas, and no point is inside two areas, over
/// all rational points.
///
/// The odd edges of an area are those that occur an odd number of times among its steps. Areas
/// without an odd edge are passed over and counted; the others are numbered again in their order, and
/// the faults name them by their new numbers. The answer is the same for every crew.
///
/// # Errors
///
/// The first that comes of: `Crossing`, where two different odd edges have a point in common that is
/// not an end of both; `Shared`, where an edge is odd in three areas; `Overlap`, where a point is
/// inside two areas. `Memory` at any time, where memory runs out.
pub fn check<W: Crew>(alloc: Global, coverage: Coverage, crew: &W) -> Result<Checked, CoverFault>
    ensures areas { IfOk result (λ c. c.areas ≡ kept_of coverage.areas.items) }
    ensures passed { IfOk result (λ c. c.passed + length c.areas ≡ coverage.passed + length coverage.areas.items) }
    ensures frame { IfOk result (λ c. c.frame ≡ coverage.frame) }
    ensures planar { OnOk result (IsPlanarCover (odds_of (kept_of coverage.areas.items))) }
    ensures disjoint { OnOk result (IsDisjointCover (odds_of (kept_of coverage.areas.items))) }
    ensures fault { IfErr result (λ f. IsFaultOf (odds_of (kept_of coverage.areas.items)) f) }
    ensures sound { let odds = odds_of (kept_of coverage.areas.items) in
        IsPlanarCover odds → IsDisjointCover odds → IfErr result IsMemory }
    ensures crossed { let odds = odds_of (kept_of coverage.areas.items) in
        (e f : Edge) (s : Spot) → IsCrossing (IsOddSomewhere odds) e f s → IsErrAnd result IsCrossingOrMemory }
    ensures thrice { let odds = odds_of (kept_of coverage.areas.items) in
        (e : Edge) → IsUncrossed odds → IsShared (IsOddIn odds) e → IsErrAnd result IsSharedOrMemory }
    ensures twice { let odds = odds_of (kept_of coverage.areas.items) in
        (a b : ℕ) (s : Spot) → IsPlanarCover odds → IsOverlap odds a b s → IsErrAnd result IsOverlapOrMemory }
{
    let _ = crew;
    check_kept(alloc, coverage)
}
