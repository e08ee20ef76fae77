// The areas of features.
ghost use Rattle.std.specs.Prelude.{◌≡◌, ◌≤◌, true, false, IfOk, IfErr, IfSome, IfNone, codes, Some};
ghost use Rattle.agg_base.specs.declared.limits.TheConstants.{STEPS};
ghost use Rattle.json_text.specs.Tree.{member_of};
ghost use Rattle.json_text.specs.Values.{json_of};
ghost use Rattle.geo_reader.specs.Features.{IsFeature, is_passed, HasGeometry};
ghost use Rattle.geo_reader.specs.Adds.{AddsArea};
ghost use Rattle.geo_reader.specs.Held.{rings_in};
ghost use Rattle.geo_reader.specs.Outcomes.{UnlessMemory};
ghost use Rattle.geo_reader.specs.Rules.{BreaksAsArea, BreaksFirst};

use crate::GeoFault;
use crate::outline::{are_closed, are_whole, outlines_of};
use crate::ring::rings_of;
use agg_base::limits::AREAS;
use json_text::Tree;
use map_values::{area_of, class_of, has_type, is_null};
use plane_edge::{Area, Limit};
use std::alloc::Global;

// The area that a feature spells, and none where it is passed over. So many areas with so many steps are before it.
#[tactic(auto, using(crate::proofs::ReaderLemmas::not_feature))]
pub(crate) fn feature_area(
    alloc: Global,
    place: u32,
    feature: &Tree,
    name: &str,
    areas: usize,
    steps: usize,
) -> Result<Option<Area>, GeoFault>
    requires { steps ≤ STEPS }
    ensures added { IfOk result (λ o. IfSome o (λ area. AddsArea name.now areas steps (json_of feature.now) area)) }
    ensures passed { IfOk result (λ o. IfNone o (IsFeature (json_of feature.now) × (is_passed (json_of feature.now) ≡ true))) }
    ensures fault { IfErr result (λ f. UnlessMemory f (BreaksFirst name.now areas steps place (json_of feature.now) f)) }
{
    if !has_type(feature, "Feature") {
        return Err(GeoFault::NotPolygonal { place });
    }
    let Some(geometry) = geometry_of(feature) else {
        return Ok(None);
    };
    let Some(rings) = rings_of(alloc, geometry)? else {
        return Err(GeoFault::NotPolygonal { place });
    };
    let area = rings_area(alloc, place, feature, &rings, name, areas, steps)?;
    Ok(Some(area))
}

// The geometry of a feature; None where it is null or absent.
fn geometry_of(feature: &Tree) -> Option<&Tree>
    ensures found { IfSome result (λ geometry. member_of (json_of feature.now) (codes "geometry") ≡ Some (json_of geometry.now)) }
    ensures there { IfSome result (λ geometry. is_passed (json_of feature.now) ≡ false) }
    ensures none { IfNone result (is_passed (json_of feature.now) ≡ true) }
{
    let geometry = feature.member("geometry")?;
    if is_null(Some(geometry)) {
        None
    } else {
        Some(geometry)
    }
}

// The area of a feature with these rings.
#[tactic(auto, using(crate::proofs::ReaderLemmas::many_areas))]
fn rings_area(
    alloc: Global,
    place: u32,
    feature: &Tree,
    rings: &[&[Tree]],
    name: &str,
    areas: usize,
    steps: usize,
) -> Result<Area, GeoFault>
    requires feature { IsFeature (json_of feature.now) }
    requires rings { HasGeometry (json_of feature.now) (rings_in rings.now) }
    requires few { steps ≤ STEPS }
    ensures added { IfOk result (λ area. AddsArea name.now areas steps (json_of feature.now) area) }
    ensures fault { IfErr result (λ f. UnlessMemory f (BreaksAsArea name.now areas steps place (json_of feature.now) (rings_in rings.now) f)) }
{
    if areas >= AREAS {
        return Err(GeoFault::Limit(Limit::Areas));
    }
    let Some(class) = class_of(alloc, feature, name)? else {
        return Err(GeoFault::NoClass { place });
    };
    if !are_whole(rings) {
        return Err(GeoFault::NotWhole { place });
    }
    let Some(outlines) = outlines_of(alloc, rings)? else {
        return Err(GeoFault::Limit(Limit::Coordinate));
    };
    if !are_closed(&outlines) {
        return Err(GeoFault::OpenRing { place });
    }
    let Some(area) = area_of(alloc, class, &outlines, steps)? else {
        return Err(GeoFault::Limit(Limit::Edges));
    };
    Ok(area)
}
