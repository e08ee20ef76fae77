// Whether a drawn map shows the regions of a grouping.
ghost use Rattle.std.specs.Prelude.{◌≡◌, ◌↔◌, ◌≤◌, IsTrue, OnOk, IfErr, length};
ghost use Rattle.agg_base.specs.declared.limits.TheConstants.{AREAS};
ghost use Rattle.coverage_check.specs.Kept.{odds_of};
ghost use Rattle.cert_check.specs.Drawings.{AreNamed, AreDrawn, IsFrameFlaw, IsRegionsFlaw, IsNameFlaw, IsEdgesFlaw};
ghost use Rattle.cert_check.specs.Groups.{AreRegionsKnown, AreClassesKnown};
ghost use Rattle.cert_check.specs.Stops.{IsStop};

use crate::Verdict;
use crate::edges::differing_edge;
use crate::stop::Stop;
use agg_base::Text;
use agg_model::{Grouping, Problem};
use coverage_check::Checked;
use plane_edge::{Area, Frame};
use region_edges::borders;
use std::alloc::Global;

// Whether the frames are the same.
fn is_same_frame(a: &Frame, b: &Frame) -> bool
    ensures { IsTrue result ↔ (a.now ≡ b.now) }
{
    match (a, b) {
        (Frame::Plain, Frame::Plain) => true,
        (
            Frame::Scaled { sx, sy, tx, ty },
            Frame::Scaled {
                sx: sx_too,
                sy: sy_too,
                tx: tx_too,
                ty: ty_too,
            },
        ) => {
            is_same_text(sx, sx_too)
                && is_same_text(sy, sy_too)
                && is_same_text(tx, tx_too)
                && is_same_text(ty, ty_too)
        }
        (Frame::Plain, Frame::Scaled { .. }) => false,
        (Frame::Scaled { .. }, Frame::Plain) => false,
    }
}

// Whether the texts are the same.
fn is_same_text(a: &Text, b: &Text) -> bool
    ensures { IsTrue result ↔ (a.now ≡ b.now) }
{
    a.as_str() == b.as_str()
}

/// Whether the drawn map writes its coordinates as the map does.
pub(crate) fn judge_frame(map: &Frame, drawn: &Frame) -> Result<(), Verdict>
    ensures ok { OnOk result (drawn.now ≡ map.now) }
    ensures flaw { IfErr result (IsFrameFlaw map.now drawn.now) }
{
    if !is_same_frame(drawn, map) {
        return Err(Verdict::Frame);
    }
    Ok(())
}

/// Whether there is one drawn region for each region.
pub(crate) fn judge_count(drawn: &[Area], grouping: &Grouping) -> Result<(), Verdict>
    requires few { length drawn.now ≤ AREAS }
    ensures ok { OnOk result (length drawn.now ≡ length grouping.now.class_of) }
    ensures flaw { IfErr result (IsRegionsFlaw drawn.now grouping.now) }
{
    if drawn.len() != grouping.class_of.len() {
        return Err(Verdict::Regions {
            drawn: drawn.len() as u32,
        });
    }
    Ok(())
}

/// Whether each drawn region has the name of its region's class.
pub(crate) fn judge_names(
    problem: &Problem,
    names: &[Text],
    drawn: &[Area],
    grouping: &Grouping,
) -> Result<(), Verdict>
    requires few { length grouping.now.class_of ≤ AREAS }
    requires names { length names.now ≡ problem.now.classes }
    requires classes { AreClassesKnown problem.now grouping.now }
    requires one_each { length drawn.now ≡ length grouping.now.class_of }
    ensures ok { OnOk result (AreNamed names.now drawn.now grouping.now) }
    ensures flaw { IfErr result (IsNameFlaw names.now drawn.now grouping.now) }
{
    let _ = problem;
    for region in 0..grouping.regions() {
        let name = &names[grouping.class(region) as usize];
        if !is_same_text(drawn[region as usize].class(), name) {
            return Err(Verdict::DrawnClass { region });
        }
    }
    Ok(())
}

/// Whether the odd edges of each drawn region are those that are odd in an odd number of the region's areas.
pub(crate) fn judge_edges(
    alloc: Global,
    checked: &Checked,
    drawn: &[Area],
    grouping: &Grouping,
) -> Result<(), Stop>
    requires few { length grouping.now.class_of ≤ AREAS }
    requires areas { length grouping.now.region_of ≡ length checked.now.areas }
    requires regions { AreRegionsKnown grouping.now }
    requires one_each { length drawn.now ≡ length grouping.now.class_of }
    ensures ok { OnOk result (AreDrawn (odds_of checked.now.areas) drawn.now grouping.now) }
    ensures flaw { IfErr result (IsStop (IsEdgesFlaw (odds_of checked.now.areas) drawn.now grouping.now)) }
{
    let due = borders(alloc, checked, grouping)?;
    for region in 0..grouping.regions() {
        let area = &drawn[region as usize];
        if let Some(edge) = differing_edge(alloc, area, &due[region as usize])? {
            return Err(Stop::Flaw(Verdict::DrawnEdges { region, edge }));
        }
    }
    Ok(())
}
