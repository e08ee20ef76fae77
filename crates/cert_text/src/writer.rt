// The text of a certificate.
ghost use Rattle.std.specs.Prelude.{◌≡◌, ◌∷◌, [], map, IfOk, OnOk};
ghost use Rattle.cert_text.specs.CertTexts.{HasSpelling, Spells, head_lines, group_lines};
ghost use Rattle.cert_text.specs.Gives.{Appends};
ghost use Rattle.cert_text.specs.Lines.{line_text};
ghost use Rattle.cert_text.specs.declared.line.Line.TheVariants as line;

use crate::push::{push_line, push_plain};
use crate::tree_writer::push_tree;
use crate::{CertStatus, Certificate};
use agg_base::NoMemory;
use agg_model::Grouping;
use std::alloc::Global;

/// The one text of a certificate.
///
/// Each line ends with a line feed, words are parted by one space, and a number is an optional minus and digits without needless zeros. The
/// lines are, in order: `aggregation 1`; `status` and `optimal`, `within` or `none`; `cost` and `bound`, each with a number, or a dash with
/// `none`; `areas` and `regions` with their counts; for each region `r` and its class, and for each area `a` and its region; the nodes of the
/// tree in preorder, `yes` before `no`; `end`. A node is a split `s AREA CLASS`, a leaf `f`, or a leaf `c DENOMINATOR COUNT` or `v COUNT` with as
/// many rows behind it; a row is `b LINK SIDE CLASS MULTIPLIER` or `e MULTIPLIER AREA CLASS COUNT MEMBERS`. The format is this project's own.
pub fn write(alloc: Global, certificate: &Certificate) -> Result<Vec<u8>, NoMemory>
    requires { HasSpelling certificate.now }
    ensures { IfOk result (λ text. Spells text.items certificate.now) }
{
    let mut out = Vec::new(alloc);
    push_head(&mut out, certificate)?;
    push_groups(&mut out, &certificate.grouping)?;
    push_tree(&mut out, &certificate.tree)?;
    push_end(&mut out)?;
    Ok(out)
}

// Appends the six lines at the head.
fn push_head(out: &mut Vec<u8>, certificate: &Certificate) -> Result<(), NoMemory>
    ensures { OnOk result (Appends out.old.items (head_lines certificate.now) out.new.items) }
{
    push_status(out, certificate.status)?;
    push_cost(out, certificate.cost)?;
    push_bound(out, certificate.bound)?;
    push_counts(out, certificate.areas, certificate.grouping.class_of.len())?;
    Ok(())
}

// Appends the version and the status.
#[tactic(auto, unfolding(crate::specs::Lines::line_text))]
fn push_status(out: &mut Vec<u8>, status: CertStatus) -> Result<(), NoMemory>
    ensures { OnOk result (Appends out.old.items (line.Version ∷ line.Status status ∷ []) out.new.items) }
{
    push_plain(out, b"aggregation 1")?;
    push_plain(out, status_text(status))?;
    Ok(())
}

// The line of a status.
#[tactic(auto, unfolding(crate::specs::Lines::line_text))]
fn status_text(status: CertStatus) -> &'static [u8]
    ensures { result.now ≡ line_text (line.Status status) }
{
    match status {
        CertStatus::Optimal => b"status optimal",
        CertStatus::Within => b"status within",
        CertStatus::Hopeless => b"status none",
    }
}

// Appends the cost.
#[tactic(auto, unfolding(crate::specs::Lines::line_text))]
fn push_cost(out: &mut Vec<u8>, cost: Option<i128>) -> Result<(), NoMemory>
    ensures { OnOk result (Appends out.old.items (line.Cost cost ∷ []) out.new.items) }
{
    match cost {
        Some(number) => push_line(out, b"cost", &[number]),
        None => push_plain(out, b"cost -"),
    }
}

// Appends the bound.
#[tactic(auto, unfolding(crate::specs::Lines::line_text))]
fn push_bound(out: &mut Vec<u8>, bound: Option<i128>) -> Result<(), NoMemory>
    ensures { OnOk result (Appends out.old.items (line.Bound bound ∷ []) out.new.items) }
{
    match bound {
        Some(number) => push_line(out, b"bound", &[number]),
        None => push_plain(out, b"bound -"),
    }
}

// Appends how many areas and regions there are.
#[tactic(auto, unfolding(crate::specs::Lines::line_text))]
fn push_counts(out: &mut Vec<u8>, areas: u32, regions: usize) -> Result<(), NoMemory>
    ensures { OnOk result (Appends out.old.items (line.Areas areas ∷ line.Regions regions ∷ []) out.new.items) }
{
    push_line(out, b"areas", &[i128::from(areas)])?;
    push_line(out, b"regions", &[regions as i128])?;
    Ok(())
}

// Appends the class of each region, and the region of each area.
fn push_groups(out: &mut Vec<u8>, grouping: &Grouping) -> Result<(), NoMemory>
    ensures { OnOk result (Appends out.old.items (group_lines grouping.now) out.new.items) }
{
    push_classes(out, &grouping.class_of)?;
    push_regions(out, &grouping.region_of)?;
    Ok(())
}

// Appends the class of each region.
fn push_classes(out: &mut Vec<u8>, classes: &[u8]) -> Result<(), NoMemory>
    ensures { OnOk result (Appends out.old.items (map line.Class classes.now) out.new.items) }
{
    for class in classes {
        push_class(out, *class)?;
    }
    Ok(())
}

// Appends the class of a region.
#[tactic(auto, unfolding(crate::specs::Lines::line_text))]
fn push_class(out: &mut Vec<u8>, class: u8) -> Result<(), NoMemory>
    ensures { OnOk result (Appends out.old.items (line.Class class ∷ []) out.new.items) }
{
    push_line(out, b"r", &[i128::from(class)])
}

// Appends the region of each area.
fn push_regions(out: &mut Vec<u8>, regions: &[u32]) -> Result<(), NoMemory>
    ensures { OnOk result (Appends out.old.items (map line.Region regions.now) out.new.items) }
{
    for region in regions {
        push_region(out, *region)?;
    }
    Ok(())
}

// Appends the region of an area.
#[tactic(auto, unfolding(crate::specs::Lines::line_text))]
fn push_region(out: &mut Vec<u8>, region: u32) -> Result<(), NoMemory>
    ensures { OnOk result (Appends out.old.items (line.Region region ∷ []) out.new.items) }
{
    push_line(out, b"a", &[i128::from(region)])
}

// Appends the last line.
#[tactic(auto, unfolding(crate::specs::Lines::line_text))]
fn push_end(out: &mut Vec<u8>) -> Result<(), NoMemory>
    ensures { OnOk result (Appends out.old.items (line.End ∷ []) out.new.items) }
{
    push_plain(out, b"end")
}
