// The lines of a certificate in front of its tree, and its last one.
ghost use Rattle.std.specs.Prelude.{◌≡◌, ◌<◌, ◌≤◌, ◌∷◌, [], true, length, map, replicate, is_none, FitsSigned, All, IfOk, IfErr};
ghost use Rattle.std.specs.Option.{ForSome};
ghost use Rattle.std.specs.Int.{w128};
ghost use Rattle.agg_base.specs.declared.limits.TheConstants.{AREAS, CLASSES};
ghost use Rattle.cert_text.specs.CertTexts.{is_hopeless};
ghost use Rattle.cert_reader.specs.Due.{VersionDue, StatusDue, CostDue, BoundDue, AreasDue, RegionsDue, ClassDue, RegionDue, EndDue, behind_regions, fits_status, has_too_many};
ghost use Rattle.cert_reader.specs.Reads.{ReadsPlainly, Fails};
ghost use Rattle.cert_reader.specs.declared.line.Line.TheVariants as line;

use crate::line::Line;
use crate::source::Source;
use cert_text::{CertFault, CertStatus};
use std::alloc::Global;

// The version.
pub(crate) fn read_version(alloc: Global, source: &mut Source<'_>) -> Result<(), CertFault>
    ensures read { IfOk result (λ _. ReadsPlainly (VersionDue ∷ []) (StatusDue ∷ []) (line.Version ∷ []) source.old source.new) }
    ensures fault { IfErr result (Fails (VersionDue ∷ []) source.old) }
{
    let number = source.number();
    let said = source.next(alloc)?;
    let Line::Version = said else {
        return Err(CertFault::Line { number });
    };
    Ok(())
}

// The status.
pub(crate) fn read_status(alloc: Global, source: &mut Source<'_>) -> Result<CertStatus, CertFault>
    ensures read { IfOk result (λ status. ReadsPlainly (StatusDue ∷ []) (CostDue (is_hopeless status) ∷ []) (line.Status status ∷ []) source.old source.new) }
    ensures fault { IfErr result (Fails (StatusDue ∷ []) source.old) }
{
    let number = source.number();
    let said = source.next(alloc)?;
    let Line::Status(status) = said else {
        return Err(CertFault::Line { number });
    };
    Ok(status)
}

// The cost.
pub(crate) fn read_cost(
    alloc: Global,
    source: &mut Source<'_>,
    hopeless: bool,
) -> Result<Option<i128>, CertFault>
    ensures read { IfOk result (λ cost. ReadsPlainly (CostDue hopeless ∷ []) (BoundDue hopeless ∷ []) (line.Cost cost ∷ []) source.old source.new) }
    ensures there { IfOk result (λ cost. is_none cost ≡ hopeless) }
    ensures fits { IfOk result (λ cost. ForSome cost (FitsSigned w128)) }
    ensures fault { IfErr result (Fails (CostDue hopeless ∷ []) source.old) }
{
    let number = source.number();
    let said = source.next(alloc)?;
    let Line::Cost(cost) = said else {
        return Err(CertFault::Line { number });
    };
    let fits = fits_status(hopeless, cost);
    if fits {
        Ok(cost)
    } else {
        Err(CertFault::Line { number })
    }
}

// The bound.
pub(crate) fn read_bound(
    alloc: Global,
    source: &mut Source<'_>,
    hopeless: bool,
) -> Result<Option<i128>, CertFault>
    ensures read { IfOk result (λ bound. ReadsPlainly (BoundDue hopeless ∷ []) (AreasDue hopeless ∷ []) (line.Bound bound ∷ []) source.old source.new) }
    ensures there { IfOk result (λ bound. is_none bound ≡ hopeless) }
    ensures fits { IfOk result (λ bound. ForSome bound (FitsSigned w128)) }
    ensures fault { IfErr result (Fails (BoundDue hopeless ∷ []) source.old) }
{
    let number = source.number();
    let said = source.next(alloc)?;
    let Line::Bound(bound) = said else {
        return Err(CertFault::Line { number });
    };
    let fits = fits_status(hopeless, bound);
    if fits {
        Ok(bound)
    } else {
        Err(CertFault::Line { number })
    }
}

// Whether a dash stands exactly where no grouping is feasible.
fn fits_status(hopeless: bool, number: Option<i128>) -> bool
    ensures { result ≡ fits_status hopeless number }
{
    number.is_none() == hopeless
}

// How many areas there are.
pub(crate) fn read_areas(
    alloc: Global,
    source: &mut Source<'_>,
    hopeless: bool,
) -> Result<u32, CertFault>
    ensures read { IfOk result (λ areas. ReadsPlainly (AreasDue hopeless ∷ []) (RegionsDue hopeless areas ∷ []) (line.Areas areas ∷ []) source.old source.new) }
    ensures range { IfOk result (λ areas. areas ≤ AREAS) }
    ensures fault { IfErr result (Fails (AreasDue hopeless ∷ []) source.old) }
{
    let number = source.number();
    let said = source.next(alloc)?;
    let Line::Areas(areas) = said else {
        return Err(CertFault::Line { number });
    };
    Ok(areas)
}

// Whether there are regions where no grouping is feasible.
fn has_too_many(hopeless: bool, regions: u32) -> bool
    ensures { result ≡ has_too_many hopeless regions }
{
    hopeless && regions != 0
}

// How many regions there are.
pub(crate) fn read_regions(
    alloc: Global,
    source: &mut Source<'_>,
    hopeless: bool,
    areas: u32,
) -> Result<u32, CertFault>
    ensures read { IfOk result (λ regions. ReadsPlainly (RegionsDue hopeless areas ∷ []) (behind_regions hopeless areas regions) (line.Regions regions ∷ []) source.old source.new) }
    ensures range { IfOk result (λ regions. regions ≤ AREAS) }
    ensures none { IfOk result (λ regions. hopeless ≡ true → regions ≡ 0) }
    ensures fault { IfErr result (Fails (RegionsDue hopeless areas ∷ []) source.old) }
{
    let number = source.number();
    let said = source.next(alloc)?;
    let Line::Regions(regions) = said else {
        return Err(CertFault::Line { number });
    };
    let too_many = has_too_many(hopeless, regions);
    if too_many {
        Err(CertFault::Line { number })
    } else {
        Ok(regions)
    }
}

// The class of a region.
fn read_class(alloc: Global, source: &mut Source<'_>) -> Result<u8, CertFault>
    ensures read { IfOk result (λ class. ReadsPlainly (ClassDue ∷ []) ([]) (line.Class class ∷ []) source.old source.new) }
    ensures range { IfOk result (λ class. class < CLASSES) }
    ensures fault { IfErr result (Fails (ClassDue ∷ []) source.old) }
{
    let number = source.number();
    let said = source.next(alloc)?;
    let Line::Class(class) = said else {
        return Err(CertFault::Line { number });
    };
    Ok(class)
}

// The region of an area.
fn read_region(alloc: Global, source: &mut Source<'_>) -> Result<u32, CertFault>
    ensures read { IfOk result (λ region. ReadsPlainly (RegionDue ∷ []) ([]) (line.Region region ∷ []) source.old source.new) }
    ensures range { IfOk result (λ region. region < AREAS) }
    ensures fault { IfErr result (Fails (RegionDue ∷ []) source.old) }
{
    let number = source.number();
    let said = source.next(alloc)?;
    let Line::Region(region) = said else {
        return Err(CertFault::Line { number });
    };
    Ok(region)
}

// The classes of so many regions.
pub(crate) fn read_classes(
    alloc: Global,
    source: &mut Source<'_>,
    count: u32,
) -> Result<Vec<u8>, CertFault>
    ensures read { IfOk result (λ classes. ReadsPlainly (replicate count ClassDue) [] (map line.Class classes.items) source.old source.new) }
    ensures range { IfOk result (λ classes. All (λ class. class < CLASSES) classes.items) }
    ensures count { IfOk result (λ classes. length classes.items ≡ count) }
    ensures fault { IfErr result (Fails (replicate count ClassDue) source.old) }
{
    let mut classes = Vec::new(alloc);
    for _place in 0..count {
        let class = read_class(alloc, source)?;
        classes.push(class)?;
    }
    Ok(classes)
}

// The regions of so many areas.
pub(crate) fn read_places(
    alloc: Global,
    source: &mut Source<'_>,
    count: u32,
) -> Result<Vec<u32>, CertFault>
    ensures read { IfOk result (λ places. ReadsPlainly (replicate count RegionDue) [] (map line.Region places.items) source.old source.new) }
    ensures range { IfOk result (λ places. All (λ region. region < AREAS) places.items) }
    ensures count { IfOk result (λ places. length places.items ≡ count) }
    ensures fault { IfErr result (Fails (replicate count RegionDue) source.old) }
{
    let mut places = Vec::new(alloc);
    for _place in 0..count {
        let region = read_region(alloc, source)?;
        places.push(region)?;
    }
    Ok(places)
}

// The last line.
pub(crate) fn read_end(alloc: Global, source: &mut Source<'_>) -> Result<(), CertFault>
    ensures read { IfOk result (λ _. ReadsPlainly (EndDue ∷ []) [] (line.End ∷ []) source.old source.new) }
    ensures fault { IfErr result (Fails (EndDue ∷ []) source.old) }
{
    let number = source.number();
    let said = source.next(alloc)?;
    let Line::End = said else {
        return Err(CertFault::Line { number });
    };
    Ok(())
}
