// A map of three cells in a row, a map of one cell, and the verdicts on certificates for them.
ghost use Rattle.std.specs.Prelude.{◌≡◌, IfOk};
ghost use Rattle.cert_text.specs.CertTexts.{HasSpelling, is_hopeless};

use crate::{Verdict, judge};
use agg_base::Text;
use agg_base::limits::TEXT_BYTES;
use agg_model::{Link, Problem, ProblemParts};
use cert_reader::read;
use cert_text::{CertStatus, Certificate};
use coverage_check::{Checked, check};
use crew_work::Alone;
use plane_edge::{Area, Coverage, Edge, Frame, Point};
use std::alloc::Global;
use std::process::Abort;
use std::test::Fail;

// A point within the limit.
fn point(rt: &impl Abort, x: i64, y: i64) -> Point {
    Point::of(x, y).expect(rt, "a coordinate past the limit")
}

// The edge between two points.
pub(crate) fn edge(rt: &impl Abort, a: [i64; 2], b: [i64; 2]) -> Edge {
    Edge::of(point(rt, a[0], a[1]), point(rt, b[0], b[1])).expect(rt, "equal ends")
}

// The points of one row, from one column to another.
fn side(rt: &impl Abort, alloc: Global, y: i64, from: i64, to: i64) -> Result<Vec<Point>, Fail> {
    let mut points = Vec::new(alloc);
    for x in from..to {
        points.push(point(rt, x, y))?;
    }
    points.push(point(rt, to, y))?;
    Ok(points)
}

// The cells from one column to another, as one area; without an edge where the columns are the same.
fn area_of(rt: &impl Abort, alloc: Global, cells: Stretch) -> Result<Area, Fail> {
    let mut ring = side(rt, alloc, 0, cells.from, cells.to)?;
    for point in side(rt, alloc, 1, cells.from, cells.to)?.iter().rev() {
        ring.push(*point)?;
    }
    let mut rings = Vec::new(alloc);
    rings.push(ring)?;
    Ok(Area::of_rings(alloc, Text::of(alloc, cells.class)?, &rings)?)
}

// Cells of one row, as one area of a map.
#[derive(Clone, Copy)]
pub(crate) struct Stretch {
    // The class text.
    pub class: &'static str,
    // The column of the left side.
    pub from: i64,
    // The column of the right side.
    pub to: i64,
}

// A drawn map: how its frame writes the shift to the right, and its regions.
#[derive(Clone, Copy)]
pub(crate) struct Drawing<'a> {
    pub tx: &'static str,
    pub regions: &'a [Stretch],
}

// The one region of all three cells in class 1.
pub(crate) const WHOLE: Drawing<'static> = Drawing {
    tx: "0",
    regions: &[Stretch {
        class: "1",
        from: 0,
        to: 3,
    }],
};

// The coverage of a drawn map.
fn coverage(rt: &impl Abort, alloc: Global, drawing: Drawing) -> Result<Coverage, Fail> {
    let frame = Frame::Scaled {
        sx: Text::of(alloc, "1")?,
        sy: Text::of(alloc, "1")?,
        tx: Text::of(alloc, drawing.tx)?,
        ty: Text::of(alloc, "0")?,
    };
    let mut areas = Vec::new(alloc);
    for cells in drawing.regions {
        areas.push(area_of(rt, alloc, *cells)?)?;
    }
    Ok(Coverage::of(areas, 0, frame).expect(rt, "too many areas"))
}

// The checked map of one drawing.
fn checked(rt: &impl Abort, alloc: Global, drawing: Drawing) -> Result<Checked, Fail> {
    match check(alloc, coverage(rt, alloc, drawing)?, &Alone) {
        Ok(checked) => Ok(checked),
        Err(_) => Err(Fail::new("a fault of the coverage")),
    }
}

// Three cells of the classes 1, 2 and 1.
const CELLS: [Stretch; 3] = [
    Stretch {
        class: "1",
        from: 0,
        to: 1,
    },
    Stretch {
        class: "2",
        from: 1,
        to: 2,
    },
    Stretch {
        class: "1",
        from: 2,
        to: 3,
    },
];

// The problem of these parts.
fn made(parts: ProblemParts) -> Result<Problem, Fail> {
    match Problem::of(parts) {
        Some(problem) => Ok(problem),
        None => Err(Fail::new("no problem")),
    }
}

// The problem of the three cells: thresholds of 4, distances of 5, border weight 1.
fn three(alloc: Global) -> Result<Problem, Fail> {
    made(ProblemParts {
        classes: 2,
        own: vec![in alloc; 0, 1, 0]?,
        weight: vec![in alloc; 2, 2, 2]?,
        links: vec![in alloc;
            Link {
                a: 0,
                b: 1,
                length: 256
            },
            Link {
                a: 1,
                b: 2,
                length: 256
            },
        ]?,
        distance: vec![in alloc; 0, 5, 5, 0]?,
        threshold: vec![in alloc; 4, 4]?,
        border: 1,
    })
}

// The problem of one cell with a threshold of 4, which it does not weigh.
fn light(alloc: Global) -> Result<Problem, Fail> {
    made(ProblemParts {
        classes: 1,
        own: vec![in alloc; 0]?,
        weight: vec![in alloc; 2]?,
        links: Vec::new(alloc),
        distance: vec![in alloc; 0]?,
        threshold: vec![in alloc; 4]?,
        border: 0,
    })
}

// Whether a certificate has no grouping.
fn is_hopeless(status: CertStatus) -> bool
    ensures { result ≡ is_hopeless status }
{
    match status {
        CertStatus::Optimal => false,
        CertStatus::Within => false,
        CertStatus::Hopeless => true,
    }
}

// The text of a certificate, but for its last line.
#[derive(Clone, Copy)]
pub(crate) struct Claim<'a> {
    // The version, the status, the cost and the bound.
    pub head: &'a str,
    // The counts, the class of each region and the region of each area.
    pub groups: &'a str,
    // The tree.
    pub tree: &'a str,
}

// The whole text.
fn text_of(alloc: Global, claim: Claim) -> Result<String, Fail> {
    let (head, groups, tree) = (claim.head, claim.groups, claim.tree);
    Ok(format!(in alloc; "{head}{groups}{tree}end\n")?)
}

// The certificate that the text spells.
fn certificate(alloc: Global, text: &str) -> Result<Certificate, Fail>
    ensures { IfOk result (λ c. HasSpelling c) }
{
    if text.len() > TEXT_BYTES {
        return Err(Fail::new("a text that is too long"));
    }
    match read(alloc, text.as_bytes()) {
        Ok(certificate) => Ok(certificate),
        Err(_) => Err(Fail::new("a fault of the certificate")),
    }
}

// The verdict on a certificate of a map without a drawing, where the certificate has no grouping.
fn judged_without(
    rt: &impl Abort,
    alloc: Global,
    checked: &Checked,
    problem: &Problem,
    names: &[Text],
    certificate: &Certificate,
) -> Result<Verdict, Fail>
    requires spelling { HasSpelling certificate.now }
{
    assert!(rt; checked.areas() == problem.areas() as usize);
    assert!(rt; names.len() == problem.classes() as usize);
    assert!(rt; is_hopeless(certificate.status));
    let verdict = judge(alloc, checked, problem, names, None, certificate, &Alone)?;
    Ok(verdict)
}

// The verdict on a certificate of a map with a drawing, where the certificate has a grouping.
fn judged_with(
    rt: &impl Abort,
    alloc: Global,
    checked: &Checked,
    problem: &Problem,
    names: &[Text],
    drawn: &Coverage,
    certificate: &Certificate,
) -> Result<Verdict, Fail>
    requires spelling { HasSpelling certificate.now }
{
    assert!(rt; checked.areas() == problem.areas() as usize);
    assert!(rt; names.len() == problem.classes() as usize);
    assert!(rt; !is_hopeless(certificate.status));
    let verdict = judge(
        alloc,
        checked,
        problem,
        names,
        Some(drawn),
        certificate,
        &Alone,
    )?;
    Ok(verdict)
}

// The names of the two classes.
fn names(alloc: Global) -> Result<Vec<Text>, Fail> {
    let mut names = Vec::new(alloc);
    names.push(Text::of(alloc, "1")?)?;
    names.push(Text::of(alloc, "2")?)?;
    Ok(names)
}

// The name of the one class.
fn one_name(alloc: Global) -> Result<Vec<Text>, Fail> {
    let mut names = Vec::new(alloc);
    names.push(Text::of(alloc, "1")?)?;
    Ok(names)
}

// The checked map of the first of the three cells, so many of them.
fn cells(rt: &impl Abort, alloc: Global, count: usize) -> Result<Checked, Fail> {
    let regions = CELLS.get(..count).unwrap_or(&[]);
    checked(rt, alloc, Drawing { tx: "0", regions })
}

// The certificate of a claim.
fn claimed(alloc: Global, claim: Claim) -> Result<Certificate, Fail>
    ensures { IfOk result (λ c. HasSpelling c) }
{
    let text = text_of(alloc, claim)?;
    certificate(alloc, &text)
}

// The verdict on a claim about a map, with this drawing.
fn drawn_so(
    rt: &impl Abort,
    alloc: Global,
    checked: &Checked,
    problem: &Problem,
    drawing: Drawing,
    claim: Claim,
) -> Result<Verdict, Fail> {
    let names = names(alloc)?;
    let drawn = coverage(rt, alloc, drawing)?;
    let certificate = claimed(alloc, claim)?;
    judged_with(rt, alloc, checked, problem, &names, &drawn, &certificate)
}

// The verdict on a claim about a map, without a drawing.
fn not_drawn(
    rt: &impl Abort,
    alloc: Global,
    checked: &Checked,
    problem: &Problem,
    claim: Claim,
) -> Result<Verdict, Fail> {
    let names = one_name(alloc)?;
    let certificate = claimed(alloc, claim)?;
    judged_without(rt, alloc, checked, problem, &names, &certificate)
}

// The verdict on a certificate of the three cells with this drawing.
pub(crate) fn verdict_on(
    rt: &impl Abort,
    alloc: Global,
    drawing: Drawing,
    claim: Claim,
) -> Result<Verdict, Fail> {
    let checked = cells(rt, alloc, 3)?;
    let problem = three(alloc)?;
    drawn_so(rt, alloc, &checked, &problem, drawing, claim)
}

// The verdict on a certificate that the one cell has no feasible grouping.
pub(crate) fn verdict_of_none(
    rt: &impl Abort,
    alloc: Global,
    claim: Claim,
) -> Result<Verdict, Fail> {
    let checked = cells(rt, alloc, 1)?;
    let problem = light(alloc)?;
    not_drawn(rt, alloc, &checked, &problem, claim)
}
