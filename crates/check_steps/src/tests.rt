// Worked certificates, and the lines of flaws that are rare.
use crate::{
    certificate_lines_law, drawn_lines_law, judge_loaded, one_verdict_law, read_certificate,
    read_drawn, valid_holds_law, valid_verdict_law, verdict_line,
};
use agg_base::limits::{MAP_BYTES, OUT_BYTES, TABLE_BYTES, TEXT_BYTES};
use agg_base::{NoMemory, Text};
use bound_rows::Entry;
use cert_check::Verdict;
use cert_text::CertStatus;
use crew_work::Alone;
use generalise_steps::{Format, Halt, load};
use plane_edge::{Edge, Point};
use std::alloc::Global;
use std::process::Abort;
use std::test::Fail;

const MAP: &[u8] = b"ncols 3\nnrows 1\nxllcorner 0\nyllcorner 0\ncellsize 1\n1 2 1\n";

const TABLE: &[u8] = b"classes 1\nunit 1 1\nborder 1\nclass 4 1\nclass 4 2\nrow 0 5\nrow 5 0\n";

const CERTIFICATE: &str =
    "aggregation 1\nstatus optimal\ncost 10\nbound 10\nareas 3\nregions 1\nr 0\na 0\na 0\na 0\nc 1 2\ne 5 0 0 1 0\ne 5 2 0 1 2\nend\n";

const OUT: &str =
    "{\"type\":\"Topology\",\"transform\":{\"scale\":[1,1],\"translate\":[0,0]},\"objects\":{\"regions\":{\"type\":\"GeometryCollection\",\"geometries\":[{\"type\":\"MultiPolygon\",\"id\":0,\"properties\":{\"class\":\"1\"},\"arcs\":[[[0]]]}]}},\"arcs\":[[[0,0],[1,0],[1,0],[1,0],[0,1],[-1,0],[-1,0],[-1,0],[0,-1]]]}\n";

// A map, a class table, a certificate and a drawn map.
#[derive(Clone, Copy)]
struct Texts<'a> {
    map: &'a [u8],
    table: &'a [u8],
    certificate: &'a str,
    out: &'a str,
}

// Those of a row of three cells, of which one changes its class.
const ROW: Texts<'static> = Texts {
    map: MAP,
    table: TABLE,
    certificate: CERTIFICATE,
    out: OUT,
};

// The line that is due for the texts.
fn judged(alloc: Global, texts: Texts) -> Result<Text, Halt> {
    if texts.map.len() > MAP_BYTES || texts.table.len() > TABLE_BYTES {
        return Err(Halt::Memory);
    }
    if texts.certificate.len() > TEXT_BYTES || texts.out.len() > OUT_BYTES {
        return Err(Halt::Memory);
    }
    let loaded = load(alloc, &Format::Grid, texts.map, texts.table, &Alone)?;
    let certificate = read_certificate(alloc, texts.certificate.as_bytes())?;
    let judgement = match certificate.status {
        CertStatus::Hopeless => judge_loaded(alloc, &loaded, None, &certificate, &Alone),
        CertStatus::Optimal | CertStatus::Within => {
            let drawn = read_drawn(alloc, texts.out.as_bytes())?;
            judge_loaded(alloc, &loaded, Some(&drawn), &certificate, &Alone)
        }
    };
    match judgement {
        Ok(judgement) => Ok(judgement.line),
        Err(NoMemory) => Err(Halt::Memory),
    }
}

// Whether that line is due for the texts, also where one of them is refused by it.
fn says(alloc: Global, texts: Texts, line: &str) -> Result<bool, NoMemory> {
    match judged(alloc, texts) {
        Ok(said) => Ok(said.as_str() == line),
        Err(Halt::Refused(said)) => Ok(said.as_str() == line),
        Err(Halt::Memory) => Err(NoMemory),
    }
}

// Whether that line is due for a certificate of the row with these numbers and this leaf.
fn row_says(
    alloc: Global,
    status: &str,
    cost: &str,
    leaf: &str,
    line: &str,
) -> Result<bool, NoMemory> {
    let certificate = format!(in alloc;
        "aggregation 1\nstatus {status}\ncost {cost}\nbound 10\nareas 3\nregions 1\nr 0\na 0\na 0\na 0\n{leaf}end\n"
    )?;
    let texts = Texts {
        certificate: certificate.as_str(),
        ..ROW
    };
    says(alloc, texts, line)
}

#[test]
fn a_valid_certificate(rt: HostRuntime) -> Result<(), Fail> {
    let alloc = rt.alloc();
    assert!(rt; says(alloc, ROW, "valid optimal 10 10\n")?);
    let leaf = "c 1 2\ne 5 0 0 1 0\ne 5 2 0 1 2\n";
    assert!(rt; row_says(alloc, "within", "10", leaf, "invalid Status\n")?);
    assert!(rt; row_says(alloc, "optimal", "11", leaf, "invalid Cost 10\n")?);
    Ok(())
}

#[test]
fn rows_that_are_not_good(rt: HostRuntime) -> Result<(), Fail> {
    let alloc = rt.alloc();
    for (leaf, line) in [
        (
            "c 1 2\ne -5 0 0 1 0\ne 5 2 0 1 2\n",
            "invalid Negative 0 0\n",
        ),
        ("c 1 2\ne 5 0 0 2 0 1\ne 5 2 0 1 2\n", "invalid Row 0 0\n"),
        ("s 0 0\nc 1 0\n", "refused: certificate Line 13\n"),
        (
            "c 1 2\ne 170141183460469231731687303715884105727 0 0 1 0\ne 170141183460469231731687303715884105727 0 0 1 0\n",
            "invalid Wide 0 choice 0 0\n",
        ),
    ] {
        assert!(rt; row_says(alloc, "optimal", "10", leaf, line)?);
    }
    Ok(())
}

#[test]
fn other_drawings(rt: HostRuntime) -> Result<(), Fail> {
    let alloc = rt.alloc();
    for (transform, class, step, line) in [
        ("[1,1]", "2", "[1,0]", "invalid DrawnClass 0\n"),
        ("[1,1.0]", "1", "[1,0]", "invalid Frame\n"),
        ("[1,1]", "1", "[1,-1]", "refused: out OpenRing 0\n"),
    ] {
        let out = format!(in alloc;
            "{{\"type\":\"Topology\",\"transform\":{{\"scale\":{transform},\"translate\":[0,0]}},\"objects\":{{\"regions\":{{\"type\":\"MultiPolygon\",\"properties\":{{\"class\":\"{class}\"}},\"arcs\":[[[0]]]}}}},\"arcs\":[[[0,0],[1,0],{step},[1,0],[0,1],[-1,0],[-1,0],[-1,0],[0,-1]]]}}"
        )?;
        let texts = Texts {
            out: out.as_str(),
            ..ROW
        };
        assert!(rt; says(alloc, texts, line)?);
    }
    let texts = Texts {
        out: "{\"type\":",
        ..ROW
    };
    assert!(rt; says(alloc, texts, "refused: out Syntax 8\n")?);
    let texts = Texts { out: "{}", ..ROW };
    assert!(rt; says(alloc, texts, "refused: out NotTopology\n")?);
    Ok(())
}

#[test]
fn nothing_is_feasible(rt: HostRuntime) -> Result<(), Fail> {
    let alloc = rt.alloc();
    let texts = Texts {
        map: b"ncols 1\nnrows 1\nxllcorner 0\nyllcorner 0\ncellsize 1\n1\n",
        table: b"classes 1\nborder 0\nclass 4 1\nrow 0\n",
        certificate: "aggregation 1\nstatus none\ncost -\nbound -\nareas 1\nregions 0\nv 1\ne 1 0 0 1 0\nend\n",
        out: "",
    };
    assert!(rt; says(alloc, texts, "valid none - -\n")?);
    assert!(rt;
        says(
            alloc,
            Texts {
                table: b"classes 1\nborder 0\nclass 2 1\nrow 0\n",
                ..texts
            },
            "invalid Row 0 0\n"
        )?
    );
    Ok(())
}

// Whether the verdict has that line.
fn is_line(alloc: Global, verdict: Verdict, line: &str) -> Result<bool, NoMemory> {
    let text = CERTIFICATE.as_bytes();
    if text.len() > TEXT_BYTES {
        return Err(NoMemory);
    }
    let Ok(certificate) = read_certificate(alloc, text) else {
        return Err(NoMemory);
    };
    Ok(verdict_line(alloc, &certificate, verdict)?.as_str() == line)
}

#[test]
fn rarer_flaws_have_lines(rt: HostRuntime) -> Result<(), Fail> {
    let alloc = rt.alloc();
    let (entry, node) = (Entry::TotalLink { link: 7 }, 4_294_967_295);
    let low = Point::of(-1_073_741_824, 0).expect(&rt, "a coordinate past the limit");
    let high = Point::of(2, 5).expect(&rt, "a coordinate past the limit");
    let edge = Edge::of(high, low).expect(&rt, "equal ends");
    for (verdict, line) in [
        (
            Verdict::Wide { node, entry },
            "invalid Wide 4294967295 total-link 7\n",
        ),
        (Verdict::Bound { due: None }, "invalid Bound -\n"),
        (Verdict::Bound { due: Some(-3) }, "invalid Bound -3\n"),
        (
            Verdict::NotVoid { node: 2, total: -9 },
            "invalid NotVoid 2 -9\n",
        ),
        (
            Verdict::DrawnEdges { region: 1, edge },
            "invalid DrawnEdges 1 -1073741824 0 2 5\n",
        ),
        (Verdict::Regions { drawn: 0 }, "invalid Regions 0\n"),
    ] {
        assert!(rt; is_line(alloc, verdict, line)?);
    }
    Ok(())
}

#[test]
fn laws_hold() {
    certificate_lines_law();
    drawn_lines_law();
    one_verdict_law();
    valid_verdict_law();
    valid_holds_law();
}
