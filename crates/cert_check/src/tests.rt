// Certificates of three cells in a row, and of one cell that is too light.
use crate::fixtures::{Claim, Drawing, Stretch, WHOLE, edge, verdict_of_none, verdict_on};
use crate::{Verdict, proof_law, verdict_law};
use bound_rows::Entry;
use std::alloc::Global;
use std::process::Abort;
use std::test::Fail;

// A certificate of one region of all three cells in class 1, at a cost of 10, with two rows that prove it.
const VALID: Claim<'static> = Claim {
    head: "aggregation 1\nstatus optimal\ncost 10\nbound 10\n",
    groups: "areas 3\nregions 1\nr 0\na 0\na 0\na 0\n",
    tree: "c 1 2\ne 5 0 0 1 0\ne 5 2 0 1 2\n",
};

#[test]
fn a_valid_certificate(rt: HostRuntime) -> Result<(), Fail> {
    let alloc = rt.alloc();
    assert_eq!(rt; verdict_on(&rt, alloc, WHOLE, VALID)?, Verdict::Valid);
    Ok(())
}

// The verdict on the valid certificate with these drawn regions.
fn verdict_of_drawn(
    rt: &impl Abort,
    alloc: Global,
    tx: &'static str,
    regions: &[Stretch],
) -> Result<Verdict, Fail> {
    verdict_on(rt, alloc, Drawing { tx, regions }, VALID)
}

#[test]
fn other_frames_and_counts(rt: HostRuntime) -> Result<(), Fail> {
    let alloc = rt.alloc();
    let whole = Stretch {
        class: "1",
        from: 0,
        to: 3,
    };
    let other = Stretch {
        class: "2",
        ..whole
    };
    let flaw = verdict_of_drawn(&rt, alloc, "-0", &[whole])?;
    assert_eq!(rt; flaw, Verdict::Frame);
    let flaw = verdict_of_drawn(&rt, alloc, "0.0", &[whole, whole])?;
    assert_eq!(rt; flaw, Verdict::Frame);
    let flaw = verdict_of_drawn(&rt, alloc, "0", &[other, whole])?;
    assert_eq!(rt; flaw, Verdict::Regions { drawn: 2 });
    let flaw = verdict_of_drawn(&rt, alloc, "0", &[])?;
    assert_eq!(rt; flaw, Verdict::Regions { drawn: 0 });
    Ok(())
}

#[test]
fn other_classes_and_edges(rt: HostRuntime) -> Result<(), Fail> {
    let alloc = rt.alloc();
    let short = Stretch {
        class: "1",
        from: 0,
        to: 2,
    };
    let other = Stretch {
        class: "2",
        ..short
    };
    let long = Stretch { to: 4, ..short };
    let flaw = verdict_of_drawn(&rt, alloc, "0", &[other])?;
    assert_eq!(rt; flaw, Verdict::DrawnClass { region: 0 });
    let flaw = verdict_of_drawn(&rt, alloc, "0", &[short])?;
    let edge_due = edge(&rt, [2, 0], [3, 0]);
    assert_eq!(rt;
        flaw,
        Verdict::DrawnEdges {
            region: 0,
            edge: edge_due
        }
    );
    let flaw = verdict_of_drawn(&rt, alloc, "0", &[long])?;
    let edge_drawn = edge(&rt, [3, 0], [4, 0]);
    assert_eq!(rt;
        flaw,
        Verdict::DrawnEdges {
            region: 0,
            edge: edge_drawn
        }
    );
    Ok(())
}

#[test]
fn numbers_out_of_range(rt: HostRuntime) -> Result<(), Fail> {
    let alloc = rt.alloc();
    let head = "aggregation 1\nstatus optimal\ncost 11\nbound 10\n";
    for (groups, flaw) in [
        (
            "areas 4\nregions 1\nr 0\na 0\na 0\na 0\na 1\n",
            Verdict::Areas { due: 3 },
        ),
        (
            "areas 2\nregions 1\nr 2\na 0\na 0\n",
            Verdict::Areas { due: 3 },
        ),
        (
            "areas 3\nregions 1\nr 2\na 0\na 1\na 1\n",
            Verdict::Range { area: 1 },
        ),
        (
            "areas 3\nregions 0\na 0\na 0\na 0\n",
            Verdict::Range { area: 0 },
        ),
        (
            "areas 3\nregions 2\nr 0\nr 2\na 0\na 0\na 0\n",
            Verdict::ClassRange { region: 1 },
        ),
    ] {
        let drawing = Drawing { tx: "1", ..WHOLE };
        let claim = Claim {
            head,
            groups,
            ..VALID
        };
        assert_eq!(rt; verdict_on(&rt, alloc, drawing, claim)?, flaw);
    }
    Ok(())
}

#[test]
fn groupings_that_are_not_feasible(rt: HostRuntime) -> Result<(), Fail> {
    let alloc = rt.alloc();
    let head = "aggregation 1\nstatus optimal\ncost 1\nbound 10\n";
    let left = Stretch {
        class: "1",
        from: 0,
        to: 2,
    };
    let right = Stretch {
        class: "2",
        from: 2,
        to: 3,
    };
    for (groups, regions, flaw) in [
        (
            "areas 3\nregions 2\nr 0\nr 1\na 0\na 0\na 1\n",
            [left, right],
            Verdict::NoOwn { region: 1 },
        ),
        (
            "areas 3\nregions 2\nr 0\nr 0\na 0\na 0\na 1\n",
            [
                left,
                Stretch {
                    class: "1",
                    ..right
                },
            ],
            Verdict::TooSmall { region: 1 },
        ),
        (
            "areas 3\nregions 2\nr 0\nr 1\na 0\na 0\na 0\n",
            [Stretch { to: 3, ..left }, Stretch { to: 2, ..right }],
            Verdict::Empty { region: 1 },
        ),
    ] {
        let drawing = Drawing {
            tx: "0",
            regions: regions.as_slice(),
        };
        let claim = Claim {
            head,
            groups,
            ..VALID
        };
        assert_eq!(rt; verdict_on(&rt, alloc, drawing, claim)?, flaw);
    }
    Ok(())
}

#[test]
fn rows_and_splits_that_prove_nothing(rt: HostRuntime) -> Result<(), Fail> {
    let alloc = rt.alloc();
    for (tree, flaw) in [
        (
            "c 1 2\ne -5 0 0 1 0\ne 5 2 0 1 2\n",
            Verdict::Negative { node: 0, row: 0 },
        ),
        (
            "c 1 2\ne 5 0 0 2 0 1\ne 5 2 0 1 2\n",
            Verdict::Row { node: 0, row: 0 },
        ),
        (
            "s 0 0\nc 1 2\ne 5 0 0 1 0\ne 5 2 0 1 2\nf\n",
            Verdict::NotFixed { node: 2, area: 1 },
        ),
        ("s 0 2\nc 1 0\nc 1 0\n", Verdict::Split { node: 0 }),
        ("v 0\n", Verdict::NotVoid { node: 0, total: 0 }),
    ] {
        let claim = Claim { tree, ..VALID };
        assert_eq!(rt; verdict_on(&rt, alloc, WHOLE, claim)?, flaw);
    }
    Ok(())
}

#[test]
fn a_number_past_128_bits(rt: HostRuntime) -> Result<(), Fail> {
    let alloc = rt.alloc();
    let tree =
        "c 1 2\ne 170141183460469231731687303715884105727 0 0 1 0\ne 170141183460469231731687303715884105727 0 0 1 0\n";
    let entry = Entry::Choice { area: 0, class: 0 };
    assert_eq!(rt;
        verdict_on(&rt, alloc, WHOLE, Claim { tree, ..VALID })?,
        Verdict::Wide { node: 0, entry }
    );
    Ok(())
}

#[test]
fn costs_and_bounds(rt: HostRuntime) -> Result<(), Fail> {
    let alloc = rt.alloc();
    let negative = "c 1 1\ne -5 0 0 1 0\n";
    for (head, tree, flaw) in [
        (
            "aggregation 1\nstatus optimal\ncost 11\nbound 10\n",
            negative,
            Verdict::Cost { due: 10 },
        ),
        (
            "aggregation 1\nstatus optimal\ncost 10\nbound 9\n",
            negative,
            Verdict::Negative { node: 0, row: 0 },
        ),
        (
            "aggregation 1\nstatus within\ncost 10\nbound 11\n",
            VALID.tree,
            Verdict::Bound { due: Some(10) },
        ),
        (
            "aggregation 1\nstatus within\ncost 10\nbound 10\n",
            VALID.tree,
            Verdict::Status,
        ),
        (
            "aggregation 1\nstatus optimal\ncost 10\nbound 0\n",
            "c 1 0\n",
            Verdict::Status,
        ),
        (
            "aggregation 1\nstatus within\ncost 10\nbound 0\n",
            "c 1 0\n",
            Verdict::Valid,
        ),
    ] {
        let claim = Claim {
            head,
            tree,
            ..VALID
        };
        assert_eq!(rt; verdict_on(&rt, alloc, WHOLE, claim)?, flaw);
    }
    Ok(())
}

#[test]
fn nothing_is_feasible(rt: HostRuntime) -> Result<(), Fail> {
    let alloc = rt.alloc();
    let head = "aggregation 1\nstatus none\ncost -\nbound -\n";
    for (groups, tree, flaw) in [
        ("areas 1\nregions 0\n", "v 1\ne 1 0 0 1 0\n", Verdict::Valid),
        (
            "areas 1\nregions 0\n",
            "v 1\ne 0 0 0 1 0\n",
            Verdict::NotVoid { node: 0, total: 0 },
        ),
        (
            "areas 1\nregions 0\n",
            "c 1 0\n",
            Verdict::Bound { due: Some(0) },
        ),
        ("areas 2\nregions 0\n", "v 0\n", Verdict::Areas { due: 1 }),
    ] {
        let claim = Claim { head, groups, tree };
        assert_eq!(rt; verdict_of_none(&rt, alloc, claim)?, flaw);
    }
    Ok(())
}

#[test]
fn laws() {
    verdict_law();
    proof_law();
}
