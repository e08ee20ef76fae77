// What sums of rows are worth, and which fault comes first.
use crate::fixtures::{only, row, rows, triangle, worth};
use bound_rows::{
    Bound, Domains, Entry, Leaf, LeafProof, Row, RowSum, Scratch, Tree, Unsound, Weak, marks,
};
use std::test::Fail;

const MOST: i128 = i128::MAX;

fn costs(denominator: u32, rows: Vec<(Row, i128)>) -> Result<RowSum, Fail> {
    if rows.len() > 9 {
        return Err(Fail::new("too many rows"));
    }
    Ok(RowSum {
        denominator,
        void: false,
        rows,
    })
}

fn voids(rows: Vec<(Row, i128)>) -> Result<RowSum, Fail> {
    if rows.len() > 9 {
        return Err(Fail::new("too many rows"));
    }
    Ok(RowSum {
        denominator: 1,
        void: true,
        rows,
    })
}

#[test]
fn two_escape_rows_prove_the_cost(rt: HostRuntime) -> Result<(), Fail> {
    let alloc = rt.alloc();
    let problem = row(alloc)?;
    let domains = Domains::whole(alloc, &problem)?;
    let rows = rows(alloc, &[], &[(0, 0, &[0], 5), (2, 0, &[2], 5)])?;
    let sum = costs(1, rows)?.copy(alloc)?;
    let value = worth(alloc, &sum, &problem, &domains)?;
    assert_eq!(rt; value, Ok(Bound::Least(10)));
    assert_eq!(rt; marks(&sum), 18);
    Ok(())
}

#[test]
fn three_rows_at_one_choice(rt: HostRuntime) -> Result<(), Fail> {
    let alloc = rt.alloc();
    let problem = row(alloc)?;
    let domains = Domains::whole(alloc, &problem)?;
    // Class 0 costs area 1 at first 20, then 3 more, then twice 10 less. What is left of the areas is 7, 0 and 10, which is 17 over 2.
    let rows = rows(
        alloc,
        &[(0, 1, 0, 3)],
        &[(0, 0, &[0], 10), (2, 0, &[2], 10)],
    )?;
    let value = worth(alloc, &costs(2, rows)?, &problem, &domains)?;
    assert_eq!(rt; value, Ok(Bound::Least(9)));
    Ok(())
}

#[test]
fn a_quarter_is_rounded_up(rt: HostRuntime) -> Result<(), Fail> {
    let alloc = rt.alloc();
    let problem = row(alloc)?;
    let domains = Domains::whole(alloc, &problem)?;
    // What is left is 1 at area 0, and nothing at the others and at the links.
    let rows = rows(alloc, &[], &[(0, 0, &[0], 1)])?;
    let value = worth(alloc, &costs(4, rows)?, &problem, &domains)?;
    assert_eq!(rt; value, Ok(Bound::Least(1)));
    Ok(())
}

#[test]
fn totals_below_zero_are_rounded_up(rt: HostRuntime) -> Result<(), Fail> {
    let alloc = rt.alloc();
    let problem = row(alloc)?;
    let mut domains = Domains::whole(alloc, &problem)?;
    only(&mut domains, 1, 1, 0)?;
    // What is left is 20 at area 0, nothing at the others, and 512 - 535 at link 0.
    let rows = rows(alloc, &[(0, 0, 0, 535)], &[])?;
    let value = worth(alloc, &costs(2, rows)?, &problem, &domains)?;
    assert_eq!(rt; value, Ok(Bound::Least(-1)));
    Ok(())
}

#[test]
fn a_neighbour_of_two_members_counts_once(rt: HostRuntime) -> Result<(), Fail> {
    let alloc = rt.alloc();
    let problem = triangle(alloc)?;
    let mut domains = Domains::whole(alloc, &problem)?;
    only(&mut domains, 2, 1, 0)?;
    let rows = rows(alloc, &[], &[(0, 1, &[0, 1], 3)])?;
    let value = worth(alloc, &costs(1, rows)?, &problem, &domains)?;
    assert_eq!(rt; value, Ok(Bound::Least(7)));
    Ok(())
}

#[test]
fn a_void_sum(rt: HostRuntime) -> Result<(), Fail> {
    let alloc = rt.alloc();
    let problem = row(alloc)?;
    let mut domains = Domains::whole(alloc, &problem)?;
    // With class 0 at area 0 and class 1 at area 1, area 0 is a region of its own, and too light.
    only(&mut domains, 0, 0, 1)?;
    only(&mut domains, 1, 1, 0)?;
    let rows = rows(alloc, &[], &[(0, 0, &[0], 1)])?;
    let value = worth(alloc, &voids(rows)?, &problem, &domains)?;
    assert_eq!(rt; value, Ok(Bound::Void));
    Ok(())
}

#[test]
fn a_void_sum_of_nothing(rt: HostRuntime) -> Result<(), Fail> {
    let alloc = rt.alloc();
    let problem = row(alloc)?;
    let domains = Domains::whole(alloc, &problem)?;
    let rows = rows(alloc, &[], &[])?;
    let value = worth(alloc, &voids(rows)?, &problem, &domains)?;
    assert_eq!(rt; value, Err(Weak::NotVoid { total: 0 }));
    Ok(())
}

#[test]
fn a_number_at_a_choice_that_is_not_allowed(rt: HostRuntime) -> Result<(), Fail> {
    let alloc = rt.alloc();
    let problem = row(alloc)?;
    let mut domains = Domains::whole(alloc, &problem)?;
    only(&mut domains, 0, 1, 0)?;
    let rows = rows(alloc, &[], &[(0, 0, &[0], MOST), (0, 0, &[0], MOST)])?;
    let value = worth(alloc, &voids(rows)?, &problem, &domains)?;
    let entry = Entry::Choice { area: 0, class: 0 };
    assert_eq!(rt; value, Err(Weak::Wide { entry }));
    Ok(())
}

#[test]
fn a_link_before_choices(rt: HostRuntime) -> Result<(), Fail> {
    let alloc = rt.alloc();
    let problem = row(alloc)?;
    let domains = Domains::whole(alloc, &problem)?;
    let rows = rows(alloc, &[(0, 0, 0, MOST), (0, 0, 0, MOST)], &[])?;
    let value = worth(alloc, &costs(1, rows)?, &problem, &domains)?;
    let entry = Entry::Across { link: 0 };
    assert_eq!(rt; value, Err(Weak::Wide { entry }));
    Ok(())
}

#[test]
fn the_lesser_of_two_neighbours(rt: HostRuntime) -> Result<(), Fail> {
    let alloc = rt.alloc();
    let problem = row(alloc)?;
    let domains = Domains::whole(alloc, &problem)?;
    let rows = rows(
        alloc,
        &[],
        &[
            (0, 1, &[0], 2),
            (2, 1, &[2], 2),
            (1, 1, &[1], MOST),
            (1, 1, &[1], 4),
        ],
    )?;
    let value = worth(alloc, &voids(rows)?, &problem, &domains)?;
    let entry = Entry::Choice { area: 0, class: 1 };
    assert_eq!(rt; value, Err(Weak::Wide { entry }));
    Ok(())
}

#[test]
fn the_first_of_two_links_in_the_total(rt: HostRuntime) -> Result<(), Fail> {
    let alloc = rt.alloc();
    let problem = row(alloc)?;
    let domains = Domains::whole(alloc, &problem)?;
    let rows = rows(alloc, &[(0, 0, 0, MOST), (1, 0, 0, MOST)], &[])?;
    let value = worth(alloc, &costs(1, rows)?, &problem, &domains)?;
    let entry = Entry::TotalLink { link: 0 };
    assert_eq!(rt; value, Err(Weak::Wide { entry }));
    Ok(())
}

#[test]
fn the_third_area_in_the_total(rt: HostRuntime) -> Result<(), Fail> {
    let alloc = rt.alloc();
    let problem = row(alloc)?;
    let mut domains = Domains::whole(alloc, &problem)?;
    only(&mut domains, 0, 0, 1)?;
    only(&mut domains, 1, 1, 0)?;
    only(&mut domains, 2, 1, 0)?;
    let rows = rows(alloc, &[], &[(0, 0, &[0], MOST)])?;
    let value = worth(alloc, &costs(1, rows)?, &problem, &domains)?;
    let entry = Entry::TotalArea { area: 2 };
    assert_eq!(rt; value, Err(Weak::Wide { entry }));
    Ok(())
}

#[test]
fn the_second_area_before_the_third(rt: HostRuntime) -> Result<(), Fail> {
    let alloc = rt.alloc();
    let problem = row(alloc)?;
    let mut domains = Domains::whole(alloc, &problem)?;
    only(&mut domains, 0, 1, 0)?;
    only(&mut domains, 1, 0, 1)?;
    only(&mut domains, 2, 1, 0)?;
    // What is left is 10 less the most at areas 0 and 2, 512 more at area 1, and 256 - 512 at link 1.
    let rows = rows(
        alloc,
        &[(1, 0, 0, 512)],
        &[(0, 0, &[0], MOST), (1, 1, &[1], MOST)],
    )?;
    let value = worth(alloc, &costs(1, rows)?, &problem, &domains)?;
    let entry = Entry::TotalArea { area: 1 };
    assert_eq!(rt; value, Err(Weak::Wide { entry }));
    Ok(())
}

#[test]
fn the_first_fault_of_two(rt: HostRuntime) -> Result<(), Fail> {
    let alloc = rt.alloc();
    let problem = row(alloc)?;
    let domains = Domains::whole(alloc, &problem)?;
    for (denominator, borders, fault) in [
        (0, [(2, 0, 0, -1)].as_slice(), Unsound::Denominator),
        (
            1,
            [(2, 0, 0, -1), (0, 2, 0, 1)].as_slice(),
            Unsound::Row { row: 0 },
        ),
        (
            4_096,
            [(1, 1, 1, 1), (0, 0, 0, -1), (0, 0, 2, 1)].as_slice(),
            Unsound::Negative { row: 1 },
        ),
        (4_097, [].as_slice(), Unsound::Denominator),
    ] {
        let sum = costs(denominator, rows(alloc, borders, &[])?)?;
        assert_eq!(rt; sum.sound(&problem, &domains), Err(fault));
    }
    Ok(())
}

#[test]
fn void_mode_has_the_denominator_1(rt: HostRuntime) -> Result<(), Fail> {
    let alloc = rt.alloc();
    let problem = row(alloc)?;
    let domains = Domains::whole(alloc, &problem)?;
    let mut sum = voids(rows(alloc, &[(2, 0, 0, -1)], &[])?)?;
    sum.denominator = 2;
    assert_eq!(rt; sum.sound(&problem, &domains), Err(Unsound::Denominator));
    Ok(())
}

#[test]
fn sets_of_escape_rows(rt: HostRuntime) -> Result<(), Fail> {
    let alloc = rt.alloc();
    let problem = row(alloc)?;
    let domains = Domains::whole(alloc, &problem)?;
    // Two areas weigh exactly the threshold.
    for (class, areas, is_sound) in [
        (0, [0].as_slice(), true),
        (0, [0, 1].as_slice(), false),
        (1, [0, 2].as_slice(), true),
        (1, [0, 1, 2].as_slice(), false),
        (1, [2].as_slice(), false),
        (1, [0, 3].as_slice(), false),
    ] {
        let sum = costs(1, rows(alloc, &[], &[(0, class, areas, 1)])?)?;
        assert_eq!(rt; sum.sound(&problem, &domains).is_ok(), is_sound);
    }
    Ok(())
}

#[test]
fn counts_of_marks(rt: HostRuntime) -> Result<(), Fail> {
    let alloc = rt.alloc();
    assert_eq!(rt; marks(&costs(1, rows(alloc, &[], &[])?)?), 0);
    let both = rows(alloc, &[(0, 0, 0, 1)], &[(0, 0, &[0, 1, 5], 1)])?;
    assert_eq!(rt; marks(&costs(1, both)?), 19);
    Ok(())
}

fn crosses_threads<T: Send + Sync>(_: &T) {}

#[test]
fn copies_cross_threads(rt: HostRuntime) -> Result<(), Fail> {
    let alloc = rt.alloc();
    let problem = row(alloc)?;
    let domains = Domains::whole(alloc, &problem)?.copy(alloc)?;
    crosses_threads(&domains);
    let rows = rows(alloc, &[(0, 1, 0, 3)], &[(0, 0, &[0], 5)])?;
    let sum = costs(1, rows)?;
    assert_eq!(rt; marks(&sum), 17);
    crosses_threads(&sum);
    let tree = Tree::Leaf(Leaf::Sum(sum)).copy(alloc)?;
    crosses_threads(&tree);
    crosses_threads(&Scratch::new(alloc, &problem)?);
    Ok(())
}
