// Trees over three areas in a row.
ghost use Rattle.std.specs.Prelude.{◌≡◌, ◌≤◌, IfOk};
ghost use Rattle.agg_base.specs.declared.limits.TheConstants.{SPLITS};
ghost use Rattle.row_laws.specs.Trees.{split_count};

use crate::{TreeFault, judge_tree, one_tree_fault_law};
use agg_base::NoMemory;
use agg_model::{Link, Problem, ProblemParts};
use bound_rows::{Bound, Entry, Leaf, Row, RowSum, Set, Tree};
use std::alloc::Global;
use std::test::Fail;

// Areas of own classes 0, 1 and 0 and weights of 2, with thresholds of 4. Two classes at distance 5, border weight 1.
fn row_of_three(alloc: Global) -> Result<Problem, Fail> {
    let parts = ProblemParts {
        classes: 2,
        own: vec![in alloc; 0, 1, 0]?,
        weight: vec![in alloc; 2, 2, 2]?,
        links: vec![in alloc;
            Link {
                a: 0,
                b: 1,
                length: 256
            },
            Link {
                a: 1,
                b: 2,
                length: 256
            },
        ]?,
        distance: vec![in alloc; 0, 5, 5, 0]?,
        threshold: vec![in alloc; 4, 4]?,
        border: 1,
    };
    match Problem::of(parts) {
        Some(problem) => Ok(problem),
        None => Err(Fail::new("no problem")),
    }
}

// An escape row of an area for class 0, with its set and its multiplier.
fn row(alloc: Global, area: u32, set: &[u32], multiplier: i128) -> Result<(Row, i128), Fail> {
    match Set::of(Vec::from_slice(alloc, set)?) {
        Some(set) => Ok((
            Row::Escape {
                area,
                class: 0,
                set,
            },
            multiplier,
        )),
        None => Err(Fail::new("no set")),
    }
}

// A leaf in cost mode with two rows.
fn two_rows(first: (Row, i128), second: (Row, i128), alloc: Global) -> Result<Tree<Leaf>, NoMemory>
    ensures { IfOk result (λ tree. split_count tree ≡ 0) }
{
    let mut rows = Vec::new(alloc);
    rows.push(first)?;
    rows.push(second)?;
    Ok(Tree::Leaf(Leaf::Sum(RowSum {
        denominator: 1,
        void: false,
        rows,
    })))
}

// A split of an area by a class, over these children without splits.
fn split(
    alloc: Global,
    area: u32,
    class: u8,
    yes: Tree<Leaf>,
    no: Tree<Leaf>,
) -> Result<Tree<Leaf>, NoMemory>
    requires yes { split_count yes ≡ 0 }
    requires no { split_count no ≡ 0 }
    ensures { IfOk result (λ tree. split_count tree ≤ SPLITS) }
{
    Ok(Tree::Split {
        area,
        class,
        yes: Box::new(alloc, yes)?,
        no: Box::new(alloc, no)?,
    })
}

#[test]
fn two_rows_prove_the_cost(rt: HostRuntime) -> Result<(), Fail> {
    let alloc = rt.alloc();
    let problem = row_of_three(alloc)?;
    let tree = two_rows(row(alloc, 0, &[0], 5)?, row(alloc, 2, &[2], 5)?, alloc)?;
    assert_eq!(rt; judge_tree(alloc, &problem, &tree), Ok(Bound::Least(10)));
    Ok(())
}

#[test]
fn rows_that_prove_nothing(rt: HostRuntime) -> Result<(), Fail> {
    let alloc = rt.alloc();
    let problem = row_of_three(alloc)?;
    let most = i128::MAX;
    let entry = Entry::Choice { area: 0, class: 0 };
    for (set, first, second, fault) in [
        (
            [0].as_slice(),
            -5,
            5,
            TreeFault::Negative { node: 0, row: 0 },
        ),
        ([0, 1].as_slice(), 5, 5, TreeFault::Row { node: 0, row: 0 }),
        (
            [0].as_slice(),
            most,
            most,
            TreeFault::Wide { node: 0, entry },
        ),
    ] {
        let tree = two_rows(
            row(alloc, 0, set, first)?,
            row(alloc, 0, &[0], second)?,
            alloc,
        )?;
        assert_eq!(rt; judge_tree(alloc, &problem, &tree), Err(fault));
    }
    Ok(())
}

#[test]
fn both_children_are_judged(rt: HostRuntime) -> Result<(), Fail> {
    let alloc = rt.alloc();
    let problem = row_of_three(alloc)?;
    let yes = two_rows(row(alloc, 0, &[0], 5)?, row(alloc, 2, &[2], 5)?, alloc)?;
    let tree = split(alloc, 0, 0, yes, Tree::Leaf(Leaf::Fixed))?;
    assert_eq!(rt;
        judge_tree(alloc, &problem, &tree),
        Err(TreeFault::NotFixed { node: 2, area: 1 })
    );
    let yes = two_rows(row(alloc, 0, &[0], 5)?, row(alloc, 2, &[2], 5)?, alloc)?;
    let no = two_rows(row(alloc, 2, &[2], 5)?, row(alloc, 2, &[2], 0)?, alloc)?;
    let tree = split(alloc, 0, 0, yes, no)?;
    assert_eq!(rt; judge_tree(alloc, &problem, &tree), Ok(Bound::Least(10)));
    Ok(())
}

#[test]
fn a_split_on_no_choice(rt: HostRuntime) -> Result<(), Fail> {
    let alloc = rt.alloc();
    let problem = row_of_three(alloc)?;
    for (area, class) in [(0, 2), (3, 0)] {
        let tree = split(
            alloc,
            area,
            class,
            Tree::Leaf(Leaf::Fixed),
            Tree::Leaf(Leaf::Fixed),
        )?;
        assert_eq!(rt;
            judge_tree(alloc, &problem, &tree),
            Err(TreeFault::Split { node: 0 })
        );
    }
    one_tree_fault_law();
    Ok(())
}
