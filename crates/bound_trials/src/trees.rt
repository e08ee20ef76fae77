// Trees of splits, and their law at leaves of two kinds.
use crate::Nothing;
use agg_base::NoMemory;
use bound_rows::{Leaf, Tree, depth, fixed_law, row_law, splits, sum_law, tree_law};
use std::alloc::Global;
use std::test::Fail;

// A tree of so many splits, each the `no` child of the one before it.
fn chain(alloc: Global, count: u32) -> Result<Tree<Leaf>, NoMemory> {
    let mut tree = Tree::Leaf(Leaf::Fixed);
    for area in 0..count {
        tree = Tree::Split {
            area,
            class: 1,
            yes: Box::new(alloc, Tree::Leaf(Leaf::Fixed))?,
            no: Box::new(alloc, tree)?,
        };
    }
    Ok(tree)
}

#[test]
fn a_tree_that_is_1024_deep(rt: HostRuntime) -> Result<(), Fail> {
    let alloc = rt.alloc();
    for count in [0, 1, 1_024] {
        let tree = chain(alloc, count)?.copy(alloc)?;
        assert_eq!(rt; splits(&tree), u64::from(count));
        assert_eq!(rt; depth(&tree), u64::from(count));
    }
    Ok(())
}

#[test]
fn a_tree_that_is_split_on_both_sides(rt: HostRuntime) -> Result<(), Fail> {
    let alloc = rt.alloc();
    let tree: Tree<Nothing> = Tree::Split {
        area: 0,
        class: 0,
        yes: Box::new(alloc, Tree::Leaf(Nothing {}))?,
        no: Box::new(
            alloc,
            Tree::Split {
                area: 1,
                class: 0,
                yes: Box::new(alloc, Tree::Leaf(Nothing {}))?,
                no: Box::new(alloc, Tree::Leaf(Nothing {}))?,
            },
        )?,
    };
    assert_eq!(rt; splits(&tree), 2);
    assert_eq!(rt; depth(&tree), 2);
    Ok(())
}

#[test]
fn laws() {
    row_law();
    sum_law();
    fixed_law();
    tree_law::<Nothing>();
    tree_law::<Leaf>();
}
