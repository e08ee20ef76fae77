// The lines of a tree, appended to a text.
ghost use Rattle.std.specs.Prelude.{◌≡◌, ◌∷◌, [], map, OnOk};
ghost use Rattle.cert_text.specs.TreeTexts.{row_line, sum_lines, leaf_lines, tree_lines};
ghost use Rattle.cert_text.specs.Gives.{Appends};
ghost use Rattle.cert_text.specs.declared.line.Line.TheVariants as line;

use crate::push::{push_line, push_members_line, push_plain};
use agg_base::NoMemory;
use row_laws::{Leaf, Row, RowSum, Tree};

// Appends the lines of a tree. It calls itself as deep as the tree is.
pub(crate) fn push_tree(out: &mut Vec<u8>, tree: &Tree<Leaf>) -> Result<(), NoMemory>
    ensures { OnOk result (Appends out.old.items (tree_lines tree.now) out.new.items) }
{
    match tree {
        Tree::Leaf(leaf) => push_leaf(out, leaf),
        Tree::Split {
            area,
            class,
            yes,
            no,
        } => {
            push_split(out, *area, *class)?;
            push_tree(out, yes)?;
            push_tree(out, no)?;
            Ok(())
        }
    }
}

// Appends the line of a split.
#[tactic(auto, unfolding(crate::specs::Lines::line_text))]
fn push_split(out: &mut Vec<u8>, area: u32, class: u8) -> Result<(), NoMemory>
    ensures { OnOk result (Appends out.old.items (line.Split area class ∷ []) out.new.items) }
{
    push_line(out, b"s", &[i128::from(area), i128::from(class)])
}

// Appends the lines of a leaf.
fn push_leaf(out: &mut Vec<u8>, leaf: &Leaf) -> Result<(), NoMemory>
    ensures { OnOk result (Appends out.old.items (leaf_lines leaf.now) out.new.items) }
{
    match leaf {
        Leaf::Sum(sum) => push_sum(out, sum),
        Leaf::Fixed => push_fixed(out),
    }
}

// Appends the line of a leaf of single classes.
#[tactic(auto, unfolding(crate::specs::Lines::line_text))]
fn push_fixed(out: &mut Vec<u8>) -> Result<(), NoMemory>
    ensures { OnOk result (Appends out.old.items (line.Fixed ∷ []) out.new.items) }
{
    push_plain(out, b"f")
}

// Appends the lines of a sum.
fn push_sum(out: &mut Vec<u8>, sum: &RowSum) -> Result<(), NoMemory>
    ensures { OnOk result (Appends out.old.items (sum_lines sum.now) out.new.items) }
{
    let count = sum.rows.len();
    if sum.void {
        push_void(out, count)?;
    } else {
        push_cost(out, sum.denominator, count)?;
    }
    push_rows(out, &sum.rows)?;
    Ok(())
}

// Appends the line of a leaf in void mode.
#[tactic(auto, unfolding(crate::specs::Lines::line_text))]
fn push_void(out: &mut Vec<u8>, count: usize) -> Result<(), NoMemory>
    ensures { OnOk result (Appends out.old.items (line.Void count ∷ []) out.new.items) }
{
    push_line(out, b"v", &[count as i128])
}

// Appends the line of a leaf in cost mode.
#[tactic(auto, unfolding(crate::specs::Lines::line_text))]
fn push_cost(out: &mut Vec<u8>, denominator: u32, count: usize) -> Result<(), NoMemory>
    ensures { OnOk result (Appends out.old.items (line.Sum denominator count ∷ []) out.new.items) }
{
    push_line(out, b"c", &[i128::from(denominator), count as i128])
}

// Appends the lines of rows.
fn push_rows(out: &mut Vec<u8>, rows: &[(Row, i128)]) -> Result<(), NoMemory>
    ensures { OnOk result (Appends out.old.items (map row_line rows.now) out.new.items) }
{
    for row in rows {
        push_row(out, &row.0, row.1)?;
    }
    Ok(())
}

// Appends the line of a row.
#[tactic(auto, unfolding(crate::specs::Lines::line_text))]
fn push_row(out: &mut Vec<u8>, row: &Row, multiplier: i128) -> Result<(), NoMemory>
    ensures { OnOk result (Appends out.old.items (line.Row row.now multiplier ∷ []) out.new.items) }
{
    match row {
        Row::Border { link, side, class } => {
            let (link, side, class) = (i128::from(*link), i128::from(*side), i128::from(*class));
            push_line(out, b"b", &[link, side, class, multiplier])
        }
        Row::Escape { area, class, set } => {
            let members = set.areas();
            let (area, class) = (i128::from(*area), i128::from(*class));
            let front = [multiplier, area, class, members.len() as i128];
            push_members_line(out, b"e", &front, members)
        }
    }
}
