// The tree of a certificate.
ghost use Rattle.std.specs.Prelude.{◌≡◌, ◌≤◌, ◌+◌, ◌∷◌, [], not, true, replicate, IfOk, IfErr, IfSome, IfNone, None, ℕ};
ghost use Rattle.agg_base.specs.declared.limits.TheConstants.{DEPTH};
ghost use Rattle.row_laws.specs.Values.{row_marks};
ghost use Rattle.cert_reader.specs.Due.{NodeDue, RowDue, after_node};
ghost use Rattle.cert_reader.specs.Faults.{grown, is_past_limit};
ghost use Rattle.cert_reader.specs.Reads.{Fails, sized};
ghost use Rattle.cert_reader.specs.Nodes.{node_line, IsSplitOf, ReadsNode, ReadsRow, ReadsRows, ReadsTree};

use crate::line::Line;
use crate::source::Source;
use agg_base::NoMemory;
use agg_base::limits::DEPTH;
use cert_text::CertFault;
use row_laws::{Leaf, Row, RowSum, Tree};
use std::alloc::Global;

// What a line of the tree begins.
#[derive(Clone, Copy)]
pub(crate) enum Node {
    // A split of an area on a class.
    Split { area: u32, class: u8 },
    // A leaf whose areas have one allowed class each.
    Fixed,
    // A leaf in cost mode, with a denominator and so many rows.
    Sum { denominator: u32, count: u32 },
    // A leaf in void mode, with so many rows.
    Void { count: u32 },
}

// The tree whose root is at that depth. It calls itself as deep as the tree is.
pub(crate) fn read_tree(
    alloc: Global,
    source: &mut Source<'_>,
    depth: u32,
) -> Result<Tree<Leaf>, CertFault>
    requires { depth ≤ DEPTH + 1 }
    ensures read { IfOk result (λ tree. ReadsTree depth tree source.old source.new) }
    ensures fault { IfErr result (Fails (NodeDue depth ∷ []) source.old) }
{
    let node = read_node(alloc, source, depth)?;
    match node {
        Node::Split { area, class } => {
            let yes = read_tree(alloc, source, depth + 1)?;
            let no = read_tree(alloc, source, depth + 1)?;
            let tree = split_of(alloc, area, class, yes, no)?;
            Ok(tree)
        }
        Node::Fixed => Ok(Tree::Leaf(Leaf::Fixed)),
        Node::Sum { denominator, count } => {
            let rows = read_rows(alloc, source, count)?;
            Ok(Tree::Leaf(Leaf::Sum(RowSum {
                denominator,
                void: false,
                rows,
            })))
        }
        Node::Void { count } => {
            let rows = read_rows(alloc, source, count)?;
            Ok(Tree::Leaf(Leaf::Sum(RowSum {
                denominator: 1,
                void: true,
                rows,
            })))
        }
    }
}

// A split with its two children.
fn split_of(
    alloc: Global,
    area: u32,
    class: u8,
    yes: Tree<Leaf>,
    no: Tree<Leaf>,
) -> Result<Tree<Leaf>, NoMemory>
    ensures { IfOk result (IsSplitOf area class yes no) }
{
    Ok(Tree::Split {
        area,
        class,
        yes: Box::new(alloc, yes)?,
        no: Box::new(alloc, no)?,
    })
}

// The line of a node at that depth.
fn read_node(alloc: Global, source: &mut Source<'_>, depth: u32) -> Result<Node, CertFault>
    ensures read { IfOk result (λ node. ReadsNode depth node source.old source.new) }
    ensures fault { IfErr result (Fails (NodeDue depth ∷ []) source.old) }
{
    let number = source.number();
    let said = source.next(alloc)?;
    let Some(node) = node_of(said) else {
        return Err(CertFault::Line { number });
    };
    let is_deep = u64::from(depth) > DEPTH;
    if is_deep {
        return Err(CertFault::TooDeep { line: number });
    }
    let has_room = count_node(source, node);
    if has_room {
        Ok(node)
    } else {
        Err(CertFault::Limit { line: number })
    }
}

// The node that a line begins.
fn node_of(said: Line) -> Option<Node>
    ensures found { IfSome result (λ node. said ≡ node_line node) }
    ensures none { IfNone result ((depth : ℕ) → after_node depth said ≡ None) }
{
    match said {
        Line::Split { area, class } => Some(Node::Split { area, class }),
        Line::Fixed => Some(Node::Fixed),
        Line::Sum { denominator, count } => Some(Node::Sum { denominator, count }),
        Line::Void { count } => Some(Node::Void { count }),
        _ => None,
    }
}

// Counts a node, where there may be one more of its kind.
fn count_node(source: &mut Source<'_>, node: Node) -> bool
    ensures past { not result ≡ is_past_limit (node_line node) source.old.size }
    ensures counted { result ≡ true → source.new ≡ sized source.old (grown (node_line node) source.old.size) }
{
    match node {
        Node::Split { .. } => source.count_split(),
        Node::Fixed | Node::Sum { .. } | Node::Void { .. } => true,
    }
}

// So many rows with their multipliers.
fn read_rows(
    alloc: Global,
    source: &mut Source<'_>,
    count: u32,
) -> Result<Vec<(Row, i128)>, CertFault>
    ensures read { IfOk result (λ rows. ReadsRows count rows.items source.old source.new) }
    ensures fault { IfErr result (Fails (replicate count RowDue) source.old) }
{
    let mut rows = Vec::new(alloc);
    for _place in 0..count {
        let row = read_row(alloc, source)?;
        rows.push(row)?;
    }
    Ok(rows)
}

// A row and its multiplier.
fn read_row(alloc: Global, source: &mut Source<'_>) -> Result<(Row, i128), CertFault>
    ensures read { IfOk result (λ row. ReadsRow row source.old source.new) }
    ensures fault { IfErr result (Fails (RowDue ∷ []) source.old) }
{
    let line = source.number();
    let said = source.next(alloc)?;
    let Line::Row(row, multiplier) = said else {
        return Err(CertFault::Line { number: line });
    };
    let marks = marks_of(&row);
    let has_room = source.count_marks(marks);
    if has_room {
        Ok((row, multiplier))
    } else {
        Err(CertFault::Limit { line })
    }
}

// How many marks a row has.
fn marks_of(row: &Row) -> u64
    ensures { result ≡ row_marks row.now }
{
    match row {
        Row::Border { .. } => 8,
        Row::Escape { set, .. } => 8 + set.areas().len() as u64,
    }
}
