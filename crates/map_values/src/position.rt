// Positions and their numbers.
ghost use Rattle.std.specs.Prelude.{◌≡◌, ℕ, List, IfSome, IfNone};
ghost use Rattle.agg_base.specs.Numbers.{IsWholeAnswer};
ghost use Rattle.json_text.specs.Tree.{Number, array};
ghost use Rattle.json_text.specs.Values.{json_of, list_of};
ghost use Rattle.map_values.specs.Positions.{SpellsInteger, BeginsWithNumbers};

use crate::member::list_of;
use agg_base::{Text, Whole, read_whole};
use json_text::Tree;

/// The whole number that a value spells; `Not` also where it is no number. It takes no memory.
pub fn whole_of(tree: &Tree) -> Whole
    ensures { IsWholeAnswer (SpellsInteger (json_of tree.now)) result }
{
    match tree {
        Tree::Number(number) => read_whole(number.as_str().as_bytes()),
        _ => Whole::Not,
    }
}

/// The first two numbers of a position, with their characters; `None` exactly where the value is no list that begins with two numbers.
/// It takes no memory.
pub fn numbers_of(tree: &Tree) -> Option<(&Text, &Text)>
    ensures found { IfSome result (λ p. BeginsWithNumbers (json_of tree.now) p.0.now p.1.now) }
    ensures none { IfNone result ((first second : List ℕ) → ¬ BeginsWithNumbers (json_of tree.now) first second) }
{
    two_numbers(list_of(tree)?)
}

// The first two of some values, where they are numbers.
fn two_numbers(trees: &[Tree]) -> Option<(&Text, &Text)>
    ensures found { IfSome result (λ p. BeginsWithNumbers (array (list_of trees.now)) p.0.now p.1.now) }
    ensures none { IfNone result ((first second : List ℕ) → ¬ BeginsWithNumbers (array (list_of trees.now)) first second) }
{
    let [first, second, ..] = trees else {
        return None;
    };
    let first = number_in(first)?;
    let second = number_in(second)?;
    Some((first, second))
}

// The characters of a number.
fn number_in(tree: &Tree) -> Option<&Text>
    ensures found { IfSome result (λ number. json_of tree.now ≡ Number number.now) }
    ensures none { IfNone result ((number : List ℕ) → ¬ (json_of tree.now ≡ Number number)) }
{
    match tree {
        Tree::Number(number) => Some(number),
        _ => None,
    }
}
