// Class texts.
ghost use Rattle.std.specs.Prelude.{◌≡◌, ◌≤◌, ℕ, ℤ, List, length, FitsSigned, IfOk, IfSome, IfNone};
ghost use Rattle.std.specs.Int.{w64};
ghost use Rattle.std.specs.Fmt.{signed_decimal};
ghost use Rattle.agg_base.specs.Numbers.{SpellsWhole};
ghost use Rattle.json_text.specs.Tree.{Str, Number};
ghost use Rattle.json_text.specs.Values.{json_of};
ghost use Rattle.map_values.specs.Classes.{SpellsClass, HasClass};

use agg_base::{NoMemory, Text, Whole, read_whole};
use json_text::Tree;
use std::alloc::Global;

// The most bytes of a class text.
const MOST_BYTES: usize = 100;

/// The class text that a feature or a geometry has under a name.
///
/// It is that of the member of this name among the `properties`: a text of 1 to 100 bytes, or a whole number of 64 bits, which stands for
/// its decimal spelling. `None` comes exactly where there is no such member.
pub fn class_of(alloc: Global, tree: &Tree, name: &str) -> Result<Option<Text>, NoMemory>
    ensures found { IfOk result (λ o. IfSome o (λ class. HasClass (json_of tree.now) name.now class)) }
    ensures none { IfOk result (λ o. IfNone o ((class : List ℕ) → ¬ HasClass (json_of tree.now) name.now class)) }
{
    let Some(properties) = tree.member("properties") else {
        return Ok(None);
    };
    let Some(value) = properties.member(name) else {
        return Ok(None);
    };
    class_text(alloc, value)
}

// The class text that a value spells.
fn class_text(alloc: Global, value: &Tree) -> Result<Option<Text>, NoMemory>
    ensures found { IfOk result (λ o. IfSome o (λ class. SpellsClass (json_of value.now) class)) }
    ensures none { IfOk result (λ o. IfNone o ((class : List ℕ) → ¬ SpellsClass (json_of value.now) class)) }
{
    match value {
        Tree::Str(text) => text_class(alloc, text),
        Tree::Number(number) => number_class(alloc, number),
        _ => Ok(None),
    }
}

// The class text that a text is.
fn text_class(alloc: Global, text: &Text) -> Result<Option<Text>, NoMemory>
    ensures found { IfOk result (λ o. IfSome o (λ class. SpellsClass (Str text.now) class)) }
    ensures none { IfOk result (λ o. IfNone o ((class : List ℕ) → ¬ SpellsClass (Str text.now) class)) }
{
    let count = text.as_str().len();
    if count < 1 || count > MOST_BYTES {
        return Ok(None);
    }
    Ok(Some(text.copy(alloc)?))
}

// The class text that a number stands for.
fn number_class(alloc: Global, number: &Text) -> Result<Option<Text>, NoMemory>
    ensures found { IfOk result (λ o. IfSome o (λ class. SpellsClass (Number number.now) class)) }
    ensures none { IfOk result (λ o. IfNone o ((class : List ℕ) → ¬ SpellsClass (Number number.now) class)) }
{
    let Whole::Is(value) = read_whole(number.as_str().as_bytes()) else {
        return Ok(None);
    };
    Ok(Some(decimal(alloc, value)?))
}

// The decimal spelling of a number.
fn decimal(alloc: Global, value: i64) -> Result<Text, NoMemory>
    ensures { IfOk result (λ text. text ≡ signed_decimal value) }
{
    let text = format!(in alloc; "{value}")?;
    Text::of(alloc, text.as_str())
}
