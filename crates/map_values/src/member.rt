// Members and values that the forms of maps ask for.
ghost use Rattle.std.specs.Prelude.{◌≡◌, ◌↔◌, List, IsTrue, IfSome, IfNone};
ghost use Rattle.std.specs.Option.{option_map};
ghost use Rattle.json_text.specs.Tree.{Json, array};
ghost use Rattle.json_text.specs.Values.{json_of, list_of};
ghost use Rattle.map_values.specs.Members.{is_null, HasType};

use json_text::Tree;

/// Whether a value is there and is null. It takes no memory.
pub fn is_null(value: Option<&Tree>) -> bool
    ensures { result ≡ is_null (option_map (λ tree. json_of tree.now) value.entry) }
{
    matches!(value, Some(Tree::Null))
}

/// Whether the member `type` is this text. It takes no memory.
pub fn has_type(tree: &Tree, name: &str) -> bool
    ensures { IsTrue result ↔ HasType (json_of tree.now) name.now }
{
    match tree.member("type") {
        Some(Tree::Str(text)) => text.as_str() == name,
        _ => false,
    }
}

/// The values of a list, in order; `None` exactly where the value is no list. It takes no memory.
pub fn list_of(tree: &Tree) -> Option<&[Tree]>
    ensures found { IfSome result (λ trees. json_of tree.now ≡ array (list_of trees.now)) }
    ensures none { IfNone result ((trees : List Json) → ¬ (json_of tree.now ≡ array trees)) }
{
    match tree {
        Tree::List(trees) => Some(trees.as_slice()),
        _ => None,
    }
}
