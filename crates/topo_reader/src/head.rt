// What a topology has, its frame, and which of its objects is read.
ghost use Rattle.std.specs.Prelude.{◌≡◌, ◌↔◌, List, ℕ, IsTrue, IfOk, IfSome, IfNone, Some, None, [], ◌∷◌, codes};
ghost use Rattle.std.specs.List.{AllByRecursion};
ghost use Rattle.json_text.specs.Tree.{Json, Number, array, object, member_of};
ghost use Rattle.json_text.specs.Values.{json_of, list_of, pairs_of};
ghost use Rattle.map_values.specs.Members.{HasType};
ghost use Rattle.plane_edge.specs.declared.frame.Frame.{Frame};
ghost use Rattle.topo_reader.specs.Arcs.{SpellsFrame};
ghost use Rattle.topo_reader.specs.Faults.{Head, IsTopology};
ghost use Rattle.topo_reader.specs.Names.{BeginWith};
ghost use Rattle.topo_reader.specs.Topology.{IsPicked, ArePlaces};

use crate::rings::number_in;
use agg_base::{NoMemory, Text};
use json_text::Tree;
use map_values::{has_type, list_of};
use plane_edge::Frame;
use std::alloc::Global;
use std::slice;

// The frame, the objects and the arcs of a topology; `None` where the value is none.
pub(crate) fn read_head(
    alloc: Global,
    tree: &Tree,
) -> Result<Option<(Frame, &Tree, &[Tree])>, NoMemory>
    ensures found { IfOk result (λ o. IfSome o (λ p. IsTopology (json_of tree.now) (record { objects = json_of p.1.now; parts = list_of p.2.now; frame = p.0 }))) }
    ensures none { IfOk result (λ o. IfNone o ((head : Head) → ¬ IsTopology (json_of tree.now) head)) }
{
    let Some((objects, parts)) = members(tree) else {
        return Ok(None);
    };
    let Some(frame) = read_frame(alloc, tree)? else {
        return Ok(None);
    };
    Ok(Some((frame, objects, parts)))
}

// The objects and the arcs of a value of the type Topology.
fn members(tree: &Tree) -> Option<(&Tree, &[Tree])>
    ensures type_is { IfSome result (λ p. HasType (json_of tree.now) (codes "Topology")) }
    ensures objects { IfSome result (λ p. member_of (json_of tree.now) (codes "objects") ≡ Some (json_of p.0.now)) }
    ensures object { IfSome result (λ p. (pairs : List (List ℕ × Json)) × (json_of p.0.now ≡ object pairs)) }
    ensures parts { IfSome result (λ p. member_of (json_of tree.now) (codes "arcs") ≡ Some (array (list_of p.1.now))) }
    ensures none { IfNone result ((head : Head) → ¬ IsTopology (json_of tree.now) head) }
{
    if !has_type(tree, "Topology") {
        return None;
    }
    let objects = tree.member("objects")?;
    let _ = members_of(objects)?;
    let parts = list_of(tree.member("arcs")?)?;
    Some((objects, parts))
}

// The members of a value; `None` where it is no object.
fn members_of(tree: &Tree) -> Option<&[(Text, Tree)]>
    ensures found { IfSome result (λ members. json_of tree.now ≡ object (pairs_of members.now)) }
    ensures none { IfNone result ((pairs : List (List ℕ × Json)) → ¬ (json_of tree.now ≡ object pairs)) }
{
    match tree {
        Tree::Members(members) => Some(members.as_slice()),
        _ => None,
    }
}

// The frame that the transform tells; `None` where there is a transform that is not of the right form.
fn read_frame(alloc: Global, tree: &Tree) -> Result<Option<Frame>, NoMemory>
    ensures found { IfOk result (λ o. IfSome o (λ frame. SpellsFrame (json_of tree.now) frame)) }
    ensures none { IfOk result (λ o. IfNone o ((frame : Frame) → ¬ SpellsFrame (json_of tree.now) frame)) }
{
    let Some(transform) = tree.member("transform") else {
        return Ok(Some(Frame::Plain));
    };
    let Some((sx, sy)) = pair(transform, "scale") else {
        return Ok(None);
    };
    let Some((tx, ty)) = pair(transform, "translate") else {
        return Ok(None);
    };
    Ok(Some(Frame::Scaled {
        sx: sx.copy(alloc)?,
        sy: sy.copy(alloc)?,
        tx: tx.copy(alloc)?,
        ty: ty.copy(alloc)?,
    }))
}

// The two numbers of the member of that name, which has exactly two.
fn pair<'a>(tree: &'a Tree, name: &str) -> Option<(&'a Text, &'a Text)>
    ensures found { IfSome result (λ p. member_of (json_of tree.now) name.now ≡ Some (array (Number p.0.now ∷ Number p.1.now ∷ []))) }
    ensures none { IfNone result ((a b : List ℕ) → ¬ (member_of (json_of tree.now) name.now ≡ Some (array (Number a ∷ Number b ∷ [])))) }
{
    let value = tree.member(name)?;
    let trees = list_of(value)?;
    two_numbers(trees)
}

// The two values of a list, where they are numbers.
fn two_numbers(trees: &[Tree]) -> Option<(&Text, &Text)>
    ensures found { IfSome result (λ p. list_of trees.now ≡ Number p.0.now ∷ Number p.1.now ∷ []) }
    ensures none { IfNone result ((a b : List ℕ) → ¬ (list_of trees.now ≡ Number a ∷ Number b ∷ [])) }
{
    let [first, second] = trees else {
        return None;
    };
    let first = number_in(first)?;
    let second = number_in(second)?;
    Some((first, second))
}

// The object of that name; where none is told, the only one.
pub(crate) fn object_of<'a>(objects: &'a Tree, named: &Option<Text>) -> Option<&'a Tree>
    ensures found { IfSome result (λ tree. IsPicked (json_of objects.now) named.now (json_of tree.now)) }
    ensures none { IfNone result ((tree : Json) → ¬ IsPicked (json_of objects.now) named.now tree) }
{
    match named {
        Some(name) => objects.member(name.as_str()),
        None => only(objects),
    }
}

// The only object: that of the one name that all members have.
fn only(objects: &Tree) -> Option<&Tree>
    ensures found { IfSome result (λ tree. IsPicked (json_of objects.now) None (json_of tree.now)) }
    ensures none { IfNone result ((tree : Json) → ¬ IsPicked (json_of objects.now) None tree) }
{
    let members = members_of(objects)?;
    let text = first_name(members)?;
    let name = text.as_str();
    if !have_name(members, name) {
        return None;
    }
    objects.member(name)
}

// The name of the first member.
fn first_name(members: &[(Text, Tree)]) -> Option<&Text>
    ensures found { IfSome result (λ name. BeginWith (pairs_of members.now) name.now) }
    ensures none { IfNone result (pairs_of members.now ≡ []) }
{
    let Some(member) = members.first() else {
        return None;
    };
    Some(name_of(member))
}

// The name of a member.
fn name_of(member: &(Text, Tree)) -> &Text
    ensures { result.now ≡ member.now.0 }
{
    &member.0
}

// Whether all members have that name.
fn have_name(members: &[(Text, Tree)], name: &str) -> bool
    ensures { IsTrue result ↔ AllByRecursion (λ pair. pair.0 ≡ name.now) (pairs_of members.now) }
{
    for member in members {
        if !is_name(&member.0, name) {
            return false;
        }
    }
    true
}

// Whether a text is that name.
fn is_name(text: &Text, name: &str) -> bool
    ensures { IsTrue result ↔ (text.now ≡ name.now) }
{
    text.as_str() == name
}

// The geometries of an object: those of a collection, or the object itself; `None` where a collection has no list of them.
pub(crate) fn places(object: &Tree) -> Option<&[Tree]>
    ensures found { IfSome result (λ trees. ArePlaces (json_of object.now) (list_of trees.now)) }
    ensures none { IfNone result ((trees : List Json) → ¬ ArePlaces (json_of object.now) trees) }
{
    if has_type(object, "GeometryCollection") {
        return list_of(object.member("geometries")?);
    }
    Some(slice::from_ref(object))
}
