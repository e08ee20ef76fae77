// The lists and members that are open.
ghost use Rattle.std.specs.Prelude.{◌≡◌, [], ◌∷◌, length, drop, nat_le, OnOk, IfOk};
ghost use Rattle.json_text.specs.Values.{json_of};
ghost use Rattle.json_text.specs.Stacks.{stack_of, opened_of, is_list, is_members, has_list, has_members, stack_with, stack_named, with_value, with_name, tree_of, tree_of_first};

use crate::Tree;
use agg_base::{NoMemory, Text};
use std::alloc::Global;

// How many values move to a block of their own where their list closes.
const FEW: usize = 65_536;

// A list or members that are open, with what has come of them.
#[derive(Drop)]
pub(crate) enum Frame {
    List(Vec<Tree>),
    // A name is due, or the closing brace.
    Members(Vec<(Text, Tree)>),
    // The value of this name is due.
    Named(Vec<(Text, Tree)>, Text),
}

// The open lists and members, the innermost last, at most 64.
#[derive(Drop)]
pub(crate) struct Stack {
    frames: Vec<Frame>,
}

// Nothing is open.
pub(crate) fn empty_stack(alloc: Global) -> Stack
    ensures { stack_of result ≡ [] }
{
    Stack {
        frames: Vec::new(alloc),
    }
}

// Whether nothing is open.
#[tactic(auto, using(crate::proofs::StackLemmas::frames_length))]
pub(crate) fn is_empty(stack: &Stack) -> bool
    ensures { result ≡ nat_le (length (stack_of stack.now)) 0 }
{
    stack.frames.is_empty()
}

// Whether 64 are open.
#[tactic(auto, using(crate::proofs::StackLemmas::frames_length))]
pub(crate) fn is_full(stack: &Stack) -> bool
    ensures { result ≡ nat_le 64 (length (stack_of stack.now)) }
{
    stack.frames.len() >= 64
}

// Whether a list is innermost.
pub(crate) fn has_list(stack: &Stack) -> bool
    ensures { result ≡ has_list (stack_of stack.now) }
{
    match stack.frames.last() {
        Some(frame) => is_list(frame),
        None => false,
    }
}

// Whether members are innermost.
pub(crate) fn has_members(stack: &Stack) -> bool
    ensures { result ≡ has_members (stack_of stack.now) }
{
    match stack.frames.last() {
        Some(frame) => is_members(frame),
        None => false,
    }
}

// Whether it is a list.
fn is_list(frame: &Frame) -> bool
    ensures { result ≡ is_list (opened_of frame.now) }
{
    match frame {
        Frame::List(_) => true,
        Frame::Members(_) | Frame::Named(_, _) => false,
    }
}

// Whether it is members of which a name is due, or the closing brace.
fn is_members(frame: &Frame) -> bool
    ensures { result ≡ is_members (opened_of frame.now) }
{
    match frame {
        Frame::Members(_) => true,
        Frame::List(_) | Frame::Named(_, _) => false,
    }
}

// Opens one more.
#[tactic(auto, using(crate::proofs::StackLemmas::frames_push))]
pub(crate) fn push(stack: &mut Stack, frame: Frame) -> Result<(), NoMemory>
    ensures { OnOk result (stack_of stack.new ≡ opened_of frame ∷ stack_of stack.old) }
{
    stack.frames.push(frame)?;
    Ok(())
}

// Puts a value where it is due.
#[tactic(auto, using(crate::proofs::StackLemmas::frames_push))]
pub(crate) fn add(stack: &mut Stack, tree: Tree) -> Result<(), NoMemory>
    ensures { OnOk result (stack_of stack.new ≡ stack_with (json_of tree) (stack_of stack.old)) }
{
    match stack.frames.pop() {
        None => Ok(()),
        Some(frame) => {
            let frame = with_value(frame, tree)?;
            push(stack, frame)
        }
    }
}

// Puts a name where it is due.
#[tactic(auto, using(crate::proofs::StackLemmas::frames_push))]
pub(crate) fn add_name(stack: &mut Stack, name: Text) -> Result<(), NoMemory>
    ensures { OnOk result (stack_of stack.new ≡ stack_named name (stack_of stack.old)) }
{
    match stack.frames.pop() {
        None => Ok(()),
        Some(frame) => push(stack, with_name(frame, name)),
    }
}

// Closes the innermost, which is a value then.
#[tactic(auto, using(crate::proofs::StackLemmas::frames_push))]
pub(crate) fn close(alloc: Global, stack: &mut Stack) -> Result<Tree, NoMemory>
    ensures value { IfOk result (λ tree. json_of tree ≡ tree_of_first (stack_of stack.old)) }
    ensures rest { stack_of stack.new ≡ drop 1 (stack_of stack.old) }
{
    match stack.frames.pop() {
        None => Ok(Tree::Null),
        Some(frame) => tree_of(alloc, frame),
    }
}

// The list or members as a value, which takes no more memory than its items need.
fn tree_of(alloc: Global, frame: Frame) -> Result<Tree, NoMemory>
    ensures { IfOk result (λ tree. json_of tree ≡ tree_of (opened_of frame)) }
{
    match frame {
        Frame::List(items) => Ok(Tree::List(trim(alloc, items)?)),
        Frame::Members(members) => Ok(Tree::Members(trim(alloc, members)?)),
        Frame::Named(members, _name) => Ok(Tree::Members(trim(alloc, members)?)),
    }
}

// The same values in a block of their size. Few of them move to one of their own, so that theirs is free for the list that opens next; many
// stay where they are, since there may be no memory for them twice.
fn trim<T: Drop>(alloc: Global, values: Vec<T>) -> Result<Vec<T>, NoMemory>
    ensures { IfOk result (λ fitting. fitting.items ≡ values.items) }
{
    let mut values = values;
    if values.len() == values.capacity() {
        return Ok(values);
    }
    if values.len() > FEW {
        values.shrink_to_fit();
        return Ok(values);
    }
    let mut fitting = Vec::with_capacity(alloc, values.len())?;
    fitting.append(&mut values)?;
    Ok(fitting)
}

// The list or members with one more value.
fn with_value(frame: Frame, tree: Tree) -> Result<Frame, NoMemory>
    ensures { IfOk result (λ more. opened_of more ≡ with_value (json_of tree) (opened_of frame)) }
{
    match frame {
        Frame::List(items) => {
            let mut items = items;
            items.push(tree)?;
            Ok(Frame::List(items))
        }
        Frame::Named(members, name) => {
            let mut members = members;
            members.push((name, tree))?;
            Ok(Frame::Members(members))
        }
        Frame::Members(members) => Ok(Frame::Members(members)),
    }
}

// The members with one more name.
fn with_name(frame: Frame, name: Text) -> Frame
    ensures { opened_of result ≡ with_name name (opened_of frame) }
{
    match frame {
        Frame::Members(members) => Frame::Named(members, name),
        other => other,
    }
}
