// Rings put together.
ghost use Rattle.std.specs.Prelude.{◌≡◌, ◌<◌, ◌++◌, ◌∷◌, [], if◌then◌else◌, length, get_or, slice_set, filter, IfOk, OnOk};
ghost use Rattle.agg_base.specs.Lists.{lists_of, nested_of};
ghost use Rattle.arc_dissolve.specs.Slots.{AreHeads, AreFronts, AreSlots, AreGroups, is_filled};

use agg_base::NoMemory;
use std::alloc::Global;

// A list of the ring alone where it is a head, else an empty list.
fn slot_of(alloc: Global, ring: &[i64], is_head: bool) -> Result<Vec<Vec<i64>>, NoMemory>
    ensures { IfOk result (λ slot. lists_of slot.items ≡ (if is_head then ring.now ∷ [] else [])) }
{
    let mut slot = Vec::new(alloc);
    if is_head {
        slot.push(Vec::from_slice(alloc, ring)?)?;
    }
    Ok(slot)
}

// For each ring a list of it alone, where it is a head, else an empty list.
fn slots_of(
    alloc: Global,
    rings: &[Vec<i64>],
    heads: &[usize],
) -> Result<Vec<Vec<Vec<i64>>>, NoMemory>
    requires { length heads.now ≡ length rings.now }
    ensures { IfOk result (λ slots. AreFronts (lists_of rings.now) heads.now (length rings.now) (nested_of slots.items)) }
{
    let mut slots = Vec::new(alloc);
    for place in 0..rings.len() {
        let is_head = heads[place] == place;
        slots.push(slot_of(alloc, &rings[place], is_head)?)?;
    }
    Ok(slots)
}

// Puts a ring into a slot.
fn push_ring(
    slots: &mut Vec<Vec<Vec<i64>>>,
    alloc: Global,
    at: usize,
    ring: &[i64],
) -> Result<(), NoMemory>
    requires { at < length slots.old.items }
    ensures { OnOk result (nested_of slots.new.items ≡ slice_set (nested_of slots.old.items) at (get_or (nested_of slots.old.items) at [] ++ ring.now ∷ [])) }
{
    let ring = Vec::from_slice(alloc, ring)?;
    slots[at].push(ring)?;
    Ok(())
}

// Puts each ring that is no head behind its head.
fn fill(
    slots: &mut Vec<Vec<Vec<i64>>>,
    alloc: Global,
    rings: &[Vec<i64>],
    heads: &[usize],
) -> Result<(), NoMemory>
    requires heads { AreHeads (length rings.now) heads.now }
    requires fronts { AreFronts (lists_of rings.now) heads.now (length rings.now) (nested_of slots.old.items) }
    ensures { OnOk result (AreSlots (lists_of rings.now) heads.now (length rings.now) (nested_of slots.new.items)) }
{
    for place in 0..rings.len() {
        let head = heads[place];
        if head != place {
            push_ring(slots, alloc, head, &rings[place])?;
        }
    }
    Ok(())
}

// Whether there is a ring in the slot.
fn is_filled(slot: &[Vec<i64>]) -> bool
    ensures { result ≡ is_filled (lists_of slot.now) }
{
    !slot.is_empty()
}

// Takes the empty slots out.
fn drop_empty(slots: &mut Vec<Vec<Vec<i64>>>)
    ensures { nested_of slots.new.items ≡ filter is_filled (nested_of slots.old.items) }
{
    slots.retain(|slot| is_filled(slot));
}

/// The rings in lists, each head with those that stand with it.
pub fn group(
    alloc: Global,
    rings: &[Vec<i64>],
    heads: &[usize],
) -> Result<Vec<Vec<Vec<i64>>>, NoMemory>
    requires { AreHeads (length rings.now) heads.now }
    ensures { IfOk result (λ groups. AreGroups (lists_of rings.now) heads.now (nested_of groups.items)) }
{
    let mut slots = slots_of(alloc, rings, heads)?;
    fill(&mut slots, alloc, rings, heads)?;
    drop_empty(&mut slots);
    Ok(slots)
}
