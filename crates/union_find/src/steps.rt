// Lists that lead each member down to the least of its set, step by step.
ghost use Rattle.std.specs.Prelude.{ℕ, ◌≡◌, ◌<◌, ◌≤◌, ◌^◌, IfOk, EachIndex, length, slice_index};
ghost use Rattle.std.specs.List.{range_with_len};
ghost use Rattle.union_find.specs.Steps.{merge, LeadsDown, IsForest};

use agg_base::NoMemory;
use std::alloc::Global;

// Each member alone.
pub(crate) fn singles(alloc: Global, members: u32) -> Result<Vec<u32>, NoMemory>
    ensures { IfOk result (λ above. above.items ≡ range_with_len 0 members) }
{
    let mut above = Vec::with_capacity(alloc, members as usize)?;
    for member in 0..members {
        above.push(member)?;
    }
    Ok(above)
}

// Leads each member to itself.
pub(crate) fn stand_alone(above: &mut [u32])
    requires { length above.old ≤ 2 ^ 32 }
    ensures length { length above.new ≡ length above.old }
    ensures alone { EachIndex above.old (λ v. slice_index above.new v ≡ v) }
{
    for member in 0..above.len() {
        above[member] = member as u32;
    }
}

// The member at which the steps from a member end. It halves the way there.
pub(crate) fn top_of(above: &mut [u32], member: u32) -> u32
    requires down { LeadsDown above.old }
    requires member { member < length above.old }
    ensures length { length above.new ≡ length above.old }
    ensures down { LeadsDown above.new }
    ensures below { result < length above.new }
    ensures forest { (label_of : ℕ → ℕ) → IsForest label_of above.old → IsForest label_of above.new × (result ≡ label_of member) × (label_of result ≡ result) }
{
    let mut at = member;
    loop {
        let next = above[at as usize];
        if next == at {
            return at;
        }
        let after = above[next as usize];
        above[at as usize] = after;
        at = after;
    }
}

// Joins the sets of two members: the greater of their least members is led to the lesser.
pub(crate) fn join(above: &mut [u32], a: u32, b: u32)
    requires down { LeadsDown above.old }
    requires a { a < length above.old }
    requires b { b < length above.old }
    ensures length { length above.new ≡ length above.old }
    ensures down { LeadsDown above.new }
    ensures forest { (label_of : ℕ → ℕ) → IsForest label_of above.old → IsForest (λ v. merge (label_of a) (label_of b) (label_of v)) above.new }
{
    let a = top_of(above, a);
    let b = top_of(above, b);
    above[a.max(b) as usize] = a.min(b);
}

// Leads each member to the least of its set in one step.
pub(crate) fn flatten(above: &mut [u32])
    requires { LeadsDown above.old }
    ensures length { length above.new ≡ length above.old }
    ensures labels { (label_of : ℕ → ℕ) → IsForest label_of above.old → EachIndex above.old (λ v. slice_index above.new v ≡ label_of v) }
{
    for member in 0..above.len() {
        above[member] = above[above[member] as usize];
    }
}
