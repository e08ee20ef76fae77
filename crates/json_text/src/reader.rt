// The reader of texts of JSON.
ghost use Rattle.std.specs.Prelude.{◌≡◌, ◌≤◌, length, IfOk, IfErr};
ghost use Rattle.json_text.specs.Tree.{Json};
ghost use Rattle.json_text.specs.Values.{json_of};
ghost use Rattle.json_text.specs.Faults.{IsTextOf, IsFirstFault, IsFaultOf};
ghost use Rattle.json_text.specs.declared.fault.JsonFault.{JsonFault};
ghost use Rattle.json_text.specs.Steps.{progress_of, nothing, run, reading, Gives};

use crate::machine::Machine;
use crate::{JsonFault, Tree};
use agg_base::limits::TEXT_BYTES;
use std::alloc::Global;

/// The value that the bytes spell by the grammar of RFC 8259, with a byte order mark in front or none.
///
/// `Syntax` names how many of the bytes from the first on begin some text of JSON, where nesting is not limited. `TooDeep` comes before it
/// where an opening bracket or brace among these bytes nests 65 deep, and names the place of the first one that does.
pub fn read(alloc: Global, bytes: &[u8]) -> Result<Tree, JsonFault>
    requires { length bytes.now ≤ TEXT_BYTES }
    ensures found { IfOk result (λ tree. IsTextOf bytes.now (json_of tree)) }
    ensures fault { IfErr result (λ fault. IsFaultOf bytes.now fault) }
    ensures spelled { (tree : Json) → IsTextOf bytes.now tree → Gives json_of result (Ok tree) }
    ensures faulty { (fault : JsonFault) → IsFirstFault bytes.now fault → Gives json_of result (Err fault) }
{
    read_all(alloc, bytes)
}

// The same, by what each byte makes of what has come before it.
#[tactic(auto, unfolding(crate::specs::Steps::reading))]
fn read_all(alloc: Global, bytes: &[u8]) -> Result<Tree, JsonFault>
    requires { length bytes.now ≤ TEXT_BYTES }
    ensures { Gives json_of result (reading bytes.now) }
{
    let machine = run(alloc, bytes)?;
    match machine.finish(alloc) {
        Ok(tree) => Ok(tree),
        Err(stop) => Err(stop.at(bytes.len())),
    }
}

// What all bytes make of the reader's state.
fn run(alloc: Global, bytes: &[u8]) -> Result<Machine, JsonFault>
    requires { length bytes.now ≤ TEXT_BYTES }
    ensures { Gives progress_of result (run 64 0 bytes.now nothing) }
{
    let mut machine = Machine::new(alloc);
    for at in 0..bytes.len() {
        if let Err(stop) = machine.step(alloc, bytes[at]) {
            return Err(stop.at(at));
        }
    }
    Ok(machine)
}
