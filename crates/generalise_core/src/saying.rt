// A line that ends a run.
ghost use Rattle.std.specs.Prelude.{◌≡◌, ◌≢◌};
ghost use Rattle.shelf_io.specs.Files.{IsPartlySpoken};
ghost use Rattle.shelf_io.specs.Causes.{HasRisen};
ghost use Rattle.generalise_core.specs.Codes.{MayEndAs};
ghost use Rattle.generalise_core.specs.States.{with_line, OnlySays};

use crate::Status;
use shelf_io::{Put, Shelf};

/// Says a line, and ends with a status unless saying fails.
#[tactic(auto, using(crate::proofs::StateLemmas::says_whole, crate::proofs::StateLemmas::says_part))]
pub(crate) fn say_and_end<S: Shelf>(shelf: &mut S, line: &str, status: Status) -> Status
    requires other { status ≢ Status.WriteFault }
    requires there { status ≢ Status.Memory }
    ensures status { MayEndAs status result }
    ensures heard { result ≡ status → S.state shelf.new ≡ with_line (S.state shelf.old) line.now }
    ensures partly { IsPartlySpoken (S.state shelf.old).said (S.state shelf.new).said line.now }
    ensures frame { OnlySays (S.state shelf.old) (S.state shelf.new) }
    ensures cause { result ≡ Status.WriteFault → HasRisen (S.state shelf.old).put_faults (S.state shelf.new).put_faults }
    ensures quiet { result ≢ Status.WriteFault → (S.state shelf.new).put_faults ≡ (S.state shelf.old).put_faults }
{
    match shelf.say(line.as_bytes()) {
        Ok(()) => status,
        Err(Put::Failed) => Status::WriteFault,
        Err(Put::Memory) => Status::Memory,
    }
}
