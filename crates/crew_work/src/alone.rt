// A crew of one.
ghost use Rattle.std.specs.Prelude.{◌≡◌, IfOk, IsOk};
ghost use Rattle.crew_work.specs.Pieces.{AreInOrder};

use crate::{Crew, Job};
use agg_base::NoMemory;
use std::alloc::Global;

/// A crew that runs the pieces one after another. It takes no memory for a job without pieces.
#[derive(Clone, Copy, Debug)]
pub struct Alone;

impl Crew for Alone {
    fn each<J: Job>(&self, alloc: Global, job: &J) -> Result<Vec<J::Piece>, NoMemory>
        ensures order { IfOk result (λ all. AreInOrder (J.stands job.now) (J.pieces job.now) all.items) }
        ensures without_pieces { J.pieces job.now ≡ 0 → IsOk result }
    {
        let mut pieces = Vec::new(alloc);
        for at in 0..job.count() {
            pieces.push(job.run(alloc, at)?)?;
        }
        Ok(pieces)
    }
}
