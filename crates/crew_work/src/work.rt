// Jobs and crews.
ghost use Rattle.std.specs.Prelude.{◌≡◌, ◌<◌, ℕ, IfOk};
ghost use Rattle.crew_work.specs.Pieces.{AreInOrder};
ghost use Rattle.crew_work.specs.Runs.{OneResult, RunsAreInOrder, EachRunHasAResult, EachOrderIsAResult};

use agg_base::NoMemory;
use std::alloc::Global;

/// Work in numbered pieces. The numbers run from 0 and stay below the count.
///
/// A job is shared between threads, and its pieces are sent from one to another.
pub trait Job: Sync {
    /// What a piece of work gives.
    type Piece: Send + Drop;

    /// How many pieces the job has.
    ghost pieces: { Self → ℕ };

    /// What may stand at a number.
    ghost stands: { Self → ℕ → Self.Piece → Type 0 };

    /// How many pieces the job has.
    fn count(&self) -> usize
        ensures { result ≡ pieces self.now };

    /// The piece of a number below the count. Its one refusal is want of memory.
    fn run(&self, alloc: Global, at: usize) -> Result<Self::Piece, NoMemory>
        requires { at < pieces self.now }
        ensures { IfOk result (λ piece. stands self.now at piece) };
}

/// Whoever runs the pieces of a job.
pub trait Crew {
    /// All pieces of a job: as many as its count, and the piece of number i at place i, in whatever order they were run.
    /// Its error is that of a piece, or want of memory for the list.
    fn each<J: Job>(&self, alloc: Global, job: &J) -> Result<Vec<J::Piece>, NoMemory>
        ensures { IfOk result (λ all. AreInOrder (J.stands job.now) (J.pieces job.now) all.items) };
}

/// In whatever order the numbers of a job are handed out and its pieces taken back, the result is the pieces in order.
/// Two runs that take back the same pieces have one result. Each run has a result, and each list of pieces in order is the result of some run.
pub fn runs_law<J: Job>(job: &J)
    ensures in_order { RunsAreInOrder (J.stands job.now) }
    ensures one_result { OneResult J.Piece }
    ensures some_result { EachRunHasAResult J.Piece }
    ensures each_order { EachOrderIsAResult (J.stands job.now) }
{
    let _ = job;
}
