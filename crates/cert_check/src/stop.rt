// Why the judge stops.
ghost use Rattle.std.specs.Prelude.{◌≡◌};
ghost use Rattle.cert_check.specs.declared.stop.Stop.TheVariants.{Flaw, Memory};

use crate::Verdict;
use agg_base::NoMemory;

/// The judge has found a flaw, or wants memory.
#[derive(Clone, Copy)]
pub(crate) enum Stop {
    /// The first flaw.
    Flaw(Verdict),
    /// Memory ran out.
    Memory,
}

impl From<Verdict> for Stop {
    ghost from_gives = { λ flaw stop. stop ≡ Flaw flaw };

    fn from(flaw: Verdict) -> Self {
        Stop::Flaw(flaw)
    }
}

impl From<NoMemory> for Stop {
    ghost from_gives = { λ _ stop. stop ≡ Memory };

    fn from(_: NoMemory) -> Self {
        Stop::Memory
    }
}
