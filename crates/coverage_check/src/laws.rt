// What the words of the contracts mean.
ghost use Rattle.coverage_check.specs.Fault.{OneFaultLaw};
ghost use Rattle.coverage_check.specs.KeptLaws.{OddLaw};

/// The odd edges that a checked map keeps of an area are those that occur an odd number of times among its steps, each once and in rising order.
#[tactic(auto, using(crate::proofs::KeptLemmas::odd_list_odd))]
pub fn odd_law()
    ensures { OddLaw }
{}

/// A coverage has one fault at most, but for want of memory: whoever answers a fault that `check` may answer answers the same.
pub fn one_fault_law()
    ensures { OneFaultLaw }
{}
