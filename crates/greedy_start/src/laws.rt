// Laws of parts, and of those that no feasible grouping can cover.
ghost use Rattle.greedy_start.specs.Starts.{PartsLaw, HopelessLaw, OneEachLaw};

/// The parts of a problem have one numbering by their least areas.
pub fn parts_law()
    ensures { PartsLaw }
{}

/// Where a part is hopeless, no grouping is feasible.
pub fn hopeless_law()
    ensures { HopelessLaw }
{}

/// One region for each part costs the same, however the regions are numbered.
pub fn one_each_law()
    ensures { OneEachLaw }
{}
