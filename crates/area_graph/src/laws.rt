// Laws of the problem of a checked map and a class table, and of what stands in its place.
ghost use Rattle.area_graph.specs.GraphLaws.{OneProblemLaw, UnknownLaw, LightLaw, OneUnknownLaw, OneLightLaw, UnknownNotLightLaw};

/// A map and a table have one problem at most.
pub fn one_problem_law()
    ensures { OneProblemLaw }
{}

/// A map with an area of no class has no problem.
pub fn unknown_law()
    ensures { UnknownLaw }
{}

/// A map with an area that weighs less than 1 has no problem.
pub fn light_law()
    ensures { LightLaw }
{}

/// A map and a table have one least area of no class at most.
pub fn one_unknown_law()
    ensures { OneUnknownLaw }
{}

/// A map and a table have one least area that weighs less than 1 at most, and it has one weight.
pub fn one_light_law()
    ensures { OneLightLaw }
{}

/// Where an area has no class, no area is named for its weight.
pub fn unknown_not_light_law()
    ensures { UnknownNotLightLaw }
{}
