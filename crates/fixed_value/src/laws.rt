// What components are.
ghost use Rattle.fixed_value.specs.Walks.{ComponentLaw};

/// The number of an area's component is the least area to which links between areas of one class lead. So two areas have one number exactly
/// where such links lead from one to the other.
pub fn component_law()
    ensures { ComponentLaw }
{}
