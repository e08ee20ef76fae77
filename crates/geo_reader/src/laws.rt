// What holds of all values.
ghost use Rattle.geo_reader.specs.Faults.{OneLayer, OneFault, LayerWithoutFault, LayerOrFault};

/// A value spells at most one map.
pub fn one_layer()
    ensures { OneLayer }
{}

/// A value has at most one first fault.
pub fn one_fault()
    ensures { OneFault }
{}

/// A value that spells a map has no first fault.
pub fn layer_without_fault()
    ensures { LayerWithoutFault }
{}

/// Each value spells a map or has a first fault.
pub fn layer_or_fault()
    ensures { LayerOrFault }
{}
