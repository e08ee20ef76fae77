// What holds of all values.
ghost use Rattle.topo_reader.specs.Topology.{OneLayer};
ghost use Rattle.topo_reader.specs.Faults.{OneFault, LayerWithoutFault, LayerOrFault};

/// A value spells one map at most.
pub fn one_layer_law()
    ensures { OneLayer }
{}

/// A value has one first fault at most.
pub fn one_fault()
    ensures { OneFault }
{}

/// A value that spells a map has no first fault.
pub fn layer_without_fault()
    ensures { LayerWithoutFault }
{}

/// Each value spells a map or has a first fault.
pub fn layer_or_fault()
    ensures { LayerOrFault }
{}
