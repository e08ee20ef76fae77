// Which object of a topology is read.
use agg_base::Text;

/// Which object of a topology is read, and which property of its geometries is the class.
#[derive(Drop)]
pub struct Pick {
    /// The name of the property that has the class text.
    pub class: Text,
    /// The name of the object. Where it is `None`, the topology's only object is meant.
    pub object: Option<Text>,
}
