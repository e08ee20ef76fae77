// The formats of maps.
use agg_base::Text;
use topo_reader::Pick;

/// The format of a map, with the names that its reader needs.
#[derive(Drop)]
pub enum Format {
    /// An ESRI ASCII grid. An area is a patch of equal cells, and its class is their value.
    Grid,
    /// TopoJSON 1.0: which object is read, and which property of its geometries is the class.
    TopoJson(Pick),
    /// GeoJSON (RFC 7946).
    GeoJson {
        /// The name of the property that has the class text.
        class: Text,
    },
}
