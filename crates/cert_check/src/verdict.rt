// What the judge says of a certificate.
use bound_rows::Entry;
use plane_edge::Edge;

/// That a certificate is valid, or its first flaw, in the order of this list. Nodes of the tree are numbered in preorder from 0, `yes` before
/// `no`; they are tested in order, each for its own flaws. With `Hopeless` there are only the flaws `Areas`, those of nodes, and `Bound`.
#[derive(Clone, Copy, Debug, PartialEq, Eq)]
pub enum Verdict {
    /// Nothing is wrong.
    Valid,
    /// The problem has another number of areas: this one.
    Areas { due: u32 },
    /// The region of the area is not below the number of regions: the least such area.
    Range { area: u32 },
    /// The class of the region is no class of the problem: the least such region.
    ClassRange { region: u32 },
    /// The drawn map writes its coordinates in another way than the map.
    Frame,
    /// There is another number of drawn regions: this one.
    Regions { drawn: u32 },
    /// The drawn region has another class text than the name of the region's class: the least such region.
    DrawnClass { region: u32 },
    /// The least drawn region whose odd edges are not those that are odd in an odd number of the region's areas, and the least edge that is
    /// in just one of the two.
    DrawnEdges { region: u32, edge: Edge },
    /// The region has no area.
    Empty { region: u32 },
    /// The links between areas of the region do not join them all.
    Loose { region: u32 },
    /// No area of the region has its class as own class.
    NoOwn { region: u32 },
    /// The areas of the region weigh less than the threshold of its class.
    TooSmall { region: u32 },
    /// The grouping has another cost: this one.
    Cost { due: i128 },
    /// The split is on no area of the problem, on a class that is not allowed, or on the only one that is.
    Split { node: u32 },
    /// The denominator of the leaf is outside 1 to 4,096, or is not 1 in void mode.
    Denominator { node: u32 },
    /// The row is out of form.
    Row { node: u32, row: u32 },
    /// The multiplier of the row is below 0.
    Negative { node: u32, row: u32 },
    /// The leaf is `Fixed`, and the area has more than one class: the least such area.
    NotFixed { node: u32, area: u32 },
    /// The total of the leaf in void mode, which is below 1.
    NotVoid { node: u32, total: i128 },
    /// This number of the leaf is the first that does not fit in 128 bits.
    Wide { node: u32, entry: Entry },
    /// The tree has another bound: this number, or none where it is void.
    Bound { due: Option<i128> },
    /// The bound is below the cost with `Optimal`, or is not with `Within`.
    Status,
}
