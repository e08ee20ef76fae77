// What the lines of a certificate say, one by one.
use cert_text::CertStatus;
use row_laws::Row;

// What a line says.
#[derive(Drop)]
pub(crate) enum Line {
    // The name and the version of the format.
    Version,
    // How the search ended.
    Status(CertStatus),
    // The cost, if there is one.
    Cost(Option<i128>),
    // The bound, if there is one.
    Bound(Option<i128>),
    // How many areas there are.
    Areas(u32),
    // How many regions there are.
    Regions(u32),
    // The class of the next region.
    Class(u8),
    // The region of the next area.
    Region(u32),
    // A split of an area on a class.
    Split { area: u32, class: u8 },
    // A leaf whose areas have one allowed class each.
    Fixed,
    // A leaf in cost mode, with a denominator and so many rows.
    Sum { denominator: u32, count: u32 },
    // A leaf in void mode, with so many rows.
    Void { count: u32 },
    // A row of a sum, and its multiplier.
    Row(Row, i128),
    // The last line.
    End,
}
