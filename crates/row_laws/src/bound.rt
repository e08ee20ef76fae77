// What a leaf is worth, and why it has no value or may not be relied on.

/// What every feasible grouping costs at least.
#[derive(Clone, Copy, Debug, PartialEq, Eq)]
pub enum Bound {
    /// Each of them costs this or more.
    Least(i128),
    /// There is none. It counts as greater than every number.
    Void,
}

/// A number that the value of a sum forms.
#[derive(Clone, Copy, Debug, PartialEq, Eq)]
pub enum Entry {
    /// What is left of the cost of giving an area a class.
    Choice { area: u32, class: u8 },
    /// What is left of the cost of a link between regions.
    Across { link: u32 },
    /// The total, when the least number of an area is added.
    TotalArea { area: u32 },
    /// The total, when the lesser of 0 and the number of a link is added.
    TotalLink { link: u32 },
}

/// Why a sound leaf has no value.
#[derive(Clone, Copy, Debug, PartialEq, Eq)]
pub enum Weak {
    /// This number is the first that does not fit in 128 bits.
    Wide { entry: Entry },
    /// The total in void mode, which is below 1.
    NotVoid { total: i128 },
}

/// Why a leaf may not be relied on.
#[derive(Clone, Copy, Debug, PartialEq, Eq)]
pub enum Unsound {
    /// The denominator is outside 1 to 4,096, or is not 1 in void mode.
    Denominator,
    /// The row is out of form.
    Row { row: u32 },
    /// The row is in form, and its multiplier is below 0.
    Negative { row: u32 },
    /// The area has no class or more than one.
    NotFixed { area: u32 },
}
