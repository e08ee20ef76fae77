// A class table.
use agg_base::Text;
use std::marker::Model;

/// Table by number: names, thresholds (in twice the square unit), distances row by row, the factors of the axes and the border weight.
#[derive(Drop)]
pub struct Table {
    wide: u32,
    high: u32,
    border: u32,
    names: Vec<Text>,
    thresholds: Vec<i128>,
    distances: Vec<u32>,
}

impl Model for Table {
    ghost use Rattle.class_table.specs.Table.{Table, IsTable};

    ghost Value = { Table };

    ghost view = { λ t. record { wide = t.wide; high = t.high; border = t.border; names = t.names.items; threshold = t.thresholds.items; distance = t.distances.items } };

    ghost invariant = { λ t. IsTable (record { wide = t.wide; high = t.high; border = t.border; names = t.names.items; threshold = t.thresholds.items; distance = t.distances.items }) };
}

ghost use Rattle.std.specs.Prelude.{◌≡◌, ◌<◌, length};
ghost use Rattle.class_table.specs.Table.{IsTable, threshold_of, distance_of};

impl Table {
    // The table of what was read.
    pub(crate) fn of(
        unit: (u32, u32),
        border: u32,
        names: Vec<Text>,
        thresholds: Vec<i128>,
        distances: Vec<u32>,
    ) -> Table
        requires { IsTable (record { wide = unit.0; high = unit.1; border = border; names = names.items; threshold = thresholds.items; distance = distances.items }) }
        ensures { result ≡ record { wide = unit.0; high = unit.1; border = border; names = names.items; threshold = thresholds.items; distance = distances.items } }
    {
        Table {
            wide: unit.0,
            high: unit.1,
            border,
            names,
            thresholds,
            distances,
        }
    }

    /// The factors of the axes: what a step of 1 in x and in y stands for. Each is 1 where the text has no `unit` line. It takes no memory.
    pub fn unit(&self) -> (u32, u32)
        ensures wide { result.0 ≡ self.now.wide }
        ensures high { result.1 ≡ self.now.high }
        ensures rules { IsTable self.now }
    {
        (self.wide, self.high)
    }

    /// What 1/256 unit of border between regions costs. It takes no memory.
    pub fn border(&self) -> u32
        ensures { result ≡ self.now.border }
    {
        self.border
    }

    /// The names of the classes, by class. It takes no memory.
    ///
    /// Every table keeps these rules: 1 to 64 classes, whose names differ; factors of 1 to 100; distances and a border weight of 0 to
    /// 10,000; thresholds of 0 to 10^30; no distance from a class to itself.
    pub fn names(&self) -> &[Text]
        ensures names { result.now ≡ self.now.names }
        ensures rules { IsTable self.now }
    {
        &self.names
    }

    /// The least weight of a region of a class, in twice the square unit. It takes no memory.
    pub fn threshold(&self, class: u8) -> i128
        requires { class < length self.now.names }
        ensures { result ≡ threshold_of self.now class }
    {
        self.thresholds[class as usize]
    }

    /// The distance from a class to a class. It takes no memory.
    pub fn distance(&self, from: u8, to: u8) -> u32
        requires from_in_range { from < length self.now.names }
        requires to_in_range { to < length self.now.names }
        ensures { result ≡ distance_of self.now from to }
    {
        self.distances[from as usize * self.names.len() + to as usize]
    }
}
