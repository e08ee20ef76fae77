// Checked maps.
use crate::kept::OddArea;
use plane_edge::Frame;
use std::marker::Model;

/// A map whose areas are planar and disjoint, by their odd edges: each area has one at least, and they
/// are in rising order. There are at most `AREAS` areas
/// with at most `STEPS` odd edges together (`agg_base::limits`).
#[derive(Drop)]
pub struct Checked {
    areas: Vec<OddArea>,
    passed: u32,
    frame: Frame,
}

impl Model for Checked {
    ghost use Rattle.coverage_check.specs.Checked.{Checked, IsChecked};

    ghost Value = { Checked };

    ghost view = { λ c. record { areas = c.areas.items; passed = c.passed; frame = c.frame } };

    ghost invariant = { λ c. IsChecked c.areas.items };
}

ghost use Rattle.std.specs.Prelude.{◌≡◌, ◌≤◌, ◌<◌, ◌+◌, ℕ, List, [], length, get_or};
ghost use Rattle.coverage_check.specs.Checked.{IsChecked};
ghost use Rattle.coverage_check.specs.Cover.{odd_of};
ghost use Rattle.coverage_check.specs.Kept.{kept_of, odds_of, classes_of};

use agg_base::Text;
use plane_edge::{Coverage, Edge};

impl Checked {
    /// How many areas there are. The map is planar and disjoint, and within its limits.
    pub fn areas(&self) -> usize
        ensures count { result ≡ length self.now.areas }
        ensures rules { IsChecked self.now.areas }
    {
        self.areas.len()
    }

    /// The odd edges of an area, in rising order.
    pub fn odd(&self, area: u32) -> &[Edge]
        requires { area < length self.now.areas }
        ensures { result.now ≡ odd_of (odds_of self.now.areas) area }
    {
        self.areas[area as usize].odd_edges()
    }

    /// The class text of an area.
    pub fn class(&self, area: u32) -> &Text
        requires { area < length self.now.areas }
        ensures { result.now ≡ get_or (classes_of self.now.areas) area [] }
    {
        self.areas[area as usize].class()
    }

    /// How many areas were passed over.
    pub fn passed(&self) -> u32
        ensures { result ≡ self.now.passed }
    {
        self.passed
    }

    /// How the coordinates are written. The map is planar and disjoint, and within its limits.
    pub fn frame(&self) -> &Frame
        ensures value { result.now ≡ self.now.frame }
        ensures rules { IsChecked self.now.areas }
    {
        &self.frame
    }
}

/// The checked map of the areas of a coverage that count.
pub fn assemble(areas: Vec<OddArea>, coverage: Coverage) -> Checked
    requires kept { areas.items ≡ kept_of coverage.areas.items }
    requires rules { IsChecked areas.items }
    ensures areas { result.areas ≡ areas.items }
    ensures passed { result.passed + length areas.items ≡ coverage.passed + length coverage.areas.items }
    ensures frame { result.frame ≡ coverage.frame }
{
    let Coverage {
        areas: all,
        passed,
        frame,
    } = coverage;
    let left_out = (all.len() - areas.len()) as u32;
    Checked {
        areas,
        passed: passed + left_out,
        frame,
    }
}
