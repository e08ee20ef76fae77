// Room for the numbers of a value, and how rows are taken from them.
//
// The neighbours of an escape row are found along the ways of its members, each once, in whatever order. The first number that does not fit
// is that of the least neighbour.
ghost use Rattle.std.specs.Prelude.{◌≡◌, IfOk, ◌<◌, ◌≤ℤ◌, ◌==◌, ◌||◌, ℕ, ℤ, Bool, true, false, length, slice_index, pos, ◌↔◌, ◌≤◌, ◌^◌, ◌<ℤ◌, IsTrue, IsOk, IfErr, Ok};
ghost use Rattle.bound_rows.specs.Scratches.{IsScratchFor};
ghost use Rattle.agg_model.specs.Problem.{Problem, IsProblem, areas};
ghost use Rattle.row_laws.specs.declared.row.Row.TheVariants.{Escape};
ghost use Rattle.row_laws.specs.Rows.{Place, IsEscape, entries, is_in, is_neighbour, IsInForm, set_weight};
ghost use Rattle.row_laws.specs.Values.{scale, HasDenominator, AreGoodRows, IsRowFault, moves};
ghost use Rattle.row_laws.specs.Exact.{run, finish};
ghost use Rattle.bound_rows.specs.Scratch.{IsAt, IsRun, HasRoom, AreWays, AreMarks, has_mark, way_from, way_to};
ghost use Rattle.bound_rows.specs.Escapes.{IsTaken, HasSeen, AreSoundMarks, counted, lesser_area};

use crate::area_marks::Marks;
use crate::numbers::Numbers;
use crate::ways::Ways;
use crate::{Entry, Row, Set};
use agg_base::NoMemory;
use agg_model::Problem;
use fixed_value::Room;
use std::alloc::Global;

/// Room for one number per choice and link of a problem, the links of each area, a mark and a class for each area, and its components.
#[derive(Drop)]
pub struct Scratch {
    pub(crate) numbers: Numbers,
    pub(crate) ways: Ways,
    pub(crate) marks: Marks,
    pub(crate) kinds: Vec<u8>,
    pub(crate) room: Room,
}

impl Scratch {
    /// A scratch for a problem. Its one refusal is want of memory.
    pub fn new(alloc: Global, problem: &Problem) -> Result<Scratch, NoMemory>
        ensures scratch { IfOk result (λ scratch. IsScratchFor problem.now scratch) }
        ensures rules { IfOk result (λ _. IsProblem problem.now) }
    {
        Ok(Scratch {
            numbers: Numbers::new(alloc, problem)?,
            ways: Ways::new(alloc, problem)?,
            marks: Marks::new(alloc, problem.areas())?,
            kinds: vec![in alloc; 0u8; problem.areas() as usize]?,
            room: Room::new(alloc, problem)?,
        })
    }
}

impl Scratch {
    // The entries of all rows.
    pub(crate) fn take_rows(&mut self, problem: &Problem, rows: &[(Row, i128)]) -> Result<(), Entry>
        requires rules { IsProblem problem.now }
        requires good { AreGoodRows problem.now rows.now (length rows.now) }
        requires scratch { IsScratchFor problem.now self.old }
        ensures scratch { IsScratchFor problem.now self.new }
        ensures ways { self.new.ways ≡ self.old.ways }
        ensures run { (f : Place → ℤ) → IsAt problem.now f self.old.numbers → IsRun problem.now (run f (moves problem.now rows.now)) result self.new.numbers }
    {
        for (row, multiplier) in rows {
            self.take_row(problem, row, *multiplier)?;
        }
        Ok(())
    }

    // The entries of one row.
    fn take_row(&mut self, problem: &Problem, row: &Row, multiplier: i128) -> Result<(), Entry>
        requires rules { IsProblem problem.now }
        requires form { IsInForm problem.now row.now }
        requires sign { pos 0 ≤ℤ multiplier }
        requires scratch { IsScratchFor problem.now self.old }
        ensures scratch { IsScratchFor problem.now self.new }
        ensures ways { self.new.ways ≡ self.old.ways }
        ensures run { (f : Place → ℤ) → IsAt problem.now f self.old.numbers → IsRun problem.now (run f (scale multiplier (entries problem.now row.now))) result self.new.numbers }
    {
        match row {
            Row::Border { link, side, class } => self
                .numbers
                .take_border(problem, *link, *side, *class, multiplier),
            Row::Escape { area, class, set } => {
                self.take_escape(problem, *area, *class, set, multiplier)
            }
        }
    }
}

impl Scratch {
    // The entries of an escape row.
    fn take_escape(
        &mut self,
        problem: &Problem,
        area: u32,
        class: u8,
        set: &Set,
        multiplier: i128,
    ) -> Result<(), Entry>
        requires rules { IsProblem problem.now }
        requires form { IsEscape problem.now area class set.now }
        requires sign { pos 0 ≤ℤ multiplier }
        requires scratch { IsScratchFor problem.now self.old }
        ensures scratch { IsScratchFor problem.now self.new }
        ensures ways { self.new.ways ≡ self.old.ways }
        ensures run { (f : Place → ℤ) → IsAt problem.now f self.old.numbers → IsRun problem.now (run f (scale multiplier (entries problem.now (Escape area class set.now)))) result self.new.numbers }
    {
        self.numbers.take_choice(problem, area, class, -multiplier)?;
        let members = set.areas();
        self.marks.clear();
        mark_members(&mut self.marks, problem, members);
        match self.take_neighbours(problem, members, class, multiplier) {
            None => Ok(()),
            Some(area) => Err(Entry::Choice { area, class }),
        }
    }

    // The entries of all neighbours of a set whose members are marked, and the least neighbour whose number does not fit.
    fn take_neighbours(
        &mut self,
        problem: &Problem,
        set: &[u32],
        class: u8,
        amount: i128,
    ) -> Option<u32>
        requires rules { IsProblem problem.now }
        requires class { class < problem.now.classes }
        requires within { (i : ℕ) → i < length set.now → slice_index set.now i < areas problem.now }
        requires scratch { IsScratchFor problem.now self.old }
        requires members { (v : ℕ) → v < areas problem.now → has_mark self.old.marks v ≡ is_in set.now v }
        ensures scratch { IsScratchFor problem.now self.new }
        ensures ways { self.new.ways ≡ self.old.ways }
        ensures taken { (f : Place → ℤ) → IsAt problem.now f self.old.numbers → IsTaken problem.now f class amount (is_neighbour problem.now set.now) result self.new.numbers }
    {
        let mut worst = None;
        for area in set {
            worst = self.take_ways(problem, set, *area, class, amount, worst);
        }
        worst
    }

    // The entries of the neighbours along the ways of one member.
    fn take_ways(
        &mut self,
        problem: &Problem,
        set: &[u32],
        member: u32,
        class: u8,
        amount: i128,
        worst: Option<u32>,
    ) -> Option<u32>
        requires rules { IsProblem problem.now }
        requires member { member < areas problem.now }
        requires in_set { is_in set.now member ≡ true }
        requires class { class < problem.now.classes }
        requires scratch { IsScratchFor problem.now self.old }
        requires members { (v : ℕ) → v < areas problem.now → is_in set.now v ≡ true → has_mark self.old.marks v ≡ true }
        ensures scratch { IsScratchFor problem.now self.new }
        ensures ways { self.new.ways ≡ self.old.ways }
        ensures kept { (v : ℕ) → v < areas problem.now → has_mark self.old.marks v ≡ true → has_mark self.new.marks v ≡ true }
        ensures seen { HasSeen problem.now member 0 self.new.marks }
        ensures sound { AreSoundMarks problem.now set.now self.old.marks → AreSoundMarks problem.now set.now self.new.marks }
        ensures taken { (f : Place → ℤ) → IsTaken problem.now f class amount (counted set.now self.old.marks) worst self.old.numbers → IsTaken problem.now f class amount (counted set.now self.new.marks) result self.new.numbers }
    {
        let mut worst = worst;
        let mut lead = self.ways.last(member);
        while lead != 0 {
            let step = self.ways.step(lead);
            worst = self.take_neighbour(problem, set, step.area, class, amount, worst);
            lead = step.before;
        }
        worst
    }

    // The entry of an area at the end of a way, where it is not marked yet.
    fn take_neighbour(
        &mut self,
        problem: &Problem,
        set: &[u32],
        area: u32,
        class: u8,
        amount: i128,
        worst: Option<u32>,
    ) -> Option<u32>
        requires area { area < areas problem.now }
        requires class { class < problem.now.classes }
        requires scratch { IsScratchFor problem.now self.old }
        requires members { (v : ℕ) → v < areas problem.now → is_in set.now v ≡ true → has_mark self.old.marks v ≡ true }
        ensures scratch { IsScratchFor problem.now self.new }
        ensures ways { self.new.ways ≡ self.old.ways }
        ensures mark { (v : ℕ) → v < areas problem.now → has_mark self.new.marks v ≡ (v == area || has_mark self.old.marks v) }
        ensures taken { (f : Place → ℤ) → IsTaken problem.now f class amount (counted set.now self.old.marks) worst self.old.numbers → IsTaken problem.now f class amount (counted set.now self.new.marks) result self.new.numbers }
    {
        if self.marks.is_marked(area) {
            return worst;
        }
        self.marks.mark(area);
        self.numbers.take_one(problem, area, class, amount, worst)
    }
}

// Marks the members of a set.
fn mark_members(marks: &mut Marks, problem: &Problem, set: &[u32])
    requires within { (i : ℕ) → i < length set.now → slice_index set.now i < areas problem.now }
    requires marks { AreMarks (areas problem.now) marks.old }
    requires none { (v : ℕ) → v < areas problem.now → has_mark marks.old v ≡ false }
    ensures marks { AreMarks (areas problem.now) marks.new }
    ensures members { (v : ℕ) → v < areas problem.now → has_mark marks.new v ≡ is_in set.now v }
{
    for area in set {
        marks.mark(*area);
    }
}
