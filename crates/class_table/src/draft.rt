// What the lines of a class table have said so far.
ghost use Rattle.std.specs.Prelude.{◌≡◌, ◌<◌, ◌≤◌, ◌+◌, ◌^◌, if◌then◌else◌, true, length};
ghost use Rattle.class_table.specs.Content.{no_content, table_of};
ghost use Rattle.class_table.specs.Reading.{version_line, unit_line, border_line, scale_line, named_class, class_line, row_line, body_line, due_line, line_says, is_whole, whole};
ghost use Rattle.class_table.specs.Table.{Table, IsTable};
ghost use Rattle.class_table.specs.Gives.{Gives, content_of};
ghost use Rattle.class_table.specs.declared.fault.TableFault.TheVariants.{Line};
ghost use Rattle.class_table.specs.declared.fault.Why.TheVariants.{End};

use crate::line::{
    GREATEST_COST, has_border, has_version, is_among, is_comment, read_distances, read_name,
};
use crate::name::name_of;
use crate::number::read_number;
use crate::{Table, TableFault, Why};
use agg_base::Text;
use agg_base::limits::CLASSES;
use std::alloc::Global;
use text_words::Parts;

// The greatest factor of an axis.
const GREATEST_FACTOR: u128 = 100;

// The greatest threshold.
const GREATEST_THRESHOLD: u128 = 1_000_000_000_000_000_000_000_000_000_000;

// The lines that are due.
#[derive(Clone, Copy, Debug, PartialEq, Eq)]
pub(crate) enum Due {
    // The version.
    Head,
    // The unit or the border.
    Scale,
    // The border.
    Border,
    // Classes, and then rows.
    Body,
}

// What the lines have said so far.
#[derive(Drop)]
pub(crate) struct Draft {
    pub(crate) due: Due,
    pub(crate) rows: usize,
    pub(crate) wide: u32,
    pub(crate) high: u32,
    pub(crate) border: u32,
    pub(crate) names: Vec<Text>,
    pub(crate) thresholds: Vec<i128>,
    pub(crate) distances: Vec<u32>,
}

impl Draft {
    // Nothing is said.
    pub(crate) fn start(alloc: Global) -> Draft
        ensures { content_of result ≡ no_content }
    {
        Draft {
            due: Due::Head,
            rows: 0,
            wide: 1,
            high: 1,
            border: 0,
            names: Vec::new(alloc),
            thresholds: Vec::new(alloc),
            distances: Vec::new(alloc),
        }
    }

    // Takes one more line.
    #[tactic(auto, unfolding(crate::specs::Reading::line_says))]
    pub(crate) fn take(&mut self, alloc: Global, number: u32, line: &[u8]) -> Result<(), TableFault>
        ensures { Gives (λ _. content_of self.new) result (line_says (content_of self.old) number line.now) }
    {
        let parts = Parts::of(line);
        if parts.is_empty() || is_comment(line) {
            return Ok(());
        }
        self.take_due(alloc, number, line, &parts)
    }

    // Takes the words of a line that counts.
    #[tactic(auto, unfolding(crate::specs::Reading::due_line))]
    fn take_due(
        &mut self,
        alloc: Global,
        number: u32,
        line: &[u8],
        parts: &Parts<'_>,
    ) -> Result<(), TableFault>
        requires { 0 < length parts.now }
        ensures { Gives (λ _. content_of self.new) result (due_line self.old.due (content_of self.old) number line.now parts.now) }
    {
        match self.due {
            Due::Head => self.take_version(number, parts),
            Due::Scale => self.take_scale(number, parts),
            Due::Border => self.take_border(number, parts),
            Due::Body => self.take_body(alloc, number, line, parts),
        }
    }

    // Takes the version.
    #[tactic(auto, unfolding(crate::specs::Reading::version_line))]
    fn take_version(&mut self, number: u32, parts: &Parts<'_>) -> Result<(), TableFault>
        ensures { Gives (λ _. content_of self.new) result (version_line (content_of self.old) number parts.now) }
    {
        if !has_version(parts) {
            return Err(TableFault::at(number, Why::Version));
        }
        self.due = Due::Scale;
        Ok(())
    }

    // Takes the unit, or else the border.
    #[tactic(auto, unfolding(crate::specs::Reading::scale_line))]
    fn take_scale(&mut self, number: u32, parts: &Parts<'_>) -> Result<(), TableFault>
        requires { 0 < length parts.now }
        ensures { Gives (λ _. content_of self.new) result (scale_line (content_of self.old) number parts.now) }
    {
        if parts.has(0, b"unit") {
            self.take_unit(number, parts)
        } else {
            self.take_border(number, parts)
        }
    }

    // Takes the unit.
    #[tactic(auto, unfolding(crate::specs::Reading::unit_line))]
    fn take_unit(&mut self, number: u32, parts: &Parts<'_>) -> Result<(), TableFault>
        ensures { Gives (λ _. content_of self.new) result (unit_line (content_of self.old) number parts.now) }
    {
        if parts.len() != 3 {
            return Err(TableFault::at(number, Why::Word));
        }
        let Some(wide) = read_number(parts.at(1), 1, GREATEST_FACTOR) else {
            return Err(TableFault::at(number, Why::Number));
        };
        let Some(high) = read_number(parts.at(2), 1, GREATEST_FACTOR) else {
            return Err(TableFault::at(number, Why::Number));
        };
        self.due = Due::Border;
        self.wide = wide as u32;
        self.high = high as u32;
        Ok(())
    }

    // Takes the border.
    #[tactic(auto, unfolding(crate::specs::Reading::border_line))]
    fn take_border(&mut self, number: u32, parts: &Parts<'_>) -> Result<(), TableFault>
        ensures { Gives (λ _. content_of self.new) result (border_line (content_of self.old) number parts.now) }
    {
        if !has_border(parts) {
            return Err(TableFault::at(number, Why::Word));
        }
        let Some(border) = read_number(parts.at(1), 0, GREATEST_COST) else {
            return Err(TableFault::at(number, Why::Number));
        };
        self.due = Due::Body;
        self.border = border as u32;
        Ok(())
    }

    // Takes a class before the first row, and a row while there are fewer than classes.
    #[tactic(auto, unfolding(crate::specs::Reading::body_line))]
    fn take_body(
        &mut self,
        alloc: Global,
        number: u32,
        line: &[u8],
        parts: &Parts<'_>,
    ) -> Result<(), TableFault>
        requires { 0 < length parts.now }
        ensures { Gives (λ _. content_of self.new) result (body_line (content_of self.old) number line.now parts.now) }
    {
        if parts.has(0, b"class") && self.rows == 0 {
            self.take_class(alloc, number, line, parts)
        } else if parts.has(0, b"row") && self.rows < self.names.len() {
            self.take_row(alloc, number, parts)
        } else {
            Err(TableFault::at(number, Why::Word))
        }
    }

    // Takes a class.
    #[tactic(auto, unfolding(crate::specs::Reading::class_line))]
    fn take_class(
        &mut self,
        alloc: Global,
        number: u32,
        line: &[u8],
        parts: &Parts<'_>,
    ) -> Result<(), TableFault>
        ensures { Gives (λ _. content_of self.new) result (class_line (content_of self.old) number line.now parts.now) }
    {
        if parts.len() < 3 {
            return Err(TableFault::at(number, Why::Word));
        }
        if self.names.len() >= CLASSES {
            return Err(TableFault::Limit { line: number });
        }
        let Some(threshold) = read_number(parts.at(1), 0, GREATEST_THRESHOLD) else {
            return Err(TableFault::at(number, Why::Number));
        };
        self.add_class(alloc, number, threshold, name_of(line))
    }

    // Adds a class with that threshold and name.
    #[tactic(auto, unfolding(crate::specs::Reading::named_class))]
    fn add_class(
        &mut self,
        alloc: Global,
        number: u32,
        threshold: u128,
        name: &[u8],
    ) -> Result<(), TableFault>
        requires { threshold ≤ 10 ^ 30 }
        ensures { Gives (λ _. content_of self.new) result (named_class (content_of self.old) number threshold name.now) }
    {
        let Some(name) = read_name(name) else {
            return Err(TableFault::at(number, Why::Name));
        };
        if is_among(&self.names, name) {
            return Err(TableFault::RepeatedClass { line: number });
        }
        self.names.push(Text::of(alloc, name)?)?;
        self.thresholds.push(threshold as i128)?;
        Ok(())
    }

    // Takes a row.
    #[tactic(auto, unfolding(crate::specs::Reading::row_line))]
    fn take_row(&mut self, alloc: Global, number: u32, parts: &Parts<'_>) -> Result<(), TableFault>
        requires some { 0 < length parts.now }
        requires due { self.old.rows < length self.old.names.items }
        ensures { Gives (λ _. content_of self.new) result (row_line (content_of self.old) number parts.now) }
    {
        if parts.len() - 1 != self.names.len() {
            return Err(TableFault::at(number, Why::Count));
        }
        let Some(row) = read_distances(alloc, parts)? else {
            return Err(TableFault::at(number, Why::Number));
        };
        if row[self.rows] != 0 {
            return Err(TableFault::at(number, Why::Diagonal));
        }
        self.rows += 1;
        self.distances.extend_from_slice(&row)?;
        Ok(())
    }

    // The table, where its last row has come. The last line has that number.
    #[tactic(auto, unfolding(crate::specs::Reading::whole))]
    pub(crate) fn finish(self, last: u32) -> Result<Table, TableFault>
        requires room { last + 1 < 2 ^ 32 }
        requires kept { (t : Table) → whole (content_of self) last ≡ Ok t → IsTable t }
        ensures { Gives (λ t. t) result (whole (content_of self) last) }
    {
        let number = last + 1;
        match self.due {
            Due::Head => Err(TableFault::at(number, Why::Version)),
            Due::Scale | Due::Border => Err(TableFault::at(number, Why::End)),
            Due::Body => self.finish_body(number),
        }
    }

    // The table, where there is a row for each class.
    fn finish_body(self, number: u32) -> Result<Table, TableFault>
        requires { is_whole (content_of self) ≡ true → IsTable (table_of (content_of self)) }
        ensures { Gives (λ t. t) result (if is_whole (content_of self) then Ok (table_of (content_of self)) else Err (Line number End)) }
    {
        if self.names.is_empty() || self.rows != self.names.len() {
            return Err(TableFault::at(number, Why::End));
        }
        Ok(Table::of(
            (self.wide, self.high),
            self.border,
            self.names,
            self.thresholds,
            self.distances,
        ))
    }
}
