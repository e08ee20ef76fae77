// What the header of a grid has said so far.
use agg_base::Text;
use std::marker::Model;

// What a word of the header names.
#[derive(Clone, Copy, Debug, PartialEq, Eq)]
pub(crate) enum Name {
    Columns,
    Rows,
    Left,
    Low,
    Size,
    Nodata,
    Centre,
}

// The values that the header gave, each once at most.
#[derive(Drop)]
pub(crate) struct Draft {
    columns: Option<u32>,
    rows: Option<u32>,
    left: Option<Text>,
    low: Option<Text>,
    size: Option<Text>,
    nodata: Option<i32>,
}

impl Model for Draft {
    ghost use Rattle.grid_reader.specs.Header.{Draft};

    ghost Value = { Draft };

    ghost view = { λ d. record { columns = d.columns; rows = d.rows; left = d.left; low = d.low; size = d.size; nodata = d.nodata } };
}

ghost use Rattle.std.specs.Prelude.{◌≡◌, ◌<◌, ◌≤◌, ◌*◌, true, false, IfOk, IfErr, OnOk, length, map};
ghost use Rattle.std.specs.Char.{to_ascii_lowercase};
ghost use Rattle.grid_reader.specs.Header.{Draft, new_draft, name_in, is_named, Sets, SetsColumns, SetsRows, SetsLeft, SetsLow, SetsSize, SetsNodata, AddsWords, IsHeaderFault};
ghost use Rattle.text_words.specs.Words.{word};
ghost use Rattle.grid_reader.specs.Reading.{UnlessMemory};
ghost use Rattle.grid_reader.specs.Whole.{SaysWhole, IsEndFault};

use crate::GridFault;
use crate::number::{read_cell, read_corner, read_count, read_size};
use crate::whole::Whole;
use agg_base::NoMemory;
use agg_base::limits::CELLS;
use plane_edge::{Frame, Limit};
use std::alloc::Global;
use text_words::Parts;

// Whether a text is that lower-case word, in upper or lower case.
fn is_named(text: &[u8], word: &[u8]) -> bool
    requires { map to_ascii_lowercase word.now ≡ word.now }
    ensures { result ≡ is_named text.now word.now }
{
    text.eq_ignore_ascii_case(word)
}

// What a word of the header names.
#[tactic(auto, unfolding(crate::specs::Header::name_in))]
fn name_of(text: &[u8]) -> Option<Name>
    ensures { result ≡ name_in text.now }
{
    if is_named(text, b"ncols") {
        return Some(Name::Columns);
    }
    if is_named(text, b"nrows") {
        return Some(Name::Rows);
    }
    if is_named(text, b"xllcorner") {
        return Some(Name::Left);
    }
    if is_named(text, b"yllcorner") {
        return Some(Name::Low);
    }
    if is_named(text, b"cellsize") {
        return Some(Name::Size);
    }
    if is_named(text, b"nodata_value") {
        return Some(Name::Nodata);
    }
    if is_named(text, b"xllcenter") || is_named(text, b"yllcenter") {
        return Some(Name::Centre);
    }
    None
}

impl Draft {
    // Nothing is said.
    pub(crate) fn start() -> Draft
        ensures { result ≡ new_draft }
    {
        Draft {
            columns: None,
            rows: None,
            left: None,
            low: None,
            size: None,
            nodata: None,
        }
    }

    // Takes the words of a line of the header.
    pub(crate) fn take(
        &mut self,
        alloc: Global,
        number: u32,
        parts: &Parts<'_>,
    ) -> Result<(), GridFault>
        requires { 0 < length parts.now }
        ensures ok { OnOk result (AddsWords self.old parts.now self.new) }
        ensures err { IfErr result (λ fault. UnlessMemory fault (IsHeaderFault self.old number parts.now fault)) }
    {
        let Some(name) = name_of(parts.at(0)) else {
            return Err(GridFault::Header { line: number });
        };
        if name == Name::Centre {
            return Err(GridFault::Centred { line: number });
        }
        if parts.len() != 2 {
            return Err(GridFault::Header { line: number });
        }
        if self.set(alloc, name, parts.at(1))? {
            Ok(())
        } else {
            Err(GridFault::Header { line: number })
        }
    }

    // Sets what is named, where it was not set and the text spells it.
    fn set(&mut self, alloc: Global, name: Name, text: &[u8]) -> Result<bool, NoMemory>
        ensures set { IfOk result (λ b. b ≡ true → Sets name self.old text.now self.new) }
        ensures unset { IfOk result (λ b. b ≡ false → (e : Draft) → ¬ Sets name self.old text.now e) }
    {
        match name {
            Name::Columns => Ok(self.set_columns(text)),
            Name::Rows => Ok(self.set_rows(text)),
            Name::Left => self.set_left(alloc, text),
            Name::Low => self.set_low(alloc, text),
            Name::Size => self.set_size(alloc, text),
            Name::Nodata => Ok(self.set_nodata(text)),
            Name::Centre => Ok(false),
        }
    }

    // Sets the columns.
    fn set_columns(&mut self, text: &[u8]) -> bool
        ensures set { result ≡ true → SetsColumns self.old text.now self.new }
        ensures unset { result ≡ false → (e : Draft) → ¬ SetsColumns self.old text.now e }
    {
        if self.columns.is_some() {
            return false;
        }
        let Some(count) = read_count(text) else {
            return false;
        };
        self.columns = Some(count);
        true
    }

    // Sets the rows.
    fn set_rows(&mut self, text: &[u8]) -> bool
        ensures set { result ≡ true → SetsRows self.old text.now self.new }
        ensures unset { result ≡ false → (e : Draft) → ¬ SetsRows self.old text.now e }
    {
        if self.rows.is_some() {
            return false;
        }
        let Some(count) = read_count(text) else {
            return false;
        };
        self.rows = Some(count);
        true
    }

    // Sets the left end.
    fn set_left(&mut self, alloc: Global, text: &[u8]) -> Result<bool, NoMemory>
        ensures set { IfOk result (λ b. b ≡ true → SetsLeft self.old text.now self.new) }
        ensures unset { IfOk result (λ b. b ≡ false → (e : Draft) → ¬ SetsLeft self.old text.now e) }
    {
        if self.left.is_some() {
            return Ok(false);
        }
        let Some(number) = read_corner(text) else {
            return Ok(false);
        };
        self.left = Some(Text::of(alloc, number)?);
        Ok(true)
    }

    // Sets the low end.
    fn set_low(&mut self, alloc: Global, text: &[u8]) -> Result<bool, NoMemory>
        ensures set { IfOk result (λ b. b ≡ true → SetsLow self.old text.now self.new) }
        ensures unset { IfOk result (λ b. b ≡ false → (e : Draft) → ¬ SetsLow self.old text.now e) }
    {
        if self.low.is_some() {
            return Ok(false);
        }
        let Some(number) = read_corner(text) else {
            return Ok(false);
        };
        self.low = Some(Text::of(alloc, number)?);
        Ok(true)
    }

    // Sets the size of cells.
    fn set_size(&mut self, alloc: Global, text: &[u8]) -> Result<bool, NoMemory>
        ensures set { IfOk result (λ b. b ≡ true → SetsSize self.old text.now self.new) }
        ensures unset { IfOk result (λ b. b ≡ false → (e : Draft) → ¬ SetsSize self.old text.now e) }
    {
        if self.size.is_some() {
            return Ok(false);
        }
        let Some(number) = read_size(text) else {
            return Ok(false);
        };
        self.size = Some(Text::of(alloc, number)?);
        Ok(true)
    }

    // Sets the value that stands for no data.
    fn set_nodata(&mut self, text: &[u8]) -> bool
        ensures set { result ≡ true → SetsNodata self.old text.now self.new }
        ensures unset { result ≡ false → (e : Draft) → ¬ SetsNodata self.old text.now e }
    {
        if self.nodata.is_some() {
            return false;
        }
        let Some(value) = read_cell(text) else {
            return false;
        };
        self.nodata = Some(value);
        true
    }
}

impl Draft {
    // What the header says, where it ends at that line.
    pub(crate) fn finish(self, alloc: Global, number: u32) -> Result<Whole, GridFault>
        ensures whole { IfOk result (λ w. SaysWhole self w) }
        ensures few { IfOk result (λ w. w.columns * w.rows ≤ CELLS) }
        ensures fault { IfErr result (λ f. UnlessMemory f (IsEndFault self number f)) }
    {
        let Draft {
            columns,
            rows,
            left,
            low,
            size,
            nodata,
        } = self;
        let lacking = GridFault::Header { line: number };
        let columns = columns.ok_or(lacking)?;
        let rows = rows.ok_or(lacking)?;
        let left = left.ok_or(lacking)?;
        let low = low.ok_or(lacking)?;
        let size = size.ok_or(lacking)?;
        if u64::from(columns) * u64::from(rows) > CELLS as u64 {
            return Err(GridFault::Limit(Limit::Cells));
        }
        let frame = Frame::Scaled {
            sx: size.copy(alloc)?,
            sy: size,
            tx: left,
            ty: low,
        };
        Ok(Whole {
            columns,
            rows,
            nodata: nodata.unwrap_or(-9999),
            frame,
        })
    }
}
