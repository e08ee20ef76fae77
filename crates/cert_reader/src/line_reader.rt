// What a line says.
ghost use Rattle.std.specs.Prelude.{◌≡◌, ◌≤◌, ◌==◌, length, Some, None, IfOk};
ghost use Rattle.std.specs.Option.{option_map};
ghost use Rattle.agg_model.specs.Problem.{IsRising};
ghost use Rattle.cert_reader.specs.LineReading.{alone, only, version_line, status_in, status_line, stated_in, cost_line, bound_line, areas_line, regions_line, class_line, region_line, split_line, sum_line, void_line, border_line, members_in, set_in, escape_front, escape_line, head_line, plain_line, line_in};

use crate::limits::{LAST_AREA, LAST_CLASS, LAST_LINK, MOST_AREAS, MOST_MARKS};
use crate::line::Line;
use crate::words::{Words, is_word, read_number, read_whole};
use agg_base::NoMemory;
use agg_base::limits::DENOMINATOR;
use cert_text::CertStatus;
use row_laws::{Row, Set};
use std::alloc::Global;

// What a line says; None where it breaks its rule.
#[tactic(auto, unfolding(crate::specs::LineReading::line_in, crate::specs::LineReading::line_of_words))]
pub(crate) fn read_line(alloc: Global, line: &[u8]) -> Result<Option<Line>, NoMemory>
    ensures { IfOk result (λ said. said ≡ line_in line.now) }
{
    let mut words = Words::of(line);
    let Some(first) = words.next() else {
        return Ok(None);
    };
    if is_word(first, b"e") {
        return read_escape(alloc, &mut words);
    }
    Ok(read_plain(first, &mut words))
}

// What a line without members says, by its first word.
#[tactic(auto, unfolding(crate::specs::LineReading::plain_line))]
fn read_plain(first: &[u8], words: &mut Words<'_>) -> Option<Line>
    ensures { result ≡ plain_line first.now words.old }
{
    if is_word(first, b"b") {
        read_border(words)
    } else if is_word(first, b"a") {
        read_region(words)
    } else if is_word(first, b"s") {
        read_split(words)
    } else if is_word(first, b"f") {
        alone(words, Line::Fixed)
    } else if is_word(first, b"c") {
        read_sum(words)
    } else if is_word(first, b"v") {
        read_void(words)
    } else if is_word(first, b"r") {
        read_class(words)
    } else {
        read_head(first, words)
    }
}

// What a line at the head says, or the last one.
#[tactic(auto, unfolding(crate::specs::LineReading::head_line))]
fn read_head(first: &[u8], words: &mut Words<'_>) -> Option<Line>
    ensures { result ≡ head_line first.now words.old }
{
    if is_word(first, b"aggregation") {
        read_version(words)
    } else if is_word(first, b"status") {
        read_status(words)
    } else if is_word(first, b"cost") {
        read_cost(words)
    } else if is_word(first, b"bound") {
        read_bound(words)
    } else if is_word(first, b"areas") {
        read_areas(words)
    } else if is_word(first, b"regions") {
        read_regions(words)
    } else if is_word(first, b"end") {
        alone(words, Line::End)
    } else {
        None
    }
}

// The line, where no word is left.
fn alone(words: &Words<'_>, line: Line) -> Option<Line>
    ensures { result ≡ alone line words.now }
{
    if words.is_empty() { Some(line) } else { None }
}

// The only word that is left.
fn only<'a>(words: &mut Words<'a>) -> Option<&'a [u8]>
    ensures { option_map (λ word. word.now) result ≡ only words.old }
{
    let word = words.next()?;
    if words.is_empty() { Some(word) } else { None }
}

// The version.
#[tactic(auto, unfolding(crate::specs::LineReading::version_line))]
fn read_version(words: &mut Words<'_>) -> Option<Line>
    ensures { result ≡ version_line words.old }
{
    let word = only(words)?;
    if is_word(word, b"1") {
        Some(Line::Version)
    } else {
        None
    }
}

// The status.
#[tactic(auto, unfolding(crate::specs::LineReading::status_line))]
fn read_status(words: &mut Words<'_>) -> Option<Line>
    ensures { result ≡ status_line words.old }
{
    let word = only(words)?;
    let status = status_of(word)?;
    Some(Line::Status(status))
}

// The status that a word names.
fn status_of(word: &[u8]) -> Option<CertStatus>
    ensures { result ≡ status_in word.now }
{
    if is_word(word, b"optimal") {
        Some(CertStatus::Optimal)
    } else if is_word(word, b"within") {
        Some(CertStatus::Within)
    } else if is_word(word, b"none") {
        Some(CertStatus::Hopeless)
    } else {
        None
    }
}

// The number that a word spells, or that there is none.
#[tactic(auto, unfolding(crate::specs::LineReading::stated_in))]
fn read_stated(word: &[u8]) -> Option<Option<i128>>
    ensures { result ≡ stated_in word.now }
{
    if is_word(word, b"-") {
        return Some(None);
    }
    let number = read_whole(word)?;
    Some(Some(number))
}

// The cost.
#[tactic(auto, unfolding(crate::specs::LineReading::cost_line))]
fn read_cost(words: &mut Words<'_>) -> Option<Line>
    ensures { result ≡ cost_line words.old }
{
    let word = only(words)?;
    let cost = read_stated(word)?;
    Some(Line::Cost(cost))
}

// The bound.
#[tactic(auto, unfolding(crate::specs::LineReading::bound_line))]
fn read_bound(words: &mut Words<'_>) -> Option<Line>
    ensures { result ≡ bound_line words.old }
{
    let word = only(words)?;
    let bound = read_stated(word)?;
    Some(Line::Bound(bound))
}

// How many areas there are.
#[tactic(auto, unfolding(crate::specs::LineReading::areas_line))]
fn read_areas(words: &mut Words<'_>) -> Option<Line>
    ensures { result ≡ areas_line words.old }
{
    let count = words.number(0, MOST_AREAS)?;
    alone(words, Line::Areas(count))
}

// How many regions there are.
#[tactic(auto, unfolding(crate::specs::LineReading::regions_line))]
fn read_regions(words: &mut Words<'_>) -> Option<Line>
    ensures { result ≡ regions_line words.old }
{
    let count = words.number(0, MOST_AREAS)?;
    alone(words, Line::Regions(count))
}

// The class of a region.
#[tactic(auto, unfolding(crate::specs::LineReading::class_line))]
fn read_class(words: &mut Words<'_>) -> Option<Line>
    ensures { result ≡ class_line words.old }
{
    let class = words.number(0, LAST_CLASS)?;
    alone(words, Line::Class(class as u8))
}

// The region of an area.
#[tactic(auto, unfolding(crate::specs::LineReading::region_line))]
fn read_region(words: &mut Words<'_>) -> Option<Line>
    ensures { result ≡ region_line words.old }
{
    let region = words.number(0, LAST_AREA)?;
    alone(words, Line::Region(region))
}

// A split.
#[tactic(auto, unfolding(crate::specs::LineReading::split_line))]
fn read_split(words: &mut Words<'_>) -> Option<Line>
    ensures { result ≡ split_line words.old }
{
    let area = words.number(0, LAST_AREA)?;
    let class = words.number(0, LAST_CLASS)?;
    let class = class as u8;
    alone(words, Line::Split { area, class })
}

// A leaf in cost mode.
#[tactic(auto, unfolding(crate::specs::LineReading::sum_line))]
fn read_sum(words: &mut Words<'_>) -> Option<Line>
    ensures { result ≡ sum_line words.old }
{
    let denominator = words.number(1, DENOMINATOR)?;
    let count = words.number(0, MOST_MARKS)?;
    alone(words, Line::Sum { denominator, count })
}

// A leaf in void mode.
#[tactic(auto, unfolding(crate::specs::LineReading::void_line))]
fn read_void(words: &mut Words<'_>) -> Option<Line>
    ensures { result ≡ void_line words.old }
{
    let count = words.number(0, MOST_MARKS)?;
    alone(words, Line::Void { count })
}

// A border row.
#[tactic(auto, unfolding(crate::specs::LineReading::border_line))]
fn read_border(words: &mut Words<'_>) -> Option<Line>
    ensures { result ≡ border_line words.old }
{
    let link = words.number(0, LAST_LINK)?;
    let side = words.number(0, 1)?;
    let class = words.number(0, LAST_CLASS)?;
    let multiplier = words.multiplier()?;
    let (side, class) = (side as u8, class as u8);
    alone(
        words,
        Line::Row(Row::Border { link, side, class }, multiplier),
    )
}

// The numbers in front of the members of an escape row.
#[derive(Clone, Copy)]
struct Front {
    multiplier: i128,
    area: u32,
    class: u8,
    count: u32,
}

// What an escape row says.
#[tactic(auto, unfolding(crate::specs::LineReading::escape_line))]
fn read_escape(alloc: Global, words: &mut Words<'_>) -> Result<Option<Line>, NoMemory>
    ensures { IfOk result (λ said. said ≡ escape_line words.old) }
{
    let Some(front) = read_front(words) else {
        return Ok(None);
    };
    let Some(set) = read_set(alloc, words, front.count)? else {
        return Ok(None);
    };
    let (area, class) = (front.area, front.class);
    Ok(Some(Line::Row(Row::Escape { area, class, set }, front.multiplier)))
}

// The numbers in front of the members.
#[tactic(auto, unfolding(crate::specs::LineReading::escape_front))]
fn read_front(words: &mut Words<'_>) -> Option<Front>
    ensures { option_map (λ front. (front, words.new)) result ≡ escape_front words.old }
{
    let multiplier = words.multiplier()?;
    let area = words.number(0, LAST_AREA)?;
    let class = words.number(0, LAST_CLASS)?;
    let count = words.number(0, MOST_MARKS)?;
    let class = class as u8;
    Some(Front {
        multiplier,
        area,
        class,
        count,
    })
}

// The set of so many members.
#[tactic(auto, unfolding(crate::specs::LineReading::set_in))]
fn read_set(alloc: Global, words: &mut Words<'_>, count: u32) -> Result<Option<Set>, NoMemory>
    ensures { IfOk result (λ set. set ≡ set_in count words.old) }
{
    let Some(members) = read_members(alloc, words)? else {
        return Ok(None);
    };
    let Some(set) = Set::of(members) else {
        return Ok(None);
    };
    let is_counted = has_count(&set, count);
    if is_counted { Ok(Some(set)) } else { Ok(None) }
}

// Whether a set has so many members.
fn has_count(set: &Set, count: u32) -> bool
    ensures count { result ≡ (length set.now == count) }
    ensures rising { IsRising set.now }
{
    set.areas().len() == count as usize
}

// The members that the words spell.
fn read_members(alloc: Global, words: &mut Words<'_>) -> Result<Option<Vec<u32>>, NoMemory>
    ensures { IfOk result (λ members. option_map (λ v. v.items) members ≡ members_in words.old) }
{
    let mut members = Vec::new(alloc);
    while let Some(word) = words.next() {
        let Some(member) = read_number(word, 0, LAST_AREA) else {
            return Ok(None);
        };
        members.push(member)?;
    }
    Ok(Some(members))
}
