// The words of the command line.
ghost use Rattle.std.specs.Prelude.{◌≡◌, ◌≤◌, ◌↔◌, List, ℕ, ◌∷◌, [], codes, Some, IsTrue, IfOk, IfSome, IfNone};
ghost use Rattle.generalise_core.specs.Words.{Request, AreDifferent, Spells};
ghost use Rattle.generalise_core.specs.Orders.{request};

use crate::draft::read_draft;
use agg_base::{NoMemory, Words};
use generalise_steps::Format;
use std::alloc::Global;

/// The word of a format, and the files that are named behind it.
#[derive(Clone, Copy)]
pub(crate) struct Names<'a> {
    pub format: &'a str,
    pub map: &'a str,
    pub table: &'a str,
    pub out: &'a str,
    pub certificate: &'a str,
}

/// The format of the map, the files that the words name, and how many splits there may be at most.
#[derive(Drop)]
pub(crate) struct Order<'a> {
    pub format: Format,
    pub map: &'a str,
    pub table: &'a str,
    pub out: &'a str,
    pub certificate: &'a str,
    pub splits: u32,
}

/// Whether no two of the names are equal.
pub(crate) fn are_different(first: &str, second: &str, third: &str, fourth: &str) -> bool
    ensures { IsTrue result ↔ AreDifferent first.now second.now third.now fourth.now }
{
    first != second
        && first != third
        && first != fourth
        && second != third
        && second != fourth
        && third != fourth
}

/// What the words ask for. The command stands first, and each option anywhere behind it, once at most, with its value. That of `--splits`
/// is at most 1,000,000, in one to seven digits; `--class` stands only with a format that has properties, and `--object` only with
/// `topojson`.
pub(crate) fn read_words(alloc: Global, words: &Words) -> Result<Option<Order<'_>>, NoMemory>
    ensures found { IfOk result (λ r. IfSome r (λ a. Spells words.now (request a))) }
    ensures none { IfOk result (λ r. IfNone r ((r : Request) → ¬ (Spells words.now r))) }
{
    if words.count() == 0 || words.word(0) != "generalise" {
        return Ok(None);
    }
    let Some(draft) = read_draft(alloc, words)? else {
        return Ok(None);
    };
    draft.order(alloc)
}
