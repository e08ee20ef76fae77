// What the words behind the command say.
use std::marker::Model;

// What words have said so far: the operands in their order, and the value of each option where it stands.
#[derive(Drop)]
pub(crate) struct Draft<'a> {
    operands: Vec<&'a str>,
    splits: Option<&'a str>,
    class: Option<&'a str>,
    object: Option<&'a str>,
}

impl<'a> Model for Draft<'a> {
    ghost use Rattle.generalise_core.specs.Words.{Draft};
    ghost use Rattle.generalise_core.specs.Texts.{texts, lent};

    ghost Value = { Draft };

    ghost view = { λ d. record { operands = texts d.operands.items; splits = lent d.splits; class = lent d.class; object = lent d.object } };
}

ghost use Rattle.std.specs.Prelude.{◌≡◌, ◌<◌, ◌≤◌, ℕ, ◌↔◌, List, length, drop, IsTrue, IfOk, IfSome, IfNone, OnOk, None};
ghost use Rattle.generalise_core.specs.Words.{Request, Draft, IsName, SaysNames, IsForm, Says, empty_draft, with_operand, value_in, with_value};
ghost use Rattle.generalise_core.specs.Texts.{lent};
ghost use Rattle.generalise_core.specs.Orders.{request};

use crate::formats::format_of;
use crate::most_splits::splits_of;
use crate::setting::Setting;
use crate::words::are_different;
use crate::{Names, Order};
use agg_base::{NoMemory, Words};
use std::alloc::Global;

/// Whether a word may be an operand or a value: it is not empty, and does not begin with a minus.
pub(crate) fn is_name(word: &str) -> bool
    ensures { IsTrue result ↔ IsName word.now }
{
    let bytes = word.as_bytes();
    !bytes.is_empty() && bytes[0] != b'-'
}

impl<'a> Draft<'a> {
    // Nothing is said.
    fn start(alloc: Global) -> Draft<'a>
        ensures { result ≡ empty_draft }
    {
        Draft {
            operands: Vec::new(alloc),
            splits: None,
            class: None,
            object: None,
        }
    }

    fn take_operand(&mut self, word: &'a str) -> Result<(), NoMemory>
        ensures { OnOk result (self.new ≡ with_operand self.old word.now) }
    {
        self.operands.push(word)?;
        Ok(())
    }

    fn take_value(&mut self, setting: Setting, value: &'a str)
        ensures { self.new ≡ with_value self.old setting value.now }
    {
        match setting {
            Setting::Splits => self.splits = Some(value),
            Setting::Class => self.class = Some(value),
            Setting::Object => self.object = Some(value),
        }
    }

    // The value of an option, where it stands.
    fn value(&self, setting: Setting) -> Option<&'a str>
        ensures { lent result ≡ value_in self.now setting }
    {
        match setting {
            Setting::Splits => self.splits,
            Setting::Class => self.class,
            Setting::Object => self.object,
        }
    }

    fn is_without(&self, setting: Setting) -> bool
        ensures { IsTrue result ↔ (value_in self.now setting ≡ None) }
    {
        self.value(setting).is_none()
    }

    /// Whether a number of splits is said.
    pub(crate) fn has_splits(&self) -> bool
        ensures { IsTrue result ↔ (¬ (self.now.splits ≡ None)) }
    {
        !self.is_without(Setting::Splits)
    }

    // The word of the format and the files, where they are said.
    fn names(&self) -> Option<Names<'a>>
        ensures found { IfSome result (λ n. SaysNames self.now n.format.now n.map.now n.table.now n.out.now n.certificate.now) }
        ensures none { IfNone result ((word map table out certificate : List ℕ) → ¬ SaysNames self.now word map table out certificate) }
    {
        let [format, map, table, out, certificate] = self.operands.as_slice() else {
            return None;
        };
        if !are_different(map, table, out, certificate) {
            return None;
        }
        Some(Names {
            format,
            map,
            table,
            out,
            certificate,
        })
    }

    // What is asked for, where the words are in a form.
    pub(crate) fn order(&self, alloc: Global) -> Result<Option<Order<'a>>, NoMemory>
        ensures found { IfOk result (λ r. IfSome r (λ a. IsForm self.now (request a))) }
        ensures none { IfOk result (λ r. IfNone r ((r : Request) → ¬ IsForm self.now r)) }
    {
        let Some(names) = self.names() else {
            return Ok(None);
        };
        let digits = self.value(Setting::Splits);
        let Some(splits) = splits_of(digits) else {
            return Ok(None);
        };
        let class = self.value(Setting::Class);
        let object = self.value(Setting::Object);
        let format = format_of(alloc, names.format, class, object)?;
        let Some(format) = format else {
            return Ok(None);
        };
        Ok(Some(Order {
            format,
            map: names.map,
            table: names.table,
            out: names.out,
            certificate: names.certificate,
            splits,
        }))
    }
}

// Takes the word at a place, with its value where it is an option, and gives the next place, or none where the word may not stand there.
fn take_word<'a>(
    draft: &mut Draft<'a>,
    words: &'a Words,
    at: usize,
) -> Result<Option<usize>, NoMemory>
    requires within { at < length words.now }
    ensures next { IfOk result (λ r. IfSome r (λ next. (at < next) × (next ≤ length words.now))) }
    ensures taken { IfOk result (λ r. IfSome r (λ next. (all : Draft) → Says draft.new (drop next words.now) all ↔ Says draft.old (drop at words.now) all)) }
    ensures none { IfOk result (λ r. IfNone r ((all : Draft) → ¬ Says draft.old (drop at words.now) all)) }
{
    let count = words.count();
    let word = words.word(at);
    if is_name(word) {
        draft.take_operand(word)?;
        return Ok(Some(at + 1));
    }
    let Some(setting) = Setting::of(word) else {
        return Ok(None);
    };
    if !draft.is_without(setting) || at + 1 == count {
        return Ok(None);
    }
    let value = words.word(at + 1);
    if !is_name(value) {
        return Ok(None);
    }
    draft.take_value(setting, value);
    Ok(Some(at + 2))
}

/// What the words behind the command say, or none where one of them may not stand there.
pub(crate) fn read_draft(alloc: Global, words: &Words) -> Result<Option<Draft<'_>>, NoMemory>
    requires { 0 < length words.now }
    ensures found { IfOk result (λ r. IfSome r (λ said. Says empty_draft (drop 1 words.now) said)) }
    ensures none { IfOk result (λ r. IfNone r ((all : Draft) → ¬ Says empty_draft (drop 1 words.now) all)) }
{
    let mut draft = Draft::start(alloc);
    let mut at = 1;
    while at < words.count() {
        match take_word(&mut draft, words, at)? {
            Some(next) => at = next,
            None => return Ok(None),
        }
    }
    Ok(Some(draft))
}
