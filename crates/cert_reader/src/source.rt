// What is left of a text, line by line.
use std::marker::Model;

// What is left of a text, the number of its next line, and how many marks and splits the lines before it have.
#[derive(Drop)]
pub(crate) struct Source<'a> {
    number: u32,
    marks: u64,
    splits: u64,
    rest: &'a [u8],
}

impl<'a> Model for Source<'a> {
    ghost use Rattle.std.specs.Prelude.{◌+◌, ◌<◌, ◌^◌, length};
    ghost use Rattle.cert_reader.specs.Faults.{texts_in};
    ghost use Rattle.cert_reader.specs.Reads.{Left};

    ghost Value = { Left };

    ghost view = { λ s. record { number = s.number; size = record { marks = s.marks; splits = s.splits }; texts = texts_in s.rest.now } };

    ghost invariant = { λ s. s.number + length s.rest.now < 2 ^ 32 };
}

ghost use Rattle.std.specs.Prelude.{◌≡◌, ◌≤◌, ◌+◌, ◌∷◌, [], nat_lt, not, true, false, length, Some, None, IfOk, IfErr};
ghost use Rattle.agg_base.specs.declared.limits.TheConstants.{MARKS, SPLITS, TEXT_BYTES};
ghost use Rattle.cert_reader.specs.Due.{Due};
ghost use Rattle.cert_reader.specs.Faults.{no_size, texts_in};
ghost use Rattle.cert_reader.specs.Reads.{IsNext, Fails, fault_at, with_marks, with_splits};
ghost use Rattle.cert_text.specs.declared.fault.CertFault.TheVariants as fault;

use crate::cut::cut_at;
use crate::line::Line;
use crate::line_reader::read_line;
use agg_base::limits::{MARKS, SPLITS, TEXT_BYTES};
use cert_text::CertFault;
use std::alloc::Global;

impl<'a> Source<'a> {
    // The whole text.
    pub(crate) fn of(text: &'a [u8]) -> Source<'a>
        requires { length text.now ≤ TEXT_BYTES }
        ensures { result ≡ record { number = 1; size = no_size; texts = texts_in text.now } }
    {
        Source {
            number: 1,
            marks: 0,
            splits: 0,
            rest: text,
        }
    }

    // The number of the next line.
    pub(crate) fn number(&self) -> u32
        ensures { result ≡ self.now.number }
    {
        self.number
    }

    // Whether nothing is left.
    pub(crate) fn is_empty(&self) -> bool
        ensures over { result ≡ true → self.now.texts ≡ [] ∷ [] }
        ensures nothing_due { result ≡ true → fault_at [] self.now ≡ None }
        ensures more { result ≡ false → fault_at [] self.now ≡ Some (fault.Line self.now.number) }
    {
        self.rest.is_empty()
    }

    // Takes the next line, whatever it says.
    pub(crate) fn next(&mut self, alloc: Global) -> Result<Line, CertFault>
        ensures read { IfOk result (λ line. IsNext self.old self.new line) }
        ensures fault { IfErr result (λ f. (due : Due) → Fails (due ∷ []) self.old f) }
    {
        let number = self.number;
        let Some((text, rest)) = cut_at(self.rest, b'\n') else {
            return Err(CertFault::Line { number });
        };
        let said = read_line(alloc, text)?;
        let Some(line) = said else {
            return Err(CertFault::Line { number });
        };
        self.number = number + 1;
        self.rest = rest;
        Ok(line)
    }

    // Counts one more split, where there may be one.
    pub(crate) fn count_split(&mut self) -> bool
        ensures past { not result ≡ nat_lt SPLITS (self.old.size.splits + 1) }
        ensures counted { result ≡ true → self.new ≡ with_splits self.old (self.old.size.splits + 1) }
    {
        if self.splits >= SPLITS {
            return false;
        }
        self.splits += 1;
        true
    }

    // Counts the marks of one more row, where it may have them.
    pub(crate) fn count_marks(&mut self, marks: u64) -> bool
        ensures past { not result ≡ nat_lt MARKS (self.old.size.marks + marks) }
        ensures counted { result ≡ true → self.new ≡ with_marks self.old (self.old.size.marks + marks) }
    {
        let grown = self.marks.saturating_add(marks);
        if grown > MARKS {
            return false;
        }
        self.marks = grown;
        true
    }
}
