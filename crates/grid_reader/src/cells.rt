// The cells that the words behind the header spell.

// The words so far: how many they are, and the values of the first of them, as many as there are cells at most.
#[derive(Drop)]
pub(crate) struct Cells {
    pub(crate) columns: u32,
    pub(crate) total: u32,
    pub(crate) found: u64,
    pub(crate) values: Vec<i32>,
}

ghost use Rattle.std.specs.Prelude.{◌≡◌, ◌<◌, ◌≤◌, ◌+◌, ◌^◌, ◌∷◌, ◌++◌, [], List, ℕ, length, IfErr, IfOk, OnOk};
ghost use Rattle.std.specs.List.{AllZip};
ghost use Rattle.grid_reader.specs.Numbers.{SpellsCell};
ghost use Rattle.text_words.specs.Words.{gap_words};
ghost use Rattle.agg_base.specs.Lines.{rows_left};
ghost use Rattle.grid_reader.specs.Cells.{HasTaken, body_words};
ghost use Rattle.grid_reader.specs.Faults.{IsCellFault, IsCountFault};

use crate::GridFault;
use crate::number::read_cell;
use agg_base::Lines;
use std::alloc::Global;
use text_words::Parts;

impl Cells {
    // Takes a word.
    fn take_word(&mut self, word: &[u8]) -> Result<(), GridFault>
        requires some { 1 ≤ self.old.columns }
        requires room { self.old.found + 1 < 2 ^ 64 }
        ensures columns { OnOk result (self.new.columns ≡ self.old.columns) }
        ensures total { OnOk result (self.new.total ≡ self.old.total) }
        ensures found { OnOk result (self.new.found ≡ self.old.found + 1) }
        ensures taken { OnOk result ((parts : List (List ℕ)) → HasTaken self.old parts → HasTaken self.new (parts ++ word.now ∷ [])) }
        ensures fault { IfErr result (λ f. (parts more : List (List ℕ)) → HasTaken self.old parts → IsCellFault self.old.columns self.old.total (parts ++ word.now ∷ more) f) }
    {
        if self.found >= u64::from(self.total) {
            self.found += 1;
            return Ok(());
        }
        let Some(value) = read_cell(word) else {
            let at = self.found as u32;
            return Err(GridFault::Cell {
                row: at / self.columns,
                column: at % self.columns,
            });
        };
        self.values.push(value)?;
        self.found += 1;
        Ok(())
    }

    // Takes the words of a line.
    pub(crate) fn take_line(&mut self, line: &[u8]) -> Result<(), GridFault>
        requires some { 1 ≤ self.old.columns }
        requires room { self.old.found + length (gap_words line.now) + 1 < 2 ^ 64 }
        ensures columns { OnOk result (self.new.columns ≡ self.old.columns) }
        ensures total { OnOk result (self.new.total ≡ self.old.total) }
        ensures found { OnOk result (self.new.found ≡ self.old.found + length (gap_words line.now)) }
        ensures taken { OnOk result ((parts : List (List ℕ)) → HasTaken self.old parts → HasTaken self.new (parts ++ gap_words line.now)) }
        ensures fault { IfErr result (λ f. (parts more : List (List ℕ)) → HasTaken self.old parts → IsCellFault self.old.columns self.old.total (parts ++ gap_words line.now ++ more) f) }
    {
        let mut rest = Parts::between_gaps(line);
        while let Some(word) = rest.next() {
            if let Err(fault) = self.take_word(word) {
                return Err(fault);
            }
        }
        Ok(())
    }
}

impl Cells {
    // Takes the words of the lines that are left.
    pub(crate) fn take_lines(&mut self, rest: &mut Lines<'_>) -> Result<(), GridFault>
        requires some { 1 ≤ self.old.columns }
        requires room { self.old.found + length (body_words (rows_left rest.old)) + 1 < 2 ^ 64 }
        ensures columns { OnOk result (self.new.columns ≡ self.old.columns) }
        ensures total { OnOk result (self.new.total ≡ self.old.total) }
        ensures taken { OnOk result ((parts : List (List ℕ)) → HasTaken self.old parts → HasTaken self.new (parts ++ body_words (rows_left rest.old))) }
        ensures fault { IfErr result (λ f. (parts : List (List ℕ)) → HasTaken self.old parts → IsCellFault self.old.columns self.old.total (parts ++ body_words (rows_left rest.old)) f) }
    {
        while let Some(line) = rest.next() {
            if let Err(fault) = self.take_line(line.text) {
                return Err(fault);
            }
        }
        Ok(())
    }
}

impl Cells {
    // No word yet.
    pub(crate) fn start(alloc: Global, columns: u32, total: u32) -> Cells
        ensures columns { result.columns ≡ columns }
        ensures total { result.total ≡ total }
        ensures found { result.found ≡ 0 }
        ensures taken { HasTaken result [] }
    {
        Cells {
            columns,
            total,
            found: 0,
            values: Vec::new(alloc),
        }
    }

    // The values, where there are as many words as cells.
    pub(crate) fn finish(self) -> Result<Vec<i32>, GridFault>
        ensures found { IfOk result (λ v. (parts : List (List ℕ)) → HasTaken self parts → AllZip SpellsCell parts v.items × (length parts ≡ self.total)) }
        ensures fault { IfErr result (λ f. (parts : List (List ℕ)) → HasTaken self parts → IsCountFault self.total parts f) }
    {
        if self.found != u64::from(self.total) {
            return Err(GridFault::Count { found: self.found });
        }
        Ok(self.values)
    }
}
