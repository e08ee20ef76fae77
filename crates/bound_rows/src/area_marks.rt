// Marks of areas that are taken off all at once.
ghost use Rattle.std.specs.Prelude.{◌≡◌, ℕ, ◌<◌, ◌+◌, ◌==◌, ◌||◌, Bool, true, false, IfOk, length};
ghost use Rattle.bound_rows.specs.Scratch.{Marks, has_mark, AreMarks};

use agg_base::NoMemory;
use std::alloc::Global;
use std::marker::Model;

/// A number for each area. An area has a mark where its number is the current one.
#[derive(Drop)]
pub struct Marks {
    numbers: Vec<u32>,
    current: u32,
}

impl Model for Marks {
    ghost use Rattle.bound_rows.specs.Scratch.{Marks};

    ghost Value = { Marks };

    ghost view = { λ m. record { numbers = m.numbers.items; current = m.current } };
}

impl Marks {
    // Marks for so many areas.
    pub(crate) fn new(alloc: Global, areas: u32) -> Result<Marks, NoMemory>
        ensures { IfOk result (λ marks. AreMarks areas marks) }
    {
        Ok(Marks {
            numbers: vec![in alloc; 0u32; areas as usize]?,
            current: 0,
        })
    }

    // Takes all marks off.
    pub(crate) fn clear(&mut self)
        requires { AreMarks (length self.old.numbers) self.old }
        ensures marks { AreMarks (length self.old.numbers) self.new }
        ensures none { (v : ℕ) → v < length self.old.numbers → has_mark self.new v ≡ false }
    {
        if self.current == u32::MAX {
            self.numbers.fill(0);
            self.current = 0;
        }
        self.current += 1;
    }

    pub(crate) fn is_marked(&self, area: u32) -> bool
        requires { area < length self.now.numbers }
        ensures { result ≡ has_mark self.now area }
    {
        self.numbers[area as usize] == self.current
    }

    pub(crate) fn mark(&mut self, area: u32)
        requires { area < length self.old.numbers }
        ensures marks { AreMarks (length self.old.numbers) self.old → AreMarks (length self.old.numbers) self.new }
        ensures mark { (v : ℕ) → v < length self.old.numbers → has_mark self.new v ≡ (v == area || has_mark self.old v) }
    {
        self.numbers[area as usize] = self.current;
    }
}
