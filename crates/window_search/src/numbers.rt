// Numbers that are as good as drawn, the same on every machine.

#[derive(Drop)]
pub(crate) struct Numbers {
    state: u32,
}

impl Numbers {
    pub(crate) fn of(seed: u32) -> Numbers {
        Numbers { state: seed }
    }

    // The next number, below the count.
    pub(crate) fn below(&mut self, count: u32) -> u32 {
        let next = u64::from(self.state) * 1_103_515_245 + 12_345;
        self.state = (next % 2_147_483_648) as u32;
        (self.state / 65_536).checked_rem(count).unwrap_or(0)
    }

    // The next class of so many.
    pub(crate) fn class(&mut self, classes: u8) -> u8 {
        u8::try_from(self.below(u32::from(classes))).unwrap_or(0)
    }

    // Whether a draw of so many in a hundred hits.
    pub(crate) fn is_hit(&mut self, percent: u32) -> bool {
        self.below(100) < percent
    }
}
