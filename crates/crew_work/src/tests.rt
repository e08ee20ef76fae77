// A small job.
ghost use Rattle.std.specs.Prelude.{◌≡◌, ◌*◌, length, slice_index};

use crate::{Alone, Crew, Job, runs_law};
use agg_base::NoMemory;
use std::alloc::Global;
use std::test::Fail;

// Twice each byte.
#[derive(Drop)]
struct Doubles<'a>(&'a [u8]);

impl Job for Doubles<'_> {
    type Piece = u16;

    ghost pieces = { λ job. length job.0.now };

    ghost stands = { λ job at piece. piece ≡ 2 * slice_index job.0.now at };

    fn count(&self) -> usize {
        self.0.len()
    }

    fn run(&self, _alloc: Global, at: usize) -> Result<u16, NoMemory> {
        Ok(2 * u16::from(self.0[at]))
    }
}

fn doubled<W: Crew>(crew: &W, alloc: Global, bytes: &[u8]) -> Result<Vec<u16>, NoMemory> {
    crew.each(alloc, &Doubles(bytes))
}

#[test]
fn pieces_come_in_order(rt: HostRuntime) -> Result<(), Fail> {
    let alloc = rt.alloc();
    let all = doubled(&Alone, alloc, &[3, 0, 255])?;
    assert_eq!(rt; all.as_slice(), [6, 0, 510].as_slice());
    assert_eq!(rt; doubled(&Alone, alloc, &[])?.len(), 0);
    runs_law(&Doubles(&[3]));
    Ok(())
}
