//! A run over real files: it generalises the islands, and then says the two files that were written, the map before the certificate. It ends with
//! the code of the run, or with that of a fault where a written file is not read or not said again.
#![tactic(auto)]

use agg_base::limits::{OUT_BYTES, TEXT_BYTES};
use agg_base::{NoMemory, Text, Words};
use crew_work::Alone;
use generalise_core::{Status, run};
use shelf_io::{DiskShelf, Fetch, Put, Shelf};
use std::alloc::Global;
use std::process::ExitCode;

// The command line.
const LINE: [&str; 8] = [
    "generalise",
    "grid",
    "islands.asc",
    "islands.classes",
    "out.json",
    "out.cert",
    "--splits",
    "0",
];

// The words of the command line.
fn words(alloc: Global) -> Result<Words, NoMemory> {
    let mut texts = Vec::new(alloc);
    for word in LINE {
        texts.push(Text::of(alloc, word)?)?;
    }
    Ok(Words::of(texts))
}

// Says the bytes of a file, at most so many.
fn say_file<S: Shelf>(
    alloc: Global,
    shelf: &mut S,
    name: &str,
    limit: usize,
) -> Result<(), Status> {
    let bytes = match shelf.fetch(alloc, name, limit) {
        Ok(bytes) => bytes,
        Err(Fetch::Memory) => return Err(Status::Memory),
        Err(Fetch::Failed | Fetch::TooLong) => return Err(Status::ReadFault),
    };
    match shelf.say(&bytes) {
        Ok(()) => Ok(()),
        Err(Put::Memory) => Err(Status::Memory),
        Err(Put::Failed) => Err(Status::WriteFault),
    }
}

// Runs, and says what was written.
fn run_and_say<S: Shelf>(alloc: Global, shelf: &mut S) -> Result<Status, Status> {
    let Ok(words) = words(alloc) else {
        return Err(Status::Memory);
    };
    let status = run(alloc, &words, shelf, &Alone);
    say_file(alloc, shelf, "out.json", OUT_BYTES)?;
    say_file(alloc, shelf, "out.cert", TEXT_BYTES)?;
    Ok(status)
}

fn main(rt: HostRuntime) -> ExitCode {
    let alloc = rt.alloc();
    let (Ok(status) | Err(status)) = run_and_say(alloc, &mut DiskShelf::new(rt, alloc));
    ExitCode::from(status.code())
}
