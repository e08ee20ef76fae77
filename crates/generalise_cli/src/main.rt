//! The program: it hands the words of the command line and the real files to the top call, and ends with its code.
#![tactic(auto)]

use agg_base::{Text, Words};
use crew_work::Alone;
use generalise_core::{Status, run};
use shelf_io::DiskShelf;
use std::env;
use std::io::ErrorKind;
use std::process::ExitCode;
use std::rt::Env;

// The arguments without the program's name, or the status that ends the program.
fn words_of<R: Env + AllocGlobal>(rt: &R) -> Result<Words, Status> {
    let alloc = rt.alloc();
    let arguments = match env::args(rt) {
        Ok(arguments) => arguments,
        Err(error) => {
            return Err(if error.kind() == ErrorKind::OutOfMemory {
                Status::Memory
            } else {
                Status::Usage
            });
        }
    };
    let mut texts = Vec::new(alloc);
    for argument in arguments.skip(1) {
        let Ok(text) = Text::of(alloc, argument.as_str()) else {
            return Err(Status::Memory);
        };
        if texts.push(text).is_err() {
            return Err(Status::Memory);
        }
    }
    Ok(Words::of(texts))
}

fn main(rt: HostRuntime) -> ExitCode {
    let alloc = rt.alloc();
    let status = match words_of(&rt) {
        Ok(words) => run(alloc, &words, &mut DiskShelf::new(rt, alloc), &Alone),
        Err(status) => status,
    };
    ExitCode::from(status.code())
}
