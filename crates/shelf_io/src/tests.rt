// Worked runs over each shelf.
ghost use Rattle.std.specs.Prelude.{IfOk};
ghost use Rattle.shelf_io.specs.Held.{AreNamesDistinct};

use crate::disk::{read_up_to, write_whole};
use crate::{DiskShelf, Fetch, MemShelf, Put, Shelf, SureShelf, are_names_distinct};
use agg_base::{NoMemory, Text};
use std::alloc::Global;
use std::io::{Read, Write};
use std::test::Fail;
use std::{fs, io, process};

// One file `m` that holds `abcde`.
fn one_file(alloc: Global) -> Result<Vec<(Text, Vec<u8>)>, NoMemory> {
    let name = Text::of(alloc, "m")?;
    let bytes = Vec::from_slice(alloc, b"abcde")?;
    let mut files = Vec::new(alloc);
    files.push((name, bytes))?;
    Ok(files)
}

// A reader that gives three bytes at a time.
#[derive(Drop)]
struct SlowReader {
    left: usize,
}

impl Read for SlowReader {
    fn read(&mut self, buf: &mut [u8]) -> io::Result<usize> {
        let count = self.left.min(3).min(buf.len());
        for at in 0..count {
            buf[at] = b'x';
        }
        self.left -= count;
        Ok(count)
    }
}

// A writer that takes three bytes at a time.
#[derive(Drop)]
struct SlowWriter {
    taken: Vec<u8>,
}

impl Write for SlowWriter {
    fn write(&mut self, bytes: &[u8]) -> io::Result<usize> {
        let count = bytes.len().min(3);
        self.taken.extend_from_slice(&bytes[..count])?;
        Ok(count)
    }

    fn flush(&mut self) -> io::Result<()> {
        Ok(())
    }
}

// Copies a file, and says its name.
fn copy_over<S: Shelf>(alloc: Global, shelf: &mut S, from: &str, to: &str) -> Result<usize, Fetch> {
    let bytes = shelf.fetch(alloc, from, 100)?;
    if shelf.store(to, &bytes) != Ok(()) || shelf.say(to.as_bytes()) != Ok(()) {
        return Err(Fetch::Memory);
    }
    Ok(bytes.len())
}

#[test]
fn files_in_memory(rt: HostRuntime) -> Result<(), Fail> {
    let alloc = rt.alloc();
    let files = one_file(alloc)?;
    assert!(rt; are_names_distinct(&files));
    let mut shelf = MemShelf::new(alloc, files, Vec::new(alloc));
    assert_eq!(rt; copy_over(alloc, &mut shelf, "m", "out"), Ok(5));
    assert!(rt; shelf.file("out") == Some(b"abcde".as_slice()));
    assert_eq!(rt; shelf.said(), b"out".as_slice());
    assert!(rt; shelf.fetch(alloc, "m", 4) == Err(Fetch::TooLong));
    assert_eq!(rt; shelf.faults(), (0, 0));
    assert!(rt; shelf.fetch(alloc, "none", 4) == Err(Fetch::Failed));
    assert_eq!(rt; shelf.faults(), (1, 0));
    Ok(())
}

#[test]
fn calls_fail_by_number(rt: HostRuntime) -> Result<(), Fail> {
    let alloc = rt.alloc();
    let files = one_file(alloc)?;
    assert!(rt; are_names_distinct(&files));
    let mut failing = Vec::new(alloc);
    failing.push(0)?;
    failing.push(2)?;
    failing.push(3)?;
    let mut shelf = MemShelf::new(alloc, files, failing);
    assert!(rt; shelf.fetch(alloc, "m", 100) == Err(Fetch::Failed));
    assert_eq!(rt; shelf.store("out", b"before"), Ok(()));
    assert_eq!(rt; shelf.store("out", b"after"), Err(Put::Failed));
    assert!(rt; shelf.file("out") == Some(b"af".as_slice()));
    assert_eq!(rt; shelf.say(b"abc"), Err(Put::Failed));
    assert_eq!(rt; shelf.said(), b"a".as_slice());
    assert_eq!(rt; shelf.faults(), (1, 2));
    Ok(())
}

#[test]
fn sure_files(rt: HostRuntime) -> Result<(), Fail> {
    let alloc = rt.alloc();
    let files = one_file(alloc)?;
    assert!(rt; are_names_distinct(&files));
    let mut shelf = SureShelf::new(alloc, files);
    assert_eq!(rt; copy_over(alloc, &mut shelf, "none", "out"), Ok(0));
    assert!(rt; shelf.file("out") == Some(b"".as_slice()));
    assert!(rt; shelf.file("none").is_none());
    assert_eq!(rt; shelf.said(), b"out".as_slice());
    assert_eq!(rt; shelf.faults(), (0, 0));
    Ok(())
}

#[test]
fn names_that_repeat(rt: HostRuntime) -> Result<(), Fail> {
    let alloc = rt.alloc();
    let mut files = one_file(alloc)?;
    files.push((Text::of(alloc, "n")?, Vec::new(alloc)))?;
    assert!(rt; are_names_distinct(&files));
    files.push((Text::of(alloc, "m")?, Vec::new(alloc)))?;
    assert!(rt; !are_names_distinct(&files));
    Ok(())
}

#[test]
fn short_reads_and_writes(rt: HostRuntime) -> Result<(), Fail> {
    let alloc = rt.alloc();
    let Some(bytes) = read_up_to(alloc, &mut SlowReader { left: 5000 }, 5000)? else {
        return Err(Fail::from("too long"));
    };
    assert_eq!(rt; bytes.len(), 5000);
    assert!(rt; read_up_to(alloc, &mut SlowReader { left: 5000 }, 4999)?.is_none());
    let mut writer = SlowWriter {
        taken: Vec::new(alloc),
    };
    write_whole(&mut writer, b"abcdefgh")?;
    assert_eq!(rt; writer.taken.as_slice(), b"abcdefgh".as_slice());
    Ok(())
}

#[test]
fn real_files(rt: HostRuntime) -> Result<(), Fail> {
    let alloc = rt.alloc();
    let name = format!(in alloc; "/tmp/shelf_io_{}.txt", process::id(rt.process()))?;
    let mut shelf = DiskShelf::new(rt, alloc);
    assert_eq!(rt; shelf.store(&name, b"abcde"), Ok(()));
    let Ok(bytes) = shelf.fetch(alloc, &name, 5) else {
        return Err(Fail::from("not read"));
    };
    assert_eq!(rt; bytes.as_slice(), b"abcde".as_slice());
    assert!(rt; shelf.fetch(alloc, &name, 4) == Err(Fetch::TooLong));
    fs::remove_file(&rt, &name)?;
    assert!(rt; shelf.fetch(alloc, &name, 5) == Err(Fetch::Failed));
    assert_eq!(rt; shelf.say(b"said\n"), Ok(()));
    assert_eq!(rt; shelf.store("/nowhere/at/all", b"a"), Err(Put::Failed));
    Ok(())
}
