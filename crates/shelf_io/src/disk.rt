// The real files and the standard output. Nothing is told of what they hold.
ghost use Rattle.std.specs.Prelude.{◌≡◌, ◌≤◌, ◌<◌, ◌+◌, length, [], None, string_bytes, IfOk, IfSome, IfNone, OnOk};
ghost use Rattle.std.specs.Io.KnownBytes.{Appends, Consumes, IsAtEnd};
ghost use Rattle.shelf_io.specs.State.{first_state};

use crate::{Fetch, Put, Shelf};
use std::alloc::Global;
use std::io::{ErrorKind, Read, Write};
use std::rt::Files;
use std::{fs, io};

const CHUNK: usize = 4096;

/// The real files and the standard output.
///
/// It tells nothing of what they hold. An error whose kind is out of memory is answered as `Memory` and is not counted.
/// Each other error of fetching raises the one count, and each other error of storing and saying the other.
#[derive(Drop)]
pub struct DiskShelf<R: Files + Print + Drop> {
    rt: R,
    alloc: Global,
    fetch_faults: u64,
    put_faults: u64,
    missed: String,
}

impl<R: Files + Print + Drop> DiskShelf<R> {
    /// A shelf over the real files and the standard output. No fault is counted yet and no name is missed.
    pub fn new(rt: R, alloc: Global) -> DiskShelf<R>
        ensures { ⟦<DiskShelf<R> as Shelf>⟧.state result ≡ first_state None None }
    {
        DiskShelf {
            rt,
            alloc,
            fetch_faults: 0,
            put_faults: 0,
            missed: String::new(alloc),
        }
    }
}

// All that a reader has left, or nothing where it is more than the limit.
pub(crate) fn read_up_to<R: Read>(
    alloc: Global,
    reader: &mut R,
    limit: usize,
) -> io::Result<Option<Vec<u8>>>
    ensures bound { IfOk result (λ found. IfSome found (λ bytes. length bytes.items ≤ limit)) }
    ensures whole { IfOk result (λ found. IfSome found (λ bytes. Consumes (R.remaining reader.old) (R.remaining reader.new) bytes.items)) }
    ensures end { IfOk result (λ found. IfSome found (λ _. IsAtEnd (R.remaining reader.new))) }
    ensures over { IfOk result (λ found. IfNone found (IfSome (R.remaining reader.old) (λ left. limit < length left))) }
{
    let mut bytes = Vec::new(alloc);
    let mut chunk = [0u8; CHUNK];
    for _ in 0..u64::MAX {
        let count = reader.read(&mut chunk)?;
        if count == 0 {
            return Ok(Some(bytes));
        }
        if count > limit - bytes.len() {
            return Ok(None);
        }
        bytes.extend_from_slice(&chunk[..count])?;
    }
    Err(io::Error::from(ErrorKind::Other))
}

// All the bytes. A write that takes nothing is a fault.
pub(crate) fn write_whole<W: Write>(writer: &mut W, bytes: &[u8]) -> io::Result<()>
    ensures { OnOk result (Appends (W.contents writer.old) (W.contents writer.new) bytes.now) }
{
    let mut rest = bytes;
    while !rest.is_empty() {
        let count = writer.write(rest)?;
        if count == 0 {
            return Err(io::Error::from(ErrorKind::WriteZero));
        }
        rest = &rest[count..];
    }
    Ok(())
}

fn read_file<R: Files>(
    alloc: Global,
    rt: &R,
    name: &str,
    limit: usize,
) -> io::Result<Option<Vec<u8>>>
    ensures { IfOk result (λ found. IfSome found (λ bytes. length bytes.items ≤ limit)) }
{
    let mut file = fs::open(rt, name)?;
    read_up_to(alloc, &mut file, limit)
}

fn write_file<R: Files>(rt: &R, name: &str, bytes: &[u8]) -> io::Result<()> {
    let mut file = fs::create(rt, name)?;
    write_whole(&mut file, bytes)
}

impl<R: Files + Print + Drop> Shelf for DiskShelf<R> {
    ghost state = { λ s. record {
      files = None;
      said = None;
      fetch_faults = s.fetch_faults;
      put_faults = s.put_faults;
      missed = string_bytes s.missed;
    } };

    fn fetch(&mut self, alloc: Global, name: &str, limit: usize) -> Result<Vec<u8>, Fetch> {
        let Ok(copied) = String::from_str(self.alloc, name) else {
            return Err(Fetch::Memory);
        };
        match read_file(alloc, &self.rt, name, limit) {
            Ok(Some(bytes)) => Ok(bytes),
            Ok(None) => Err(Fetch::TooLong),
            Err(error) => {
                if error.kind() == ErrorKind::OutOfMemory {
                    return Err(Fetch::Memory);
                }
                self.fetch_faults = self.fetch_faults.saturating_add(1);
                self.missed = copied;
                Err(Fetch::Failed)
            }
        }
    }

    fn store(&mut self, name: &str, bytes: &[u8]) -> Result<(), Put> {
        match write_file(&self.rt, name, bytes) {
            Ok(()) => Ok(()),
            Err(error) => {
                if error.kind() == ErrorKind::OutOfMemory {
                    return Err(Put::Memory);
                }
                self.put_faults = self.put_faults.saturating_add(1);
                Err(Put::Failed)
            }
        }
    }

    fn say(&mut self, bytes: &[u8]) -> Result<(), Put> {
        match write_whole(&mut io::writer(&self.rt), bytes) {
            Ok(()) => Ok(()),
            Err(error) => {
                if error.kind() == ErrorKind::OutOfMemory {
                    return Err(Put::Memory);
                }
                self.put_faults = self.put_faults.saturating_add(1);
                Err(Put::Failed)
            }
        }
    }
}
