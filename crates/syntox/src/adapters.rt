//! The real things outside: files, standard input and the standard outputs. They count their faults and tell nothing of
//! what they hold, so no contract claims what a file or a terminal held or took.
ghost use Rattle.std.specs.Prelude.{◌≤◌, ◌<◌, ⊤, None, length, is_err, IfOk};
ghost use Rattle.px_base.specs.Faults.{Rose, HasCause};

use px_base::{Failed, Shelf, Sink, Source};
use std::fs;
use std::io::{ErrorKind, Read, Write};
use std::rt::Files;

/// One more fault. The count stands still at the end of its type.
fn count(faults: &mut u64) -> Failed
    ensures rose { Rose faults.old faults.new }
    ensures later { faults.old ≤ faults.new }
{
    *faults = faults.saturating_add(1);
    Failed
}

/// Reads once, and again where a signal came between.
fn read_from<R: Read>(reader: &mut R, faults: &mut u64, buf: &mut [u8]) -> Result<usize, Failed>
    ensures fits { IfOk result (λ n. n ≤ length buf.old) }
    ensures cause { HasCause faults.old faults.new (is_err result) }
{
    for _ in 0..u64::MAX {
        match reader.read(buf) {
            Ok(count) => return Ok(count),
            Err(error) if error.kind() == ErrorKind::Interrupted => {}
            Err(_) => break,
        }
    }
    Err(count(faults))
}

/// Writes once, and again where a signal came between. A writer that takes nothing of a piece has failed.
fn write_to<W: Write>(writer: &mut W, faults: &mut u64, bytes: &[u8]) -> Result<usize, Failed>
    ensures fits { IfOk result (λ n. n ≤ length bytes.now) }
    ensures goes_on { IfOk result (λ n. 0 < length bytes.now → 0 < n) }
    ensures cause { HasCause faults.old faults.new (is_err result) }
{
    for _ in 0..u64::MAX {
        match writer.write(bytes) {
            Ok(0) if !bytes.is_empty() => break,
            Ok(count) => return Ok(count),
            Err(error) if error.kind() == ErrorKind::Interrupted => {}
            Err(_) => break,
        }
    }
    Err(count(faults))
}

/// The files of the system, by their paths.
#[derive(Drop)]
pub struct FileShelf<'a, R: Files> {
    rt: &'a R,
    picked: Option<R::File>,
    faults: u64,
}

impl<'a, R: Files> FileShelf<'a, R> {
    pub fn new(rt: &'a R) -> Self {
        FileShelf {
            rt,
            picked: None,
            faults: 0,
        }
    }
}

impl<R: Files> Shelf for FileShelf<'_, R> {
    ghost faults = { λ s. s.faults };

    ghost may_ask = { λ _ _. ⊤ };

    ghost file = { λ _ _. None };

    ghost left = { λ _. None };

    fn pick(&mut self, name: &str) -> Result<(), Failed> {
        self.picked = None;
        match fs::open(self.rt, name) {
            Ok(file) => {
                self.picked = Some(file);
                Ok(())
            }
            Err(_) => Err(count(&mut self.faults)),
        }
    }

    fn read(&mut self, buf: &mut [u8]) -> Result<usize, Failed> {
        let Some(file) = &mut self.picked else {
            return Ok(0);
        };
        read_from(file, &mut self.faults, buf)
    }
}

/// A standard input.
#[derive(Drop)]
pub struct StdSource<R: Read + Drop> {
    reader: R,
    faults: u64,
}

impl<R: Read + Drop> StdSource<R> {
    pub fn new(reader: R) -> Self {
        StdSource { reader, faults: 0 }
    }
}

impl<R: Read + Drop> Source for StdSource<R> {
    ghost faults = { λ s. s.faults };

    ghost left = { λ _. None };

    fn read(&mut self, buf: &mut [u8]) -> Result<usize, Failed> {
        read_from(&mut self.reader, &mut self.faults, buf)
    }
}

/// A standard output.
#[derive(Drop)]
pub struct StdSink<W: Write + Drop> {
    writer: W,
    faults: u64,
}

impl<W: Write + Drop> StdSink<W> {
    pub fn new(writer: W) -> Self {
        StdSink { writer, faults: 0 }
    }
}

impl<W: Write + Drop> Sink for StdSink<W> {
    ghost faults = { λ s. s.faults };

    ghost taken = { λ _. None };

    fn write(&mut self, bytes: &[u8]) -> Result<usize, Failed> {
        write_to(&mut self.writer, &mut self.faults, bytes)
    }
}
