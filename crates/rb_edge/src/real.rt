//! The real files and streams. What they hold is not told, so these few lines are trusted.
ghost use Rattle.std.specs.Prelude.{◌≡◌, ℕ, ◌≤◌, List, None, length, IfOk};

use crate::shelf::Shelf;
use crate::sink::{Failed, Sink};
use std::io::{Read, Seek, SeekFrom, Write};
use std::rt::Files;
use std::{fs, io};

/// The files of the system. It counts the failures of all names together.
#[derive(Drop)]
pub struct FileShelf<'r, R: Files> {
    rt: &'r R,
    failures: u64,
}

impl<'r, R: Files> FileShelf<'r, R> {
    /// The files that the runtime opens, with no failure so far. It takes no memory.
    pub fn new(rt: &'r R) -> FileShelf<'r, R>
        ensures untold { ⟦<FileShelf<'r, R> as Shelf>⟧.contents result ≡ None }
        ensures no_faults { (name : List ℕ) → ⟦<FileShelf<'r, R> as Shelf>⟧.faults result name ≡ 0 }
    {
        FileShelf { rt, failures: 0 }
    }
}

fn read_file<R: Files>(rt: &R, name: &str, at: u64, into: &mut [u8]) -> io::Result<usize>
    ensures { IfOk result (λ n. n ≤ length into.new) }
{
    let mut file = fs::open(rt, name)?;
    file.seek(SeekFrom::Start(at))?;
    file.read(into)
}

impl<'r, R: Files> Shelf for FileShelf<'r, R> {
    ghost contents = { λ _. None };

    ghost faults = { λ s _. s.failures };

    fn read(&mut self, name: &str, at: u64, into: &mut [u8]) -> Result<usize, Failed> {
        match read_file(self.rt, name, at, into) {
            Ok(count) => Ok(count),
            Err(_) => {
                self.failures = self.failures.saturating_add(1);
                Err(Failed)
            }
        }
    }
}

/// Standard output or standard error. A write that takes no byte counts as a failure.
#[derive(Drop)]
pub struct StdSink<W: Write + Drop> {
    to: W,
    failures: u64,
}

impl<W: Write + Drop> StdSink<W> {
    /// The stream, with no failure so far. It takes no memory.
    pub fn new(to: W) -> StdSink<W>
        ensures untold { ⟦<StdSink<W> as Sink>⟧.told result
            ≡ record { bytes = None; number = None } }
        ensures no_faults { ⟦<StdSink<W> as Sink>⟧.faults result ≡ 0 }
    {
        StdSink { to, failures: 0 }
    }
}

impl<W: Write + Drop> Sink for StdSink<W> {
    ghost told = { λ _. record { bytes = None; number = None } };

    ghost faults = { λ s. s.failures };

    fn write(&mut self, piece: &[u8]) -> Result<usize, Failed> {
        match self.to.write(piece) {
            Ok(count) if count > 0 => Ok(count),
            _ => {
                self.failures = self.failures.saturating_add(1);
                Err(Failed)
            }
        }
    }
}
