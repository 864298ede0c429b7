//! Where files are read from.
ghost use Rattle.std.specs.Prelude.{◌≡◌, ℕ, ◌+◌, ◌-◌, ◌^◌, ◌<◌, ◌≤◌, List, length, Option, IfOk, OnErr, IsErrOf};
ghost use Rattle.rb_edge.specs.declared.shelf.LoadError.TheVariants.{Failed as failed_error, NoMemory as no_memory_error};
ghost use Rattle.rb_edge.specs.Count.{Rose};
ghost use Rattle.rb_edge.specs.Shelf.{Files, Holds, IsLonger, Reads};

use crate::sink::Failed;
use std::alloc::{AllocError, Global};
use thiserror::Error;

/// Where files are read from, by name.
pub trait Shelf {
    /// The files, where the shelf tells them.
    ghost contents: { Self → Option Files };

    /// How often reading the file of a name has failed, up to 2^64 - 1.
    ghost faults: { Self → List ℕ → ℕ };

    /// Reads bytes of a file, from the byte with the number `at` on, and answers how many.
    ///
    /// Where `into` has room, it is none exactly at or past the file's end. Reading changes no
    /// file. [`Failed`] comes only where the count of faults for the name rose; it comes always
    /// where the shelf tells its files and none has the name.
    fn read(&mut self, name: &str, at: u64, into: &mut [u8]) -> Result<usize, Failed>
        ensures count { IfOk result (λ n. n ≤ length into.new) }
        ensures bytes { IfOk result (λ n. Reads (contents self.old) name.now at into.new n) }
        ensures unchanged { contents self.new ≡ contents self.old }
        ensures later { (any : List ℕ) → faults self.old any ≤ faults self.new any }
        ensures failed { OnErr result
            (Rose (faults self.old name.now) (faults self.new name.now)) };
}

/// Why a file was not read whole.
#[derive(Clone, Copy, Debug, PartialEq, Eq, Error)]
pub enum LoadError {
    /// The shelf could not read the file.
    #[error("the file cannot be read")]
    Failed,
    /// The file is longer than the limit.
    #[error("the file is longer than the limit")]
    TooLong,
    /// Memory was refused.
    #[error("out of memory")]
    NoMemory,
}

impl From<Failed> for LoadError {
    ghost from_gives = { λ _ e. e ≡ failed_error };

    fn from(_: Failed) -> Self {
        LoadError::Failed
    }
}

impl From<AllocError> for LoadError {
    ghost from_gives = { λ _ e. e ≡ no_memory_error };

    fn from(_: AllocError) -> Self {
        LoadError::NoMemory
    }
}

/// How many bytes of a file are read at first.
const FIRST: usize = 65536;

/// The most bytes that are read at once.
const MOST: usize = 1048576;

// How far is read where so many bytes are read already: to the end of the first piece, and from
// there twice as far, by no more than 1 MiB, but only one byte past the most that are wanted.
fn end_of_piece(len: usize, most: usize) -> usize
    requires within { len ≤ most }
    requires limited { most < 2 ^ 32 }
    ensures further { len < result }
    ensures one_past { result ≤ most + 1 }
{
    let end = if len < FIRST {
        FIRST
    } else {
        len + len.min(MOST)
    };
    end.min(most + 1)
}

/// The whole file of a name, unless it is longer than the limit, in bytes.
///
/// It is read from the front into the vector that is answered, in pieces: 65,536 bytes at first,
/// and then as many as were read so far, up to 1 MiB, but never more than one byte past the limit.
///
/// [`LoadError::Failed`] comes only where the shelf's count of faults for the name rose, and
/// [`LoadError::TooLong`] only where the file is longer than the limit. Whatever the answer, the
/// shelf's files stay as they were, and no count of faults falls.
pub fn load<S: Shelf>(
    alloc: Global,
    shelf: &mut S,
    name: &str,
    limit: u32,
) -> Result<Vec<u8>, LoadError>
    requires { limit < 2 ^ 32 - 1 }
    ensures whole { IfOk result (λ bytes. Holds (S.contents shelf.old) name.now bytes.items) }
    ensures within { IfOk result (λ bytes. length bytes.items ≤ limit) }
    ensures too_long { IsErrOf result LoadError.TooLong
        → IsLonger (S.contents shelf.old) name.now limit }
    ensures failed { IsErrOf result LoadError.Failed
        → Rose (S.faults shelf.old name.now) (S.faults shelf.new name.now) }

    // What stands after any answer.
    ensures unchanged { S.contents shelf.new ≡ S.contents shelf.old }
    ensures later { (any : List ℕ) → S.faults shelf.old any ≤ S.faults shelf.new any }
{
    let most = limit as usize;
    let mut bytes = Vec::new(alloc);
    loop {
        let len = bytes.len();
        bytes.resize(end_of_piece(len, most), 0)?;
        let count = shelf.read(name, len as u64, &mut bytes[len..])?;
        bytes.truncate(len + count);
        if count == 0 {
            return Ok(bytes);
        }
        if bytes.len() > most {
            return Err(LoadError::TooLong);
        }
    }
}
