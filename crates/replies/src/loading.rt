//! Files, read whole.

ghost use Rattle.std.specs.Prelude.{◌≡◌, ◌≤◌, ◌<◌, ◌-◌, ◌^◌, ℕ, List, IfOk};
ghost use Rattle.replies.specs.Outcome.{FailedRead};
ghost use Rattle.replies.specs.Loaded.{IsLoaded};

use crate::answer::{Answer, notice, too_long_answer};
use crate::status::Status;
use rb_base::NoMemory;
use rb_edge::{LoadError, Shelf, load};
use std::alloc::Global;

/// The most bytes that a source, a table of pin values or a script may have.
pub(crate) const SOURCE_LIMIT: u32 = 8_388_608;

/// The most bytes that a module may have.
pub(crate) const VERILOG_LIMIT: u32 = 67_108_864;

/// The most bytes that a dump may have.
pub(crate) const WAVES_LIMIT: u32 = 67_108_864;

/// The bytes of a file, or the answer where it can't be read or is too long.
#[derive(Drop)]
pub(crate) enum Loaded {
    Bytes(Vec<u8>),
    Stopped(Answer),
}

pub(crate) fn load_file<S: Shelf>(
    alloc: Global,
    shelf: &mut S,
    file: &str,
    limit: u32,
) -> Result<Loaded, NoMemory>
    requires { limit < 2 ^ 32 - 1 }
    ensures loaded { IfOk result (IsLoaded (S.contents shelf.old) (FailedRead S.faults shelf.old shelf.new) file.now limit) }
    ensures unchanged { S.contents shelf.new ≡ S.contents shelf.old }
    ensures later { (any : List ℕ) → S.faults shelf.old any ≤ S.faults shelf.new any }
{
    match load(alloc, shelf, file, limit) {
        Ok(bytes) => Ok(Loaded::Bytes(bytes)),
        Err(LoadError::Failed) => {
            let answer = notice(alloc, Status::ReadFault, file, b": cannot read")?;
            Ok(Loaded::Stopped(answer))
        }
        Err(LoadError::TooLong) => {
            let answer = too_long_answer(alloc, file, limit)?;
            Ok(Loaded::Stopped(answer))
        }
        Err(LoadError::NoMemory) => Err(NoMemory),
    }
}
