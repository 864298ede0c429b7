//! What the words ask for, answered.

ghost use Rattle.std.specs.Prelude.{◌≡◌, ◌≤◌, ℕ, List, IfOk};
ghost use Rattle.command_line.specs.Words.{AsksNothing, texts};
ghost use Rattle.replies.specs.Outcome.{FailedRead, Outcome};
ghost use Rattle.replies.specs.Reply.{HasText, IsPrintable, status_of, told_by};

use crate::answer::{Reply, usage_answer};
use crate::checking::check_files;
use crate::compiling::{compile_file, map_file};
use crate::documenting::manual_file;
use crate::driving::drive_files;
use crate::fronting::front_file;
use crate::generating::generate;
use crate::heading::header_file;
use crate::reading::read_file;
use crate::running::run_files;
use crate::simulating::simulate_files;
use crate::waving::dump_files;
use bumpalo::Bump;
use command_line::{Command, command_of};
use rb_base::NoMemory;
use rb_edge::Shelf;
use std::alloc::Global;

/// What the words ask for. It reads the files and writes nothing. Words that ask for nothing read none. What a manual needs of its source
/// stays in the arena.
pub fn answer_words<'a, S: Shelf>(
    alloc: Global,
    arena: &'a Bump,
    words: &[String],
    shelf: &mut S,
) -> Result<Reply<'a>, NoMemory>
    ensures outcome { IfOk result (λ reply. (dump : List ℕ) → HasText reply dump → Outcome (texts words.now) (S.contents shelf.old) (FailedRead S.faults shelf.old shelf.new) (status_of reply) (told_by reply dump)) }
    ensures printable { IfOk result IsPrintable }
    ensures unchanged { S.contents shelf.new ≡ S.contents shelf.old }
    ensures later { (any : List ℕ) → S.faults shelf.old any ≤ S.faults shelf.new any }
    ensures idle { AsksNothing (texts words.now) → shelf.new ≡ shelf.old }
{
    match command_of(words) {
        Some(Command::Compile { waits, top, source }) => {
            Ok(compile_file(alloc, shelf, waits, top, source)?)
        }
        Some(Command::Check { top, sources }) => {
            Ok(Reply::Text(check_files(alloc, shelf, top, sources)?))
        }
        Some(Command::Map { top, source }) => Ok(Reply::Text(map_file(alloc, shelf, top, source)?)),
        Some(Command::Header { top, source }) => {
            Ok(Reply::Text(header_file(alloc, shelf, top, source)?))
        }
        Some(Command::Manual { top, source }) => {
            Ok(manual_file(alloc, arena, shelf, top, source)?)
        }
        Some(Command::Axi { top, source }) => Ok(front_file(alloc, shelf, top, source)?),
        Some(Command::Sim { verilog, stimulus }) => {
            Ok(Reply::Text(simulate_files(alloc, shelf, verilog, stimulus)?))
        }
        Some(Command::Vcd { verilog, stimulus }) => {
            Ok(dump_files(alloc, shelf, verilog, stimulus)?)
        }
        Some(Command::Pins { waves }) => Ok(read_file(alloc, shelf, waves)?),
        Some(
            Command::Run {
                waits,
                top,
                source,
                stimulus,
            },
        ) => Ok(Reply::Text(run_files(alloc, shelf, waits, top, source, stimulus)?)),
        Some(
            Command::Drive {
                top,
                source,
                script,
            },
        ) => Ok(Reply::Text(drive_files(alloc, shelf, top, source, script)?)),
        Some(Command::Gen { count }) => Ok(Reply::Text(generate(alloc, count)?)),
        None => Ok(Reply::Text(usage_answer(alloc)?)),
    }
}
