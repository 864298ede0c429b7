//! A module and a table, from their files to the dump of a run.

ghost use Rattle.std.specs.Prelude.{◌≡◌, ◌≤◌, ◌∷◌, [], ℕ, List, length, IfOk};
ghost use Rattle.command_line.specs.Words.{vcd};
ghost use Rattle.replies.specs.Outcome.{FailedRead, Judges, Answers, verilog_limit};
ghost use Rattle.replies.specs.Reply.{HasText, IsPrintable, status_of, told_by};

use crate::answer::Reply;
use crate::loading::{Loaded, SOURCE_LIMIT, VERILOG_LIMIT, load_file};
use crate::simulating::{bad_stimulus, bad_verilog};
use rb_base::NoMemory;
use rb_edge::Shelf;
use sim_run::SimError;
use std::alloc::Global;
use wave_text::prepare;

// What the bytes of a module and of a table give.
fn dump_bytes(
    alloc: Global,
    file: &str,
    verilog: &[u8],
    table: &str,
    stimulus: &[u8],
) -> Result<Reply<'static>, NoMemory>
    requires { length verilog.now ≤ verilog_limit }
    ensures judged { IfOk result (λ reply. (dump : List ℕ) → HasText reply dump → Judges (vcd file.now table.now) (verilog.now ∷ stimulus.now ∷ []) (status_of reply) (told_by reply dump)) }
    ensures printable { IfOk result IsPrintable }
{
    match prepare(alloc, verilog, stimulus) {
        Ok(run) => Ok(Reply::Dump(run)),
        Err(SimError::Verilog(error)) => {
            let answer = bad_verilog(alloc, file, verilog, error)?;
            Ok(Reply::Text(answer))
        }
        Err(SimError::Stimulus(problem)) => {
            let answer = bad_stimulus(alloc, table, &problem)?;
            Ok(Reply::Text(answer))
        }
        Err(SimError::NoMemory) => Err(NoMemory),
    }
}

/// What `vcd` answers.
pub(crate) fn dump_files<S: Shelf>(
    alloc: Global,
    shelf: &mut S,
    file: &str,
    table: &str,
) -> Result<Reply<'static>, NoMemory>
    ensures answers { IfOk result (λ reply. (dump : List ℕ) → HasText reply dump → Answers (S.contents shelf.old) (FailedRead S.faults shelf.old shelf.new) (vcd file.now table.now) (status_of reply) (told_by reply dump)) }
    ensures printable { IfOk result IsPrintable }
    ensures unchanged { S.contents shelf.new ≡ S.contents shelf.old }
    ensures later { (any : List ℕ) → S.faults shelf.old any ≤ S.faults shelf.new any }
{
    let verilog = match load_file(alloc, shelf, file, VERILOG_LIMIT)? {
        Loaded::Bytes(verilog) => verilog,
        Loaded::Stopped(answer) => return Ok(Reply::Text(answer)),
    };
    let stimulus = match load_file(alloc, shelf, table, SOURCE_LIMIT)? {
        Loaded::Bytes(stimulus) => stimulus,
        Loaded::Stopped(answer) => return Ok(Reply::Text(answer)),
    };
    let reply = dump_bytes(alloc, file, &verilog, table, &stimulus)?;
    Ok(reply)
}
