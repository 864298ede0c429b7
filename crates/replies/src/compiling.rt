//! A source, from its file to its module, or to its address table.

ghost use Rattle.std.specs.Prelude.{◌≡◌, ◌≤◌, ◌∷◌, [], ℕ, List, None, length, IfOk, option_copied};
ghost use Rattle.command_line.specs.Words.{compile, map_of, IsWaits};
ghost use Rattle.replies.specs.Outcome.{FailedRead, Judges, Answers, source_limit};
ghost use Rattle.replies.specs.Answer.{texts_of};
ghost use Rattle.replies.specs.Reply.{HasText, IsPrintable, status_of, told_by};

use crate::answer::{Answer, Reply, done};
use crate::describing::{Described, describe_source};
use crate::loading::{Loaded, SOURCE_LIMIT, load_file};
use crate::modules::module_net;
use rb_base::NoMemory;
use rb_edge::Shelf;
use report_text::address_lines;
use std::alloc::Global;

// What a source is compiled to.
fn compile_source(
    alloc: Global,
    waits: Option<u8>,
    top: Option<&str>,
    file: &str,
    source: &[u8],
) -> Result<Reply<'static>, NoMemory>
    requires short { length source.now ≤ source_limit }
    requires waits { IsWaits waits }
    ensures judged { IfOk result (λ reply. (dump : List ℕ) → HasText reply dump → Judges (compile waits (option_copied top.entry) file.now) (source.now ∷ []) (status_of reply) (told_by reply dump)) }
    ensures printable { IfOk result IsPrintable }
{
    match describe_source(alloc, waits, top, file, source)? {
        Described::Clean(block) => {
            let net = module_net(alloc, &block)?;
            Ok(Reply::Module(net))
        }
        Described::Stopped(answer) => Ok(Reply::Text(answer)),
    }
}

// The address table of a source.
fn map_source(
    alloc: Global,
    top: Option<&str>,
    file: &str,
    source: &[u8],
) -> Result<Answer, NoMemory>
    requires { length source.now ≤ source_limit }
    ensures { IfOk result (λ answer. Judges (map_of (option_copied top.entry) file.now) (source.now ∷ []) answer.status (texts_of answer)) }
{
    match describe_source(alloc, None, top, file, source)? {
        Described::Clean(block) => {
            let text = address_lines(alloc, &block)?;
            Ok(done(alloc, text))
        }
        Described::Stopped(answer) => Ok(answer),
    }
}

/// What `compile` answers.
pub(crate) fn compile_file<S: Shelf>(
    alloc: Global,
    shelf: &mut S,
    waits: Option<u8>,
    top: Option<&str>,
    file: &str,
) -> Result<Reply<'static>, NoMemory>
    requires { IsWaits waits }
    ensures answers { IfOk result (λ reply. (dump : List ℕ) → HasText reply dump → Answers (S.contents shelf.old) (FailedRead S.faults shelf.old shelf.new) (compile waits (option_copied top.entry) file.now) (status_of reply) (told_by reply dump)) }
    ensures printable { IfOk result IsPrintable }
    ensures unchanged { S.contents shelf.new ≡ S.contents shelf.old }
    ensures later { (any : List ℕ) → S.faults shelf.old any ≤ S.faults shelf.new any }
{
    match load_file(alloc, shelf, file, SOURCE_LIMIT)? {
        Loaded::Bytes(source) => {
            let reply = compile_source(alloc, waits, top, file, &source)?;
            Ok(reply)
        }
        Loaded::Stopped(answer) => Ok(Reply::Text(answer)),
    }
}

/// What `map` answers.
pub(crate) fn map_file<S: Shelf>(
    alloc: Global,
    shelf: &mut S,
    top: Option<&str>,
    file: &str,
) -> Result<Answer, NoMemory>
    ensures answers { IfOk result (λ answer. Answers (S.contents shelf.old) (FailedRead S.faults shelf.old shelf.new) (map_of (option_copied top.entry) file.now) answer.status (texts_of answer)) }
    ensures unchanged { S.contents shelf.new ≡ S.contents shelf.old }
    ensures later { (any : List ℕ) → S.faults shelf.old any ≤ S.faults shelf.new any }
{
    match load_file(alloc, shelf, file, SOURCE_LIMIT)? {
        Loaded::Bytes(source) => {
            let answer = map_source(alloc, top, file, &source)?;
            Ok(answer)
        }
        Loaded::Stopped(answer) => Ok(answer),
    }
}
