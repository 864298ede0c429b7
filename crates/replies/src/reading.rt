//! A value change dump, from its file to its table.

ghost use Rattle.std.specs.Prelude.{◌≡◌, ◌≤◌, ◌++◌, ◌∷◌, [], ℕ, List, codes, length, slice_index_or, IfOk};
ghost use Rattle.verdict_text.specs.Lines.{at_place, file_line};
ghost use Rattle.vcd_syntax.specs.Tokens.{Token};
ghost use Rattle.vcd_syntax.specs.Meaning.{names};
ghost use Rattle.vcd_syntax.specs.Reading.{Fails, IsSound};
ghost use Rattle.vcd_reader.specs.Reading.{place_number};
ghost use Rattle.command_line.specs.Words.{pins_of};
ghost use Rattle.replies.specs.Text.{vcd_kind as kind};
ghost use Rattle.replies.specs.Outcome.{FailedRead, Judges, Answers, waves_limit};
ghost use Rattle.replies.specs.Answer.{texts_of};
ghost use Rattle.replies.specs.Reply.{HasText, IsPrintable, status_of, told_by};

use crate::answer::{Answer, Reply, notice};
use crate::loading::{Loaded, WAVES_LIMIT, load_file};
use crate::places::push_place;
use crate::status::Status;
use rb_base::{NoMemory, Place};
use rb_edge::Shelf;
use std::alloc::Global;
use vcd_reader::{read, variable_name};
use vcd_syntax::VcdError;

// What an error is called.
fn kind_of(error: VcdError) -> &'static [u8]
    ensures { result.now ≡ kind error }
{
    match error {
        VcdError::Form { .. } => b"form",
        VcdError::Twice { .. } => b"declared twice",
        VcdError::Code { .. } => b"code",
        VcdError::Value { .. } => b"value",
        VcdError::Time { .. } => b"time",
        VcdError::Many { .. } => b"too many",
        VcdError::NoValue { .. } | VcdError::NoMemory => b"",
    }
}

fn place_of(error: VcdError) -> Place
    ensures { result.0 ≡ place_number error }
{
    match error {
        VcdError::Form { place }
        | VcdError::Twice { place }
        | VcdError::Code { place }
        | VcdError::Value { place }
        | VcdError::Time { place }
        | VcdError::Many { place } => place,
        VcdError::NoValue { .. } | VcdError::NoMemory => Place(0),
    }
}

// The line of a problem at a place.
fn placed(alloc: Global, file: &str, text: &[u8], error: VcdError) -> Result<Answer, NoMemory>
    requires short { length text.now ≤ waves_limit }
    requires within { place_number error ≤ length text.now }
    ensures status { IfOk result (λ answer. answer.status ≡ Status.BadVcd) }
    ensures err { IfOk result (λ answer. answer.err.items ≡ file_line file.now (at_place text.now (place_number error) ++ kind error)) }
    ensures out { IfOk result (λ answer. answer.out.items ≡ []) }
{
    let mut line = Vec::new(alloc);
    push_place(alloc, &mut line, text, place_of(error))?;
    line.extend_from_slice(kind_of(error))?;
    let answer = notice(alloc, Status::BadVcd, file, &line)?;
    Ok(answer)
}

// The name of the variable of a number, as a dump spells it.
fn name_of(text: &[u8], number: u32) -> &[u8]
    requires { length text.now ≤ waves_limit }
    ensures { (ms : List Token) → IsSound text.now ms → result.now ≡ slice_index_or (names ms) number [] }
{
    match variable_name(text, number) {
        Some(name) => name,
        None => b"",
    }
}

// The line of a variable without a value.
fn without_value(alloc: Global, file: &str, name: &[u8]) -> Result<Answer, NoMemory>
    ensures status { IfOk result (λ answer. answer.status ≡ Status.BadVcd) }
    ensures err { IfOk result (λ answer. answer.err.items ≡ file_line file.now (codes ": pin " ++ name.now ++ codes " without a value")) }
    ensures out { IfOk result (λ answer. answer.out.items ≡ []) }
{
    let mut line = Vec::from_slice(alloc, b": pin ")?;
    line.extend_from_slice(name)?;
    line.extend_from_slice(b" without a value")?;
    let answer = notice(alloc, Status::BadVcd, file, &line)?;
    Ok(answer)
}

// The line of what is wrong with a dump.
fn bad_vcd(alloc: Global, file: &str, text: &[u8], error: VcdError) -> Result<Answer, NoMemory>
    requires short { length text.now ≤ waves_limit }
    requires within { place_number error ≤ length text.now }
    requires fails { Fails text.now error }
    ensures { IfOk result (λ answer. Judges (pins_of file.now) (text.now ∷ []) answer.status (texts_of answer)) }
{
    match error {
        VcdError::NoValue { pin } => {
            let answer = without_value(alloc, file, name_of(text, pin))?;
            Ok(answer)
        }
        _ => {
            let answer = placed(alloc, file, text, error)?;
            Ok(answer)
        }
    }
}

// What the bytes of a dump give.
fn read_bytes(alloc: Global, file: &str, text: &[u8]) -> Result<Reply<'static>, NoMemory>
    requires { length text.now ≤ waves_limit }
    ensures judged { IfOk result (λ reply. (dump : List ℕ) → HasText reply dump → Judges (pins_of file.now) (text.now ∷ []) (status_of reply) (told_by reply dump)) }
    ensures printable { IfOk result IsPrintable }
{
    match read(alloc, text) {
        Ok(waves) => Ok(Reply::Table(waves)),
        Err(VcdError::NoMemory) => Err(NoMemory),
        Err(error) => {
            let answer = bad_vcd(alloc, file, text, error)?;
            Ok(Reply::Text(answer))
        }
    }
}

/// What `pins` answers.
pub(crate) fn read_file<S: Shelf>(
    alloc: Global,
    shelf: &mut S,
    file: &str,
) -> Result<Reply<'static>, NoMemory>
    ensures answers { IfOk result (λ reply. (dump : List ℕ) → HasText reply dump → Answers (S.contents shelf.old) (FailedRead S.faults shelf.old shelf.new) (pins_of file.now) (status_of reply) (told_by reply dump)) }
    ensures printable { IfOk result IsPrintable }
    ensures unchanged { S.contents shelf.new ≡ S.contents shelf.old }
    ensures later { (any : List ℕ) → S.faults shelf.old any ≤ S.faults shelf.new any }
{
    match load_file(alloc, shelf, file, WAVES_LIMIT)? {
        Loaded::Bytes(text) => {
            let reply = read_bytes(alloc, file, &text)?;
            Ok(reply)
        }
        Loaded::Stopped(answer) => Ok(Reply::Text(answer)),
    }
}
