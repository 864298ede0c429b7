//! What a command line is answered: a status, a text for err, and a text, a netlist, a run or a table for out.

ghost use Rattle.std.specs.Prelude.{◌≡◌, ◌⊎◌, ℕ, List, [], IfOk};
ghost use Rattle.verdict_text.specs.Lines.{file_line};
ghost use Rattle.replies.specs.Text.{too_long, usage};
ghost use Rattle.replies.specs.Ends.{TookAll, IsCutShort, passage};

use crate::status::Status;
use html_manual::Manual;
use rb_base::NoMemory;
use rb_edge::{Failed, Sink, write_all};
use rtl_net::Netlist;
use std::alloc::Global;
use v_printer::print;
use vcd_reader::Waves;
use wave_text::{WaveRun, write_table};

/// What a run is to write, and how it is to end.
#[derive(Drop)]
pub struct Answer {
    pub(crate) status: Status,
    pub(crate) err: Vec<u8>,
    pub(crate) out: Vec<u8>,
}

/// An answer, or the netlist whose module, the run whose dump, the waves whose table or the manual whose page is to stand on out, written
/// as it is printed. A manual has texts of the source that it is of.
#[derive(Drop)]
pub enum Reply<'a> {
    Text(Answer),
    Module(Netlist),
    Dump(WaveRun),
    Table(Waves),
    Page(Manual<'a>),
}

ghost use Rattle.replies.specs.Answer.{texts_of};
ghost use Rattle.replies.specs.Reply.{HasText, IsPrintable, status_of, told_by};

// A text about a file, as a line on err.
pub(crate) fn notice(
    alloc: Global,
    status: Status,
    file: &str,
    text: &[u8],
) -> Result<Answer, NoMemory>
    ensures status { IfOk result (λ answer. answer.status ≡ status) }
    ensures err { IfOk result (λ answer. answer.err.items ≡ file_line file.now text.now) }
    ensures out { IfOk result (λ answer. answer.out.items ≡ []) }
{
    let mut err = Vec::new(alloc);
    err.extend_from_slice(file.as_bytes())?;
    err.extend_from_slice(text)?;
    err.push(b'\n')?;
    Ok(Answer {
        status,
        err,
        out: Vec::new(alloc),
    })
}

pub(crate) fn usage_answer(alloc: Global) -> Result<Answer, NoMemory>
    ensures { IfOk result (λ answer. (answer.status ≡ Status.Usage) × (answer.err.items ≡ usage) × (answer.out.items ≡ [])) }
{
    let text = b"usage: rdlregs compile|check|map|sim|run|gen WORDS";
    notice(alloc, Status::Usage, "", text)
}

pub(crate) fn too_long_answer(alloc: Global, file: &str, limit: u32) -> Result<Answer, NoMemory>
    ensures { IfOk result (λ answer. (answer.status ≡ Status.TooLong) × (answer.err.items ≡ too_long file.now limit) × (answer.out.items ≡ [])) }
{
    let text = format!(in alloc; ": longer than {limit} bytes")?;
    notice(alloc, Status::TooLong, file, text.as_bytes())
}

// A text on out alone.
pub(crate) fn done(alloc: Global, out: Vec<u8>) -> Answer
    ensures status { result.status ≡ Status.Done }
    ensures err { result.err.items ≡ [] }
    ensures out { result.out.items ≡ out.items }
{
    Answer {
        status: Status::Done,
        err: Vec::new(alloc),
        out,
    }
}

impl Answer {
    /// Writes the text for err and then that for out.
    pub fn write<O: Sink, E: Sink>(&self, out: &mut O, err: &mut E) -> Status
        ensures { ((result ≡ self.now.status) × TookAll (passage E.told E.faults err.old err.new) self.now.err.items × TookAll (passage O.told O.faults out.old out.new) self.now.out.items)
            ⊎ ((result ≡ Status.WriteFault) × IsCutShort (passage E.told E.faults err.old err.new) (passage O.told O.faults out.old out.new) (texts_of self.now)) }
    {
        if write_all(err, &self.err).is_err() || write_all(out, &self.out).is_err() {
            Status::WriteFault
        } else {
            self.status
        }
    }
}

impl<'a> Reply<'a> {
    /// Writes the text for err and then that for out. It takes no memory.
    pub fn write<O: Sink, E: Sink>(self, out: &mut O, err: &mut E) -> Status
        requires { IsPrintable self }
        ensures { (dump : List ℕ) × HasText self.entry dump
            × (((result ≡ status_of self.entry) × TookAll (passage E.told E.faults err.old err.new) (told_by self.entry dump).err × TookAll (passage O.told O.faults out.old out.new) (told_by self.entry dump).out)
            ⊎ ((result ≡ Status.WriteFault) × IsCutShort (passage E.told E.faults err.old err.new) (passage O.told O.faults out.old out.new) (told_by self.entry dump))) }
    {
        match self {
            Reply::Text(answer) => answer.write(out, err),
            Reply::Module(net) => match print(&net, out) {
                Ok(()) => Status::Done,
                Err(Failed) => Status::WriteFault,
            },
            Reply::Dump(mut run) => match run.write(out) {
                Ok(()) => Status::Done,
                Err(Failed) => Status::WriteFault,
            },
            Reply::Table(waves) => match write_table(out, &waves) {
                Ok(()) => Status::Done,
                Err(Failed) => Status::WriteFault,
            },
            Reply::Page(manual) => match manual.write(out) {
                Ok(()) => Status::Done,
                Err(Failed) => Status::WriteFault,
            },
        }
    }
}
