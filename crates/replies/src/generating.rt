//! A source of a wanted size.

ghost use Rattle.std.specs.Prelude.{◌≡◌, ◌≤◌, ◌∷◌, [], length, IfOk};
ghost use Rattle.rb_edge.specs.Count.{raised};
ghost use Rattle.rb_model.specs.Sound.{IsSound};
ghost use Rattle.command_line.specs.Words.{gen_of};
ghost use Rattle.v_printer.specs.Layout.{text_of};
ghost use Rattle.command_line.specs.Source.{summary_of};
ghost use Rattle.replies.specs.Outcome.{IsModuleLength, Judges};
ghost use Rattle.replies.specs.Answer.{texts_of};

use crate::answer::Answer;
use crate::describing::{Described, describe_source};
use crate::modules::module_net;
use crate::status::Status;
use command_line::{source, summary};
use rb_base::NoMemory;
use rb_edge::{CountSink, Failed};
use rb_model::Block;
use std::alloc::Global;
use v_printer::print;

// How many bytes the module of a block has.
fn module_length(alloc: Global, block: &Block) -> Result<u64, NoMemory>
    requires { IsSound block.now }
    ensures { IfOk result (IsModuleLength block.now) }
{
    let net = module_net(alloc, block)?;
    let mut sink = CountSink::new();
    match print(&net, &mut sink) {
        Ok(()) => Ok(sink.total()),
        Err(Failed) => Err(NoMemory),
    }
}

/// What `gen` answers: a source of so many registers, with three fields each, and its summary.
pub(crate) fn generate(alloc: Global, count: u32) -> Result<Answer, NoMemory>
    requires { count ≤ 8192 }
    ensures { IfOk result (λ answer. Judges (gen_of count) [] answer.status (texts_of answer)) }
{
    let out = source(alloc, count)?;
    match describe_source(alloc, None, None, "gen", &out)? {
        Described::Clean(block) => {
            let bytes = module_length(alloc, &block)?;
            let err = summary(alloc, count, bytes)?;
            Ok(Answer {
                status: Status::Done,
                err,
                out,
            })
        }
        Described::Stopped(answer) => Ok(answer),
    }
}
