//! How many nodes a source has.

ghost use Rattle.std.specs.Prelude.{IfOk};
ghost use Rattle.std.specs.Option.{option_copied};
ghost use Rattle.rdl_tree.specs.InOrder.{IsInOrder};
ghost use Rattle.rdl_elab.specs.Answers.{Measures};

use crate::wanted::bytes_of;
use crate::whole_survey::survey;
use bumpalo::Bump;
use rb_base::NoMemory;
use rdl_tree::Source;
use rdl_values::over_the_count;
use std::alloc::Global;

/// How many nodes a source has, with the top of a name, or where none is wanted with the last address map that has one: array
/// elements one by one, and no more than the first that is one too many, 65,537, which is where rule E9 fails. No node is built. The
/// items of each body stand in order, as those of a parsed tree do. The only error is want of memory.
pub fn measure<'a>(
    alloc: Global,
    arena: &'a Bump,
    source: &'a Source<'a>,
    top: Option<&str>,
) -> Result<u32, NoMemory>
    requires { IsInOrder source.now.items.now }
    ensures { IfOk result (Measures (option_copied top.entry) source.now) }
{
    over_the_count();
    let scratch = Bump::new(alloc);
    let surveyed = survey(alloc, &scratch, arena, source, bytes_of(top))?;
    Ok(surveyed.walk.count)
}
