//! What an assignment gives, put into the entries of nodes.

ghost use Rattle.std.specs.Prelude.{OnOk};
ghost use Rattle.rdl_dynamic.specs.Pushed.{PushesAll, PushesAt};

use rb_base::NoMemory;
use rdl_assignments::ValidAssignment;
use rdl_layers::PropSetting;
use rdl_merge::add_given;

// Puts what an assignment gives behind the entries of a node.
fn push_at<'a>(
    entries: &mut Vec<Vec<PropSetting<'a>>>,
    node: u32,
    given: ValidAssignment<'a>,
    body: u32,
) -> Result<(), NoMemory>
    ensures { OnOk result (PushesAt node given.entry body entries.old.items entries.new.items) }
{
    let place = node as usize;
    if place >= entries.len() {
        return Ok(());
    }
    add_given(&mut entries[place], &[given], body)
}

/// Puts what an assignment gives behind the entries of nodes.
pub(crate) fn push_all<'a>(
    entries: &mut Vec<Vec<PropSetting<'a>>>,
    nodes: &[u32],
    given: ValidAssignment<'a>,
    body: u32,
) -> Result<(), NoMemory>
    ensures { OnOk result (PushesAll nodes.now given.entry body entries.old.items entries.new.items) }
{
    for node in nodes {
        push_at(entries, *node, given, body)?;
    }
    Ok(())
}
