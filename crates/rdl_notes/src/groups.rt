//! The notes of groups, in order.

ghost use Rattle.std.specs.Prelude.{◌≡◌, ◌<◌, ◌&&◌, ℕ, cond, not, IfOk, List, OnOk, Some, slice_get};
ghost use Rattle.rdl_tree.specs.declared.node.Node.{out-Node};
ghost use Rattle.rdl_values.specs.Elaborated.{nodes_of};
ghost use Rattle.rdl_values.specs.Elaboration.{IsClean};
ghost use Rattle.rdl_values.specs.Instances.{Instance, is_empty, kind_of};
ghost use Rattle.rdl_nodes.specs.Rows.{AreRows};
ghost use Rattle.rdl_block_numbers.specs.Texts.{AreTexts};
ghost use Rattle.rdl_notes.specs.Groups.{behind};
ghost use Rattle.rdl_notes.specs.Notes as spec;
ghost use Rattle.block_effects.specs.Notes.{is_said};
ghost use Rattle.rdl_notes.specs.Notes.{group_of, is_group, note_of};
ghost use Rattle.rdl_notes.specs.Seen.{IsSeenOf};

use crate::note::note_at;
use crate::seen::{Seen, add_group};
use block_effects::Group;
use rb_base::NoMemory;
use rdl_block_numbers::{PathTexts, path_texts};
use rdl_layers::Props;
use rdl_nodes::Row;
use rdl_tree::{Elab, Node};
use std::alloc::Global;

/// The path of the node of this number.
fn path_at(texts: &PathTexts, node: u32) -> &[u8]
    ensures { (path : List ℕ) → slice_get texts.now node ≡ Some path → result.now ≡ path }
{
    match texts.get(node as usize) {
        Some(text) => text,
        None => b"",
    }
}

/// Lists the node of this number and path, where it isn't the top and something is said of it. The only error is want of memory.
fn add_container<'a>(
    alloc: Global,
    props: &Props<'a>,
    node: u32,
    path: &[u8],
    seen: &mut Seen<'a>,
    list: &mut Vec<Group<'a>>,
) -> Result<(), NoMemory>
    requires low { node < props.now.count }
    requires seen { IsSeenOf list.old.items seen.old }
    ensures listed { OnOk result ((n : Instance) → slice_get (nodes_of props.now) node ≡ Some n → list.new.items ≡ cond (not (is_empty path.now) && is_said (note_of n)) (behind list.old.items (record { path = path.now; said = note_of n })) list.old.items) }
    ensures seen { OnOk result (IsSeenOf list.new.items seen.new) }
{
    let note = note_at(props, node);
    if path.is_empty() || !note.says() {
        return Ok(());
    }
    add_group(alloc, seen, list, path, note)?;
    Ok(())
}

/// Lists a node, where it is a group. The only error is want of memory.
fn add_node<'a>(
    alloc: Global,
    props: &Props<'a>,
    node: &Node<'a>,
    texts: &PathTexts,
    seen: &mut Seen<'a>,
    list: &mut Vec<Group<'a>>,
) -> Result<(), NoMemory>
    requires low { (out-Node node.now).id < props.now.count }
    requires texts { AreTexts props.now texts.now }
    requires seen { IsSeenOf list.old.items seen.old }
    ensures listed { OnOk result ((n : Instance) → slice_get (nodes_of props.now) (out-Node node.now).id ≡ Some n → (out-Node node.now).kind ≡ kind_of n
        → list.new.items ≡ cond (is_group n) (behind list.old.items (group_of n)) list.old.items) }
    ensures seen { OnOk result (IsSeenOf list.new.items seen.new) }
{
    if !node.kind.is_container() {
        return Ok(());
    }
    let path = path_at(texts, node.id);
    add_container(alloc, props, node.id, path, seen, list)?;
    Ok(())
}

/// The groups among nodes of these paths. The only error is want of memory.
fn groups_with<'a>(
    alloc: Global,
    props: &Props<'a>,
    rows: &[Row<'a>],
    texts: &PathTexts,
) -> Result<Vec<Group<'a>>, NoMemory>
    requires clean { IsClean props.now }
    requires rows { AreRows props.now rows.now }
    requires texts { AreTexts props.now texts.now }
    ensures { IfOk result (λ list. list.items ≡ spec.groups_of (nodes_of props.now)) }
{
    let mut seen = Seen::new(alloc);
    let mut list = Vec::new(alloc);
    for row in rows {
        add_node(alloc, props, row.node, texts, &mut seen, &mut list)?;
    }
    Ok(list)
}

/// The groups of which something is said, of elements of which the same is said the first. The only error is want of memory.
pub(crate) fn groups_of<'a>(
    alloc: Global,
    props: &Props<'a>,
    elab: &Elab<'a>,
    rows: &[Row<'a>],
) -> Result<Vec<Group<'a>>, NoMemory>
    requires clean { IsClean elab.now }
    requires props { props.now ≡ elab.now }
    requires rows { AreRows elab.now rows.now }
    ensures { IfOk result (λ list. list.items ≡ spec.groups_of (nodes_of props.now)) }
{
    let texts = path_texts(alloc, elab, rows)?;
    let groups = groups_with(alloc, props, rows, &texts)?;
    Ok(groups)
}
