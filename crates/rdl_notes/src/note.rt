//! The note of one node.

ghost use Rattle.std.specs.Prelude.{◌≡◌, ◌<◌, ◌∷◌, ◌++◌, [], cond, OnOk, Some, option_copied, slice_get};
ghost use Rattle.rdl_tree.specs.declared.node.Node.{out-Node};
ghost use Rattle.rdl_values.specs.Elaborated.{nodes_of};
ghost use Rattle.rdl_values.specs.Instances.{Instance, kind_of};
ghost use Rattle.rdl_layers.specs.Fields.{is_a};
ghost use Rattle.rdl_layers.specs.Settings.{setting};
ghost use Rattle.rdl_notes.specs.Notes.{note_of, text_of};

use block_effects::Note;
use rb_base::NoMemory;
use rdl_layers::{Props, Setting};
use rdl_props::Prop;
use rdl_tree::{Kind, Node};

/// The string that a property of the node of this number is set to, if it is set to one.
fn text_at<'a>(props: &Props<'a>, node: u32, prop: Prop) -> Option<&'a [u8]>
    requires { node < props.now.count }
    ensures { (n : Instance) → slice_get (nodes_of props.now) node ≡ Some n → option_copied result ≡ text_of (setting n prop) }
{
    match props.value(node, prop) {
        Setting::Str(text) => Some(text),
        _ => None,
    }
}

/// The note of the node of this number.
pub(crate) fn note_at<'a>(props: &Props<'a>, node: u32) -> Note<'a>
    requires { node < props.now.count }
    ensures { (n : Instance) → slice_get (nodes_of props.now) node ≡ Some n → result ≡ note_of n }
{
    let name = text_at(props, node, Prop::Name);
    let desc = text_at(props, node, Prop::Desc);
    Note { name, desc }
}

/// Adds the note of a node, where it is of this kind. The only error is want of memory.
pub(crate) fn add_note<'a>(
    props: &Props<'a>,
    node: &Node<'a>,
    kind: Kind,
    list: &mut Vec<Note<'a>>,
) -> Result<(), NoMemory>
    requires { (out-Node node.now).id < props.now.count }
    ensures { OnOk result ((n : Instance) → slice_get (nodes_of props.now) (out-Node node.now).id ≡ Some n → (out-Node node.now).kind ≡ kind_of n
        → list.new.items ≡ list.old.items ++ cond (is_a kind n) (note_of n ∷ []) []) }
{
    if node.kind == kind {
        list.push(note_at(props, node.id))?;
    }
    Ok(())
}
