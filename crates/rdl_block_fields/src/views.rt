//! A register's view of a field.

ghost use Rattle.std.specs.Prelude.{◌≡◌, ◌<◌, Some, slice_get};
ghost use Rattle.rdl_values.specs.Elaborated.{nodes_of};
ghost use Rattle.rdl_values.specs.Instances.{Instance};
ghost use Rattle.rdl_values.specs.Lineages.{lineages_of, nodes_in};
ghost use Rattle.rdl_values.specs.Uses.{path_text};
ghost use Rattle.rdl_layers.specs.Fields as settings;
ghost use Rattle.rdl_rules.specs.Fields as fields;
ghost use Rattle.rdl_rules.specs.Numbers.{all_fields};
ghost use Rattle.rdl_block_fields.specs.Known.{IsNumberedTree};

use crate::feeding::{NumberedTree, gate_of};
use rb_base::Text;
use rb_model::View;
use rdl_base::Keyword;
use rdl_field_kinds::{on_read, on_write};
use rdl_fields::is_once;
use rdl_layers::{Props, Setting};
use rdl_props::Prop;

/// Whether software reads through a view.
fn reads(props: &Props<'_>, node: u32) -> bool
    requires { node < props.now.count }
    ensures { (n : Instance) → slice_get (nodes_of props.now) node ≡ Some n → result ≡ settings.reads n }
{
    matches!(
        props.value(node, Prop::Sw),
        Setting::Word(Keyword::Rw | Keyword::R | Keyword::Rw1)
    )
}

/// Whether software writes through a view.
fn writes(props: &Props<'_>, node: u32) -> bool
    requires { node < props.now.count }
    ensures { (n : Instance) → slice_get (nodes_of props.now) node ≡ Some n → result ≡ settings.writes n }
{
    matches!(
        props.value(node, Prop::Sw),
        Setting::Word(Keyword::Rw | Keyword::W | Keyword::Rw1 | Keyword::W1)
    )
}

/// The view that the field of this number is, with its path's text, of the field of another number in the block: in an alias or not.
pub fn view(known: NumberedTree<'_, '_>, node: u32, path: Text, field: u32, is_alias: bool) -> View
    requires known { IsNumberedTree known }
    requires node { node < known.props.now.count }
    ensures { (r v : Instance) → slice_get (nodes_of known.entry.props.now) node ≡ Some v → path ≡ path_text v.path
        → field ≡ fields.first_number (fields.viewed (nodes_in (lineages_of known.entry.props.now)) r v) (all_fields (nodes_in (lineages_of known.entry.props.now))) → is_alias ≡ settings.is_alias r → result ≡ fields.view_of (lineages_of known.entry.props.now) r v }
{
    let props = known.props;
    let reads = reads(props, node);
    let writes = writes(props, node);
    let once = is_once(props, node);
    let on_write = on_write(props, node);
    let on_read = on_read(props, node);
    let gate = gate_of(known, node, Prop::Swwe, Prop::Swwel);
    View {
        path,
        field,
        alias: is_alias,
        reads,
        writes,
        once,
        on_write,
        on_read,
        gate,
    }
}
