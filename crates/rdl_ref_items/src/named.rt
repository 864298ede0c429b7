//! The item that a setting names.

ghost use Rattle.std.specs.Prelude.{◌≡◌, ◌<◌, Some, slice_get};
ghost use Rattle.rdl_values.specs.Elaborated.{nodes_of};
ghost use Rattle.rdl_values.specs.Instances.{Instance};
ghost use Rattle.rdl_values.specs.Lineages.{lineages_of};
ghost use Rattle.rdl_layers.specs.Settings.{setting};
ghost use Rattle.rdl_refs.specs.Items.{target};
ghost use Rattle.rdl_ref_items.specs.Named.{Names};

use rdl_props::Prop;
use rdl_refs::{ItemOf, Refs, one_target};

/// The item that the setting of a property names, on the node of this number, by its own node's number. None where the setting is
/// no reference.
pub fn named_item(refs: &Refs<'_>, node: u32, prop: Prop) -> Option<ItemOf>
    requires { node < refs.now.count }
    ensures { (n : Instance) → slice_get (nodes_of refs.now) node ≡ Some n → Names refs.now (target (lineages_of refs.now) (setting n prop)) result }
{
    one_target();
    let number = refs.target(node, prop)?;
    Some(refs.items()[number as usize])
}
