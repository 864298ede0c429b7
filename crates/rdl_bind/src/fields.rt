//! What the values of fields are made from.

ghost use Rattle.std.specs.Prelude.{◌≡◌, ◌++◌, cond, [], ◌∷◌, OnOk, false};
ghost use Rattle.rdl_props.specs.declared.prop.Prop.TheVariants as properties;
ghost use Rattle.rdl_values.specs.Lineages.{lineages_of};
ghost use Rattle.rdl_refs.specs.Follows.{given_items, is_in_alias};
ghost use Rattle.rdl_refs.specs.Items.{Item};
ghost use Rattle.rdl_bind.specs.Known.{IsItem, IsBoundTree, is_of_wire, numbers_of};

use crate::given_items::add_given;
use crate::known::{BoundTree, targets_of};
use rb_base::NoMemory;
use rdl_fields::is_wire;
use rdl_props::Prop;
use rdl_refs::ItemOf;

/// Whether an item's node is a field that is a wire.
fn is_wire_field(known: BoundTree<'_, '_>, item: ItemOf) -> bool
    requires known { IsBoundTree known }
    requires item { (i : Item) × IsItem known.props.now i item }
    ensures { (i : Item) → IsItem known.entry.props.now i item → is_in_alias i ≡ false → result ≡ is_of_wire (lineages_of known.entry.props.now) i }
{
    let row = &known.rows[item.node as usize];
    if !row.node.kind.is_field() {
        return false;
    }
    let is_touched = known.touched[item.node as usize];
    is_wire(known.props, item.node, is_touched)
}

/// Adds the number of the item that passes through a wire.
pub(crate) fn add_wire(
    known: BoundTree<'_, '_>,
    item: ItemOf,
    list: &mut Vec<usize>,
) -> Result<(), NoMemory>
    requires known { IsBoundTree known }
    requires item { (i : Item) × IsItem known.props.now i item }
    ensures { OnOk result ((i : Item) → IsItem known.entry.props.now i item → is_in_alias i ≡ false
        → list.new.items ≡ list.old.items ++ numbers_of known.entry.props.now (cond (is_of_wire (lineages_of known.entry.props.now) i) (given_items (lineages_of known.entry.props.now) i.node (properties.Next ∷ [])) [])) }
{
    if !is_wire_field(known, item) {
        return Ok(());
    }
    let next = [Prop::Next];
    add_given(targets_of(known.targets, item.node), &next, list)
}
