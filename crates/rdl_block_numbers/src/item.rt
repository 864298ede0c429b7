//! The item of a block that a setting names.

ghost use Rattle.std.specs.Prelude.{◌≡◌, ◌<◌, ℕ, List, Some, slice_get};
ghost use Rattle.rdl_tree.specs.declared.item.Kind.TheVariants as kinds;
ghost use Rattle.rdl_values.specs.Elaborated.{nodes_of};
ghost use Rattle.rdl_values.specs.Elaboration.{IsClean};
ghost use Rattle.rdl_values.specs.Instances.{Instance, kind_of};
ghost use Rattle.rdl_values.specs.Lineages.{Lineage, lineages_of, nodes_in};
ghost use Rattle.rdl_nodes.specs.Rows.{AreRows};
ghost use Rattle.rdl_refs.specs.Items.{Item};
ghost use Rattle.rdl_rules.specs.Feeds as feeds;
ghost use Rattle.rdl_block_numbers.specs.Numbers.{AreOwn, own_number};

use rb_model::RefItem;
use rdl_nodes::Row;
use rdl_props::Prop;
use rdl_ref_items::named_item;
use rdl_refs::{Refs, What};
use rdl_tree::Kind;

/// An item of the field, or of the register, of a number.
fn ref_of(what: What, number: u32) -> RefItem
    ensures { result ≡ feeds.ref_of what number }
{
    match what {
        What::Value => RefItem::Field(number),
        What::Anded => RefItem::Anded(number),
        What::Ored => RefItem::Ored(number),
        What::Xored => RefItem::Xored(number),
        What::IncrThreshold => RefItem::IncrThreshold(number),
        What::DecrThreshold => RefItem::DecrThreshold(number),
        What::Overflow => RefItem::Overflow(number),
        What::Underflow => RefItem::Underflow(number),
        What::SwMod => RefItem::SwMod(number),
        What::SwAcc => RefItem::SwAcc(number),
        What::Intr => RefItem::Intr(number),
        What::Halt => RefItem::Halt(number),
    }
}

/// An item of a node of this kind and number.
fn ref_to(kind: Kind, what: What, number: u32) -> RefItem
    ensures { (all : List Lineage) (i : Item) → kind ≡ kind_of i.node → what ≡ i.what → number ≡ own_number (nodes_in all) i.node → result ≡ feeds.ref_to all i }
{
    if kind.is_signal() {
        return RefItem::Signal(number);
    }
    ref_of(what, number)
}

/// The item that the setting of a property names, on the node of this number, in a tree of which these are the rows and the numbers of
/// nodes in the lists of their kinds. None where the setting is no reference.
pub fn ref_item(
    refs: &Refs<'_>,
    rows: &[Row<'_>],
    own: &[u32],
    node: u32,
    prop: Prop,
) -> Option<RefItem>
    requires clean { IsClean refs.now }
    requires rows { AreRows refs.now rows.now }
    requires own { AreOwn refs.now own.now }
    requires node { node < refs.now.count }
    ensures { (n : Instance) → slice_get (nodes_of refs.now) node ≡ Some n → result ≡ feeds.item_at (lineages_of refs.now) n prop }
{
    let Some(item) = named_item(refs, node, prop) else {
        return None;
    };
    let row = &rows[item.node as usize];
    let number = own[item.node as usize];
    Some(ref_to(row.node.kind, item.what, number))
}
