//! The item of a block that a node's is, by its number.

ghost use Rattle.std.specs.Prelude.{◌≡◌, List};
ghost use Rattle.rdl_values.specs.Instances.{kind_of};
ghost use Rattle.rdl_values.specs.Lineages.{Lineage, nodes_in};
ghost use Rattle.rdl_refs.specs.Items.{Item};
ghost use Rattle.rdl_rules.specs.Feeds as feeds;
ghost use Rattle.rdl_block_numbers.specs.Numbers.{own_number};

use rb_model::RefItem;
use rdl_refs::What;
use rdl_tree::Kind;

/// An item of the field, or of the register, of a number.
fn ref_of(what: What, number: u32) -> RefItem
    ensures { result ≡ feeds.ref_of what number }
{
    match what {
        What::Value => RefItem::Field(number),
        What::Anded => RefItem::Anded(number),
        What::Ored => RefItem::Ored(number),
        What::Xored => RefItem::Xored(number),
        What::IncrThreshold => RefItem::IncrThreshold(number),
        What::DecrThreshold => RefItem::DecrThreshold(number),
        What::Overflow => RefItem::Overflow(number),
        What::Underflow => RefItem::Underflow(number),
        What::SwMod => RefItem::SwMod(number),
        What::SwAcc => RefItem::SwAcc(number),
        What::Intr => RefItem::Intr(number),
        What::Halt => RefItem::Halt(number),
    }
}

/// An item of a node of this kind and number.
pub(crate) fn ref_to(kind: Kind, what: What, number: u32) -> RefItem
    ensures { (all : List Lineage) (i : Item) → kind ≡ kind_of i.node → what ≡ i.what → number ≡ own_number (nodes_in all) i.node → result ≡ feeds.ref_to all i }
{
    if kind.is_signal() {
        return RefItem::Signal(number);
    }
    ref_of(what, number)
}
