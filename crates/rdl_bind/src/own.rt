//! The items of a node.

ghost use Rattle.std.specs.Prelude.{◌≡◌, OnOk};
ghost use Rattle.rdl_refs.specs.Items as items_of;
ghost use Rattle.rdl_bind.specs.Places as places_of;
ghost use Rattle.rdl_bind.specs.Places.{Adds};

use rb_base::{NoMemory, Place};
use rdl_refs::{ItemOf, What};
use rdl_tree::Kind;

static OF_FIELD: [What; 10] = [
    What::Value,
    What::Anded,
    What::Ored,
    What::Xored,
    What::IncrThreshold,
    What::DecrThreshold,
    What::Overflow,
    What::Underflow,
    What::SwMod,
    What::SwAcc,
];

static OF_SIGNAL: [What; 1] = [What::Value];

static OF_REG: [What; 2] = [What::Intr, What::Halt];

static OF_OTHERS: [What; 0] = [];

/// The items of a node of this kind, in order.
pub(crate) fn whats(kind: Kind) -> &'static [What]
    ensures { result.now ≡ items_of.whats kind }
{
    match kind {
        Kind::Field => &OF_FIELD,
        Kind::Signal => &OF_SIGNAL,
        Kind::Reg => &OF_REG,
        Kind::Addrmap | Kind::Regfile => &OF_OTHERS,
    }
}

/// How many items of its node stand before an item.
pub(crate) fn before(what: What) -> u32
    ensures { result ≡ places_of.before what }
{
    match what {
        What::Value | What::Intr => 0,
        What::Anded | What::Halt => 1,
        What::Ored => 2,
        What::Xored => 3,
        What::IncrThreshold => 4,
        What::DecrThreshold => 5,
        What::Overflow => 6,
        What::Underflow => 7,
        What::SwMod => 8,
        What::SwAcc => 9,
    }
}

/// Adds the items of a node, and for each the node's place.
pub(crate) fn add_items(
    node: u32,
    kind: Kind,
    place: Place,
    items: &mut Vec<ItemOf>,
    places: &mut Vec<Place>,
) -> Result<(), NoMemory>
    ensures { OnOk result (Adds node (items_of.whats kind) place items.old.items items.new.items places.old.items places.new.items) }
{
    for what in whats(kind) {
        items.push(ItemOf { node, what: *what })?;
        places.push(place)?;
    }
    Ok(())
}
