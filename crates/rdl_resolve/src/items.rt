//! The items that the word behind `->` names.

ghost use Rattle.std.specs.Prelude.{◌≡◌, flat_map, option_to_list};
ghost use Rattle.rdl_props.specs.Table.{find_prop};
ghost use Rattle.rdl_refs.specs.Items as items;
ghost use Rattle.rdl_refs.specs.Items.{field_what, reg_what};

use rdl_props::{Prop, find};
use rdl_refs::What;
use rdl_tree::{Kind, Name};

/// The item of a field that a property means.
fn field_item(prop: Prop) -> Option<What>
    ensures { option_to_list result ≡ field_what prop }
{
    match prop {
        Prop::Anded => Some(What::Anded),
        Prop::Ored => Some(What::Ored),
        Prop::Xored => Some(What::Xored),
        Prop::Incrthreshold => Some(What::IncrThreshold),
        Prop::Decrthreshold => Some(What::DecrThreshold),
        Prop::Overflow => Some(What::Overflow),
        Prop::Underflow => Some(What::Underflow),
        Prop::Swmod => Some(What::SwMod),
        Prop::Swacc => Some(What::SwAcc),
        _ => None,
    }
}

/// The item of a field of this name.
fn field_named(name: &[u8]) -> Option<What>
    ensures { option_to_list result ≡ flat_map field_what (option_to_list (find_prop name.now)) }
{
    match find(name) {
        Some(prop) => field_item(prop),
        None => None,
    }
}

/// The item of a register of this name.
fn reg_named(name: &[u8]) -> Option<What>
    ensures { option_to_list result ≡ reg_what name.now }
{
    if name == b"intr".as_slice() {
        return Some(What::Intr);
    }
    if name == b"halt".as_slice() {
        return Some(What::Halt);
    }
    None
}

/// What a reference to a node of this kind means, with the name behind `->`, if there is one.
pub fn what_named(kind: Kind, item: Option<Name<'_>>) -> Option<What>
    ensures { option_to_list result ≡ items.what_named kind item.entry }
{
    match (kind, item) {
        (Kind::Signal | Kind::Field, None) => Some(What::Value),
        (Kind::Field, Some(name)) => field_named(name.text),
        (Kind::Reg, Some(name)) => reg_named(name.text),
        _ => None,
    }
}
