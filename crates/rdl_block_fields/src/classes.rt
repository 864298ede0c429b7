//! Whether a field is a wire, keeps a value, or is constant (this project's rule).

ghost use Rattle.std.specs.Prelude.{◌≡◌, ◌<◌, List, Some, slice_get};
ghost use Rattle.rdl_values.specs.Elaborated.{nodes_of};
ghost use Rattle.rdl_values.specs.Instances.{Instance};
ghost use Rattle.rdl_layers.specs.Fields as settings;
ghost use Rattle.rdl_rules.specs.Fields as fields;

use rb_model::Class;
use rdl_fields::{hardware_writes, has_one_of, is_wire};
use rdl_layers::Props;
use rdl_props::Prop;

/// Whether a field keeps a value, where it is known whether software touches it through one of its views.
fn is_storage(props: &Props<'_>, node: u32, is_touched: bool) -> bool
    requires { node < props.now.count }
    ensures { (n : Instance) (views : List Instance) → slice_get (nodes_of props.now) node ≡ Some n → is_touched ≡ settings.is_touched views → result ≡ settings.is_storage views n }
{
    let list = [Prop::Counter, Prop::Hwset, Prop::Hwclr, Prop::Singlepulse];
    let keeps = has_one_of(props, node, &list);
    let is_written = hardware_writes(props, node);
    let is_wire = is_wire(props, node, is_touched);
    is_touched | (is_written & !is_wire) | keeps
}

/// The class of the field of this number, where it is known whether software touches it through one of its views.
pub fn class(props: &Props<'_>, node: u32, is_touched: bool) -> Class
    requires { node < props.now.count }
    ensures { (n : Instance) (views : List Instance) → slice_get (nodes_of props.now) node ≡ Some n → is_touched ≡ settings.is_touched views → result ≡ fields.class_of views n }
{
    if is_wire(props, node, is_touched) {
        return Class::Wire;
    }
    if is_storage(props, node, is_touched) {
        return Class::Storage;
    }
    Class::Constant
}
