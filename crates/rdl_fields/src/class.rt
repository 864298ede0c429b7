//! Whether a field is a wire.

ghost use Rattle.std.specs.Prelude.{◌≡◌, ◌<◌, List, Some, slice_get};
ghost use Rattle.rdl_values.specs.Elaborated.{nodes_of};
ghost use Rattle.rdl_values.specs.Instances.{Instance};
ghost use Rattle.rdl_layers.specs.Fields as fields;
ghost use Rattle.rdl_layers.specs.Settings.{setting};
ghost use Rattle.rdl_props.specs.declared.prop.Prop.TheVariants as properties;
ghost use Rattle.rdl_fields.specs.Touched as touched_by;

use crate::access::{hardware_reads, hardware_writes};
use crate::given::has_one_of;
use rb_base::Trigger;
use rdl_base::Keyword;
use rdl_layers::{Props, Setting};
use rdl_props::Prop;

/// Whether software writes through a view.
fn writes(props: &Props<'_>, node: u32) -> bool
    requires { node < props.now.count }
    ensures { (n : Instance) → slice_get (nodes_of props.now) node ≡ Some n → result ≡ fields.writes n }
{
    matches!(
        props.value(node, Prop::Sw),
        Setting::Word(Keyword::Rw | Keyword::W | Keyword::Rw1 | Keyword::W1)
    )
}

/// Whether a read through a view changes the field.
fn has_on_read(props: &Props<'_>, node: u32) -> bool
    requires { node < props.now.count }
    ensures { (n : Instance) → slice_get (nodes_of props.now) node ≡ Some n → result ≡ fields.has_on_read n }
{
    let list = [Prop::Onread, Prop::Rclr, Prop::Rset];
    has_one_of(props, node, &list)
}

/// Whether software changes a field through a view.
pub fn touches(props: &Props<'_>, node: u32) -> bool
    requires { node < props.now.count }
    ensures { (n : Instance) → slice_get (nodes_of props.now) node ≡ Some n → result ≡ touched_by.touches n }
{
    writes(props, node) || has_on_read(props, node)
}

/// Whether a field is an interrupt that latches.
fn latches(props: &Props<'_>, node: u32) -> bool
    requires { node < props.now.count }
    ensures { (n : Instance) → slice_get (nodes_of props.now) node ≡ Some n → result ≡ fields.latches (setting n properties.Intr) }
{
    match props.value(node, Prop::Intr) {
        Setting::Intr(Trigger::Nonsticky) => false,
        Setting::Intr(_) => true,
        _ => false,
    }
}

/// Whether a field has a setting by which it keeps a value.
fn keeps(props: &Props<'_>, node: u32) -> bool
    requires { node < props.now.count }
    ensures { (n : Instance) → slice_get (nodes_of props.now) node ≡ Some n → result ≡ touched_by.keeps n }
{
    let list = [
        Prop::We,
        Prop::Wel,
        Prop::Counter,
        Prop::Hwset,
        Prop::Hwclr,
        Prop::Hwenable,
        Prop::Hwmask,
    ];
    has_one_of(props, node, &list)
}

/// Whether a field is a wire, where it is known whether software touches it through one of its views.
pub fn is_wire(props: &Props<'_>, node: u32, is_touched: bool) -> bool
    requires { node < props.now.count }
    ensures { (n : Instance) (views : List Instance) → slice_get (nodes_of props.now) node ≡ Some n → is_touched ≡ fields.is_touched views → result ≡ fields.is_wire views n }
{
    let is_written = hardware_writes(props, node);
    let is_read = hardware_reads(props, node);
    let keeps = keeps(props, node);
    let latches = latches(props, node);
    !is_touched & (is_written & !is_read) & !keeps & !latches
}
