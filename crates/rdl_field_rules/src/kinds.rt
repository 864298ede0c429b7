//! Who reads and writes a field, and which kinds of field it is of (F1, F5 to F7).

ghost use Rattle.std.specs.Prelude.{◌≡◌, ◌<◌, ◌&&◌, [], ◌∷◌, not, Some, slice_get};
ghost use Rattle.rdl_props.specs.declared.prop.Prop.TheVariants as props_;
ghost use Rattle.rdl_values.specs.Elaborated.{nodes_of};
ghost use Rattle.rdl_values.specs.Instances.{Instance};
ghost use Rattle.rdl_layers.specs.Fields as fields;
ghost use Rattle.rdl_layers.specs.Settings.{setting};
ghost use Rattle.rdl_rules.specs.FieldRules as rules;

use rdl_base::Keyword;
use rdl_fields::{hardware_writes, has, has_one_of};
use rdl_layers::{Props, Setting};
use rdl_props::Prop;

/// Whether nothing reads through an access property.
fn is_unread_by(props: &Props<'_>, node: u32, prop: Prop) -> bool
    requires { node < props.now.count }
    ensures { (n : Instance) → slice_get (nodes_of props.now) node ≡ Some n → result ≡ rules.is_unread (setting n prop) }
{
    matches!(
        props.value(node, prop),
        Setting::Word(Keyword::W | Keyword::Na)
    )
}

/// F1: neither software nor hardware reads a field.
pub(crate) fn is_unread(props: &Props<'_>, node: u32) -> bool
    requires { node < props.now.count }
    ensures { (n : Instance) → slice_get (nodes_of props.now) node ≡ Some n → result ≡ (rules.is_unread (setting n props_.Sw) && rules.is_unread (setting n props_.Hw)) }
{
    let software = is_unread_by(props, node, Prop::Sw);
    let hardware = is_unread_by(props, node, Prop::Hw);
    software & hardware
}

/// F5: a field has what is for one that hardware writes.
pub(crate) fn lacks_writer(props: &Props<'_>, node: u32) -> bool
    requires { node < props.now.count }
    ensures { (n : Instance) → slice_get (nodes_of props.now) node ≡ Some n → result ≡ (not (fields.hardware_writes n) && fields.has_one_of (props_.Next ∷ props_.We ∷ props_.Wel ∷ props_.Intr ∷ []) n) }
{
    let list = [Prop::Next, Prop::We, Prop::Wel, Prop::Intr];
    let is_written = hardware_writes(props, node);
    let has_any = has_one_of(props, node, &list);
    !is_written & has_any
}

/// F6: a field has what is for a counter.
pub(crate) fn is_no_counter(props: &Props<'_>, node: u32) -> bool
    requires { node < props.now.count }
    ensures { (n : Instance) → slice_get (nodes_of props.now) node ≡ Some n → result ≡ (not (fields.is_counter n) && fields.has_one_of rules.counter_parts n) }
{
    let list = [
        Prop::Overflow,
        Prop::Underflow,
        Prop::Incr,
        Prop::Decr,
        Prop::Incrvalue,
        Prop::Incrwidth,
        Prop::Decrvalue,
        Prop::Decrwidth,
        Prop::Incrsaturate,
        Prop::Decrsaturate,
        Prop::Incrthreshold,
        Prop::Decrthreshold,
    ];
    let counts = has(props, node, Prop::Counter);
    let has_any = has_one_of(props, node, &list);
    !counts & has_any
}

/// Whether two of three are so.
fn are_two(first: bool, second: bool, third: bool) -> bool
    ensures { result ≡ rules.two_of (first ∷ second ∷ third ∷ []) }
{
    if first {
        second | third
    } else {
        second & third
    }
}

/// F7: a field is of more than one kind.
pub(crate) fn is_mixed(props: &Props<'_>, node: u32) -> bool
    requires { node < props.now.count }
    ensures { (n : Instance) → slice_get (nodes_of props.now) node ≡ Some n → result ≡ rules.two_of (fields.is_counter n ∷ fields.is_interrupt n ∷ fields.has props_.Singlepulse n ∷ []) }
{
    let counts = has(props, node, Prop::Counter);
    let interrupts = has(props, node, Prop::Intr);
    let pulses = has(props, node, Prop::Singlepulse);
    are_two(counts, interrupts, pulses)
}
