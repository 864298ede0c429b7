//! The rules on views: fields, and the fields of aliases.

ghost use Rattle.std.specs.Prelude.{◌≡◌, ◌<◌, ◌/◌, ◌==◌, ◌&&◌, ◌||◌, not, OnOk, Some, slice_get};
ghost use Rattle.rdl_props.specs.declared.prop.Prop.TheVariants as props_;
ghost use Rattle.rdl_values.specs.Elaborated.{nodes_of};
ghost use Rattle.rdl_values.specs.Instances.{Instance};
ghost use Rattle.rdl_failures.specs.Noted.{with_all};
ghost use Rattle.rdl_layers.specs.Fields as fields;
ghost use Rattle.rdl_layers.specs.Phase4.{number_at};
ghost use Rattle.rdl_addr.specs.Bits.{Bits};
ghost use Rattle.rdl_rules.specs.FieldRules as rules;
ghost use Rattle.rdl_rules.specs.Facts.{IsFact};

use rb_base::{NoMemory, Place};
use rdl_addr::{changes, gives, takes};
use rdl_base::Rule;
use rdl_failures::Failures;
use rdl_fields::{has, has_on_write, is_once};
use rdl_layers::Props;
use rdl_props::Prop;
use rdl_rules::Fact;

/// Whether bits lie in more than one word.
fn are_split(bits: (u8, u8), access: u64) -> bool
    requires { 0 < access }
    ensures { result ≡ not (bits.0 / access == bits.1 / access) }
{
    let (high, low) = bits;
    u64::from(high) / access != u64::from(low) / access
}

/// F2: software changes a field through a view that lies in more than one word.
fn spans_words(props: &Props<'_>, node: u32, bits: (u8, u8), access: u64) -> bool
    requires number { node < props.now.count }
    requires access { 0 < access }
    ensures { (n : Instance) → slice_get (nodes_of props.now) node ≡ Some n → result ≡ ((fields.writes n || fields.has_on_read n) && not (bits.0 / access == bits.1 / access)) }
{
    let is_written = takes(props, node);
    let on_read = changes(props, node);
    let split = are_split(bits, access);
    (is_written | on_read) & split
}

/// F3: a write does something, but there is none.
fn is_never_written(props: &Props<'_>, node: u32) -> bool
    requires { node < props.now.count }
    ensures { (n : Instance) → slice_get (nodes_of props.now) node ≡ Some n → result ≡ (fields.has_on_write n && not (fields.writes n)) }
{
    let on_write = has_on_write(props, node);
    let is_written = takes(props, node);
    on_write & !is_written
}

/// F4: a read does something, but there is none.
fn is_never_read(props: &Props<'_>, node: u32) -> bool
    requires { node < props.now.count }
    ensures { (n : Instance) → slice_get (nodes_of props.now) node ≡ Some n → result ≡ (fields.has_on_read n && not (fields.reads n)) }
{
    let on_read = changes(props, node);
    let is_read = gives(props, node);
    on_read & !is_read
}

/// Puts in F2 to F4 and F13 of a view: the field of this number, of the high and the low bit, whose name stands at the place, in a
/// register of this access width in bits. The only error is want of memory.
pub fn judge_view(
    props: &Props<'_>,
    node: u32,
    place: Place,
    bits: (u8, u8),
    access: u64,
    fact: Fact,
    failures: &mut Failures,
) -> Result<(), NoMemory>
    requires number { node < props.now.count }
    requires access { 0 < access }
    ensures { OnOk result ((r : Instance) (b : Bits) → slice_get (nodes_of props.now) node ≡ Some b.node → b.node.use_.name.place ≡ place → bits ≡ (b.high, b.low) → access ≡ number_at r props_.Accesswidth → IsFact fact b.node
        → failures.new ≡ with_all (rules.of_view r b) failures.old) }
{
    failures.note(spans_words(props, node, bits, access), Rule::F2, place)?;
    failures.note(is_never_written(props, node), Rule::F3, place)?;
    failures.note(is_never_read(props, node), Rule::F4, place)?;
    failures.note(fact.has_wide_entry, Rule::F13, place)?;
    Ok(())
}

/// Whether a view is written once, of a field without a reset value.
fn lacks_reset(props: &Props<'_>, field: u32, view: u32) -> bool
    requires of_field { field < props.now.count }
    requires of_view { view < props.now.count }
    ensures { (f v : Instance) → slice_get (nodes_of props.now) field ≡ Some f → slice_get (nodes_of props.now) view ≡ Some v → result ≡ (fields.is_once v && not (fields.has props_.Reset f)) }
{
    let once = is_once(props, view);
    let resets = has(props, field, Prop::Reset);
    once & !resets
}

/// Puts in F11 of a view of a field, each of these numbers, whose name stands at the place. The only error is want of memory.
pub fn judge_once(
    props: &Props<'_>,
    field: u32,
    view: u32,
    place: Place,
    failures: &mut Failures,
) -> Result<(), NoMemory>
    requires of_field { field < props.now.count }
    requires of_view { view < props.now.count }
    ensures { OnOk result ((f v : Instance) → slice_get (nodes_of props.now) field ≡ Some f → slice_get (nodes_of props.now) view ≡ Some v → v.use_.name.place ≡ place → failures.new ≡ with_all (rules.without_reset f v) failures.old) }
{
    failures.note(lacks_reset(props, field, view), Rule::F11, place)?;
    Ok(())
}
