//! The rules on an alias against its primary (F11 and F12; SystemRDL 2.0, 10.5).

ghost use Rattle.std.specs.Prelude.{◌≡◌, ◌<◌, ◌||◌, OnOk, Some, slice_get};
ghost use Rattle.rdl_props.specs.declared.prop.Prop.TheVariants as props_;
ghost use Rattle.rdl_values.specs.Elaborated.{nodes_of};
ghost use Rattle.rdl_values.specs.Elaboration.{IsClean};
ghost use Rattle.rdl_values.specs.Instances.{Instance};
ghost use Rattle.rdl_failures.specs.Noted.{with_all};
ghost use Rattle.rdl_addr.specs.Bits.{bits_of};
ghost use Rattle.rdl_rules.specs.RegisterRules as rules;
ghost use Rattle.rdl_fields.specs.Views.{AreViewsOf};
ghost use Rattle.rdl_field_rules.specs.Judged.{of_alias_of};

use crate::likes::{judge_likes, judge_resets};
use rb_base::{NoMemory, Place};
use rdl_addr::number;
use rdl_base::Rule;
use rdl_failures::Failures;
use rdl_fields::View;
use rdl_layers::Props;
use rdl_props::Prop;

/// Whether two registers have other numbers of a property.
fn differ(props: &Props<'_>, primary: u32, alias: u32, prop: Prop) -> bool
    requires primary { primary < props.now.count }
    requires alias { alias < props.now.count }
    ensures { (r a : Instance) → slice_get (nodes_of props.now) primary ≡ Some r → slice_get (nodes_of props.now) alias ≡ Some a → result ≡ rules.differs r a prop }
{
    number(props, primary, prop) != number(props, alias, prop)
}

/// Whether two registers have other widths.
fn is_other_width(props: &Props<'_>, primary: u32, alias: u32) -> bool
    requires primary { primary < props.now.count }
    requires alias { alias < props.now.count }
    ensures { (r a : Instance) → slice_get (nodes_of props.now) primary ≡ Some r → slice_get (nodes_of props.now) alias ≡ Some a → result ≡ (rules.differs r a props_.Regwidth || rules.differs r a props_.Accesswidth) }
{
    let whole = differ(props, primary, alias, Prop::Regwidth);
    let access = differ(props, primary, alias, Prop::Accesswidth);
    whole | access
}

/// Puts in F12 of an alias, whose name stands at the place, and F11 of its fields, against its primary. Both are given by number and
/// fields.
pub(crate) fn judge_alias(
    props: &Props<'_>,
    alias: u32,
    place: Place,
    views: &[View<'_>],
    primary: u32,
    others: &[View<'_>],
    failures: &mut Failures,
) -> Result<(), NoMemory>
    requires clean { IsClean props.now }
    requires alias { (a : Instance) × (slice_get (nodes_of props.now) alias ≡ Some a) × AreViewsOf props.now views.now (bits_of a) }
    requires primary { (r : Instance) × (slice_get (nodes_of props.now) primary ≡ Some r) × AreViewsOf props.now others.now (bits_of r) }
    ensures { OnOk result ((a r : Instance) → slice_get (nodes_of props.now) alias ≡ Some a → slice_get (nodes_of props.now) primary ≡ Some r → a.use_.name.place ≡ place → failures.new ≡ with_all (of_alias_of a r) failures.old) }
{
    let other = is_other_width(props, primary, alias);
    failures.note(other, Rule::F12, place)?;
    judge_likes(views, others, failures)?;
    judge_resets(props, views, others, failures)?;
    Ok(())
}
