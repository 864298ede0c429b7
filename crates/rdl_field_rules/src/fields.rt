//! The rules on the fields of a register.

ghost use Rattle.std.specs.Prelude.{◌≡◌, ◌<◌, List, OnOk, flat_map};
ghost use Rattle.rdl_props.specs.declared.prop.Prop.TheVariants as props_;
ghost use Rattle.rdl_values.specs.Elaboration.{IsClean};
ghost use Rattle.rdl_values.specs.Instances.{Instance};
ghost use Rattle.rdl_failures.specs.Noted.{with_all};
ghost use Rattle.rdl_layers.specs.Phase4.{number_at};
ghost use Rattle.rdl_addr.specs.Bits.{Bits};
ghost use Rattle.rdl_rules.specs.FieldRules.{of_view};
ghost use Rattle.rdl_rules.specs.Facts.{AreFacts};
ghost use Rattle.rdl_fields.specs.Views.{AreViewsOf, IsViewOf};
ghost use Rattle.rdl_field_rules.specs.Judged.{of_field};

use crate::primary::judge_primary;
use crate::views::{judge_once, judge_view};
use rb_base::NoMemory;
use rdl_failures::Failures;
use rdl_fields::View;
use rdl_layers::Props;
use rdl_rules::Fact;

/// The rules on one view.
fn judge_one_view(
    props: &Props<'_>,
    facts: &[Fact],
    view: &View<'_>,
    access: u64,
    failures: &mut Failures,
) -> Result<(), NoMemory>
    requires clean { IsClean props.now }
    requires facts { AreFacts props.now facts.now }
    requires access { 0 < access }
    requires view { (b : Bits) × IsViewOf props.now view.now b }
    ensures { OnOk result ((r : Instance) (b : Bits) → access ≡ number_at r props_.Accesswidth → IsViewOf props.now view.now b → failures.new ≡ with_all (of_view r b) failures.old) }
{
    let node = view.node;
    let fact = facts[node.id as usize];
    judge_view(
        props,
        node.id,
        node.place,
        (view.high, view.low),
        access,
        fact,
        failures,
    )
}

/// Puts in F2 to F4 and F13 of the fields of a register, of this access width in bits.
pub(crate) fn judge_views(
    props: &Props<'_>,
    facts: &[Fact],
    views: &[View<'_>],
    access: u64,
    failures: &mut Failures,
) -> Result<(), NoMemory>
    requires clean { IsClean props.now }
    requires facts { AreFacts props.now facts.now }
    requires access { 0 < access }
    requires views { (bs : List Bits) × AreViewsOf props.now views.now bs }
    ensures { OnOk result ((r : Instance) (bs : List Bits) → access ≡ number_at r props_.Accesswidth → AreViewsOf props.now views.now bs → failures.new ≡ with_all (flat_map (of_view r) bs) failures.old) }
{
    for view in views {
        judge_one_view(props, facts, view, access, failures)?;
    }
    Ok(())
}

/// The rules on one field.
fn judge_one_field(
    props: &Props<'_>,
    facts: &[Fact],
    view: &View<'_>,
    failures: &mut Failures,
) -> Result<(), NoMemory>
    requires clean { IsClean props.now }
    requires facts { AreFacts props.now facts.now }
    requires view { (b : Bits) × IsViewOf props.now view.now b }
    ensures { OnOk result ((b : Bits) → IsViewOf props.now view.now b → failures.new ≡ with_all (of_field b) failures.old) }
{
    let node = view.node;
    let fact = facts[node.id as usize];
    judge_primary(props, node.id, node.place, fact, failures)?;
    judge_once(props, node.id, node.id, node.place, failures)?;
    Ok(())
}

/// Puts in F1 and F5 to F11 of the fields of a register that is no alias.
pub(crate) fn judge_fields(
    props: &Props<'_>,
    facts: &[Fact],
    views: &[View<'_>],
    failures: &mut Failures,
) -> Result<(), NoMemory>
    requires clean { IsClean props.now }
    requires facts { AreFacts props.now facts.now }
    requires views { (bs : List Bits) × AreViewsOf props.now views.now bs }
    ensures { OnOk result ((bs : List Bits) → AreViewsOf props.now views.now bs → failures.new ≡ with_all (flat_map of_field bs) failures.old) }
{
    for view in views {
        judge_one_field(props, facts, view, failures)?;
    }
    Ok(())
}
