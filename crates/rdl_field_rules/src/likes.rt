//! Fields of an alias and those of their names in its primary.

ghost use Rattle.std.specs.Prelude.{◌≡◌, List, OnOk, flat_map};
ghost use Rattle.std.specs.List.{list_any};
ghost use Rattle.rdl_tree.specs.declared.node.Elab.{Elab};
ghost use Rattle.rdl_values.specs.Elaboration.{IsClean};
ghost use Rattle.rdl_values.specs.Uses.{same_name};
ghost use Rattle.rdl_failures.specs.Noted.{with_all};
ghost use Rattle.rdl_addr.specs.Bits.{Bits};
ghost use Rattle.rdl_rules.specs.RegisterRules.{is_same_bits};
ghost use Rattle.rdl_fields.specs.Views.{AreViewsOf, IsViewOf};
ghost use Rattle.rdl_field_rules.specs.Judged as judged;

use crate::views::judge_once;
use rb_base::NoMemory;
use rdl_base::Rule;
use rdl_failures::Failures;
use rdl_fields::View;
use rdl_layers::Props;

/// Whether two fields have one name.
fn are_named_alike(view: &View<'_>, other: &View<'_>) -> bool
    ensures { (e : Elab) (b c : Bits) → IsViewOf e view.now b → IsViewOf e other.now c → result ≡ same_name b.node.use_.name c.node.use_.name }
{
    view.node.name == other.node.name
}

/// Whether two fields have one name and the same bits.
fn are_alike(view: &View<'_>, other: &View<'_>) -> bool
    ensures { (e : Elab) (b c : Bits) → IsViewOf e view.now b → IsViewOf e other.now c → result ≡ is_same_bits b c }
{
    let named = are_named_alike(view, other);
    named & (view.high == other.high) & (view.low == other.low)
}

/// Whether one of the others has a field's name and its bits.
fn has_like(view: &View<'_>, others: &[View<'_>]) -> bool
    ensures { (e : Elab) (b : Bits) (cs : List Bits) → IsViewOf e view.now b → AreViewsOf e others.now cs → result ≡ list_any (is_same_bits b) cs }
{
    for other in others {
        if are_alike(view, other) {
            return true;
        }
    }
    false
}

/// F12, of one field in an alias.
fn judge_one(view: &View<'_>, others: &[View<'_>], failures: &mut Failures) -> Result<(), NoMemory>
    ensures { OnOk result ((e : Elab) (b : Bits) (cs : List Bits) → IsViewOf e view.now b → AreViewsOf e others.now cs → failures.new ≡ with_all (judged.unlike cs b) failures.old) }
{
    failures.note(!has_like(view, others), Rule::F12, view.node.place)?;
    Ok(())
}

/// Puts in F12 of the fields of an alias, against those of its primary.
pub(crate) fn judge_likes(
    views: &[View<'_>],
    others: &[View<'_>],
    failures: &mut Failures,
) -> Result<(), NoMemory>
    ensures { OnOk result ((e : Elab) (bs cs : List Bits) → AreViewsOf e views.now bs → AreViewsOf e others.now cs → failures.new ≡ with_all (flat_map (judged.unlike cs) bs) failures.old) }
{
    for view in views {
        judge_one(view, others, failures)?;
    }
    Ok(())
}

/// F11, of a field in an alias that has another's name.
fn judge_named(
    props: &Props<'_>,
    view: &View<'_>,
    other: &View<'_>,
    failures: &mut Failures,
) -> Result<(), NoMemory>
    requires clean { IsClean props.now }
    requires view { (b : Bits) × IsViewOf props.now view.now b }
    requires other { (c : Bits) × IsViewOf props.now other.now c }
    ensures { OnOk result ((b c : Bits) → IsViewOf props.now view.now b → IsViewOf props.now other.now c → failures.new ≡ with_all (judged.named_reset b c) failures.old) }
{
    if !are_named_alike(view, other) {
        return Ok(());
    }
    let place = view.node.place;
    judge_once(props, other.node.id, view.node.id, place, failures)?;
    Ok(())
}

/// F11, of one field in an alias.
fn judge_reset(
    props: &Props<'_>,
    view: &View<'_>,
    others: &[View<'_>],
    failures: &mut Failures,
) -> Result<(), NoMemory>
    requires clean { IsClean props.now }
    requires view { (b : Bits) × IsViewOf props.now view.now b }
    requires others { (cs : List Bits) × AreViewsOf props.now others.now cs }
    ensures { OnOk result ((b : Bits) (cs : List Bits) → IsViewOf props.now view.now b → AreViewsOf props.now others.now cs → failures.new ≡ with_all (judged.resets cs b) failures.old) }
{
    for other in others {
        judge_named(props, view, other, failures)?;
    }
    Ok(())
}

/// Puts in F11 of the fields of an alias, by those of its primary.
pub(crate) fn judge_resets(
    props: &Props<'_>,
    views: &[View<'_>],
    others: &[View<'_>],
    failures: &mut Failures,
) -> Result<(), NoMemory>
    requires clean { IsClean props.now }
    requires views { (bs : List Bits) × AreViewsOf props.now views.now bs }
    requires others { (cs : List Bits) × AreViewsOf props.now others.now cs }
    ensures { OnOk result ((bs cs : List Bits) → AreViewsOf props.now views.now bs → AreViewsOf props.now others.now cs → failures.new ≡ with_all (flat_map (judged.resets cs) bs) failures.old) }
{
    for view in views {
        judge_reset(props, view, others, failures)?;
    }
    Ok(())
}
