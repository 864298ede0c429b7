//! One assignment, behind those of its layer.

ghost use Rattle.std.specs.Prelude.{◌≡◌, ◌++◌, [], ◌∷◌, List, None, Some, Ok, IfOk, IfSome, OnOk, is_some, ◌&&◌};
ghost use Rattle.rdl_values.specs.Bodies.{Scope, around};
ghost use Rattle.rdl_failures.specs.Noted.{IsNoted};
ghost use Rattle.rdl_failures.specs.Shown.{IsShown};
ghost use Rattle.rdl_layers.specs.Judged.{failures_of, props_of, unknown};
ghost use Rattle.rdl_layers.specs.Meanings.{Assignment, meaning, prop_of};
ghost use Rattle.rdl_assignments.specs.Meant.{StandsIn, meaning_in};
ghost use Rattle.rdl_assignments.specs.Allowed.{is_allowed};
ghost use Rattle.rdl_assignments.specs.Layers.{IsGiven};
ghost use Rattle.rdl_assignments.specs.Taken.{AreTaken};

use crate::allowed::Allowed;
use crate::meaning::meaning_of;
use crate::taken::AssignedProps;
use rb_base::NoMemory;
use rdl_base::Rule;
use rdl_failures::Failures;
use rdl_layers::Setting;
use rdl_props::{Prop, find, left_out};
use rdl_tree::Set;
use rdl_values::Chain;

/// An assignment that fails no rule: its property, and what it gives.
#[derive(Clone, Copy)]
pub struct ValidAssignment<'a> {
    pub prop: Prop,
    pub setting: Setting<'a>,
}

// Puts in P1, or P2 where the property is one that this project leaves out.
fn note_unknown(set: &Set, failures: &mut Failures) -> Result<bool, NoMemory>
    ensures { IfOk result (λ clean. (scope : Scope) → prop_of (record { set_ = set.now; scope = scope }) ≡ None → IsNoted (unknown (record { set_ = set.now; scope = scope })) clean failures.old failures.new) }
{
    if left_out(set.prop.text) {
        failures.note(true, Rule::P2, set.place)
    } else {
        failures.note(true, Rule::P1, set.place)
    }
}

// What is given where all is clean.
fn kept<'a>(clean: bool, setting: Option<Setting<'a>>) -> Option<Setting<'a>>
    ensures some { is_some result ≡ (clean && is_some setting.entry) }
    ensures same { IfSome result (λ s. setting.entry ≡ Some s) }
{
    if clean { setting } else { None }
}

// Puts in the failures of an assignment of this property, and answers what it gives where there are none.
fn judge_known<'a>(
    prop: Prop,
    set: &'a Set<'a>,
    allowed: Allowed,
    body: u32,
    visible: &Chain<'_, '_, '_, 'a>,
    taken: &AssignedProps,
    failures: &mut Failures,
) -> Result<Option<Setting<'a>>, NoMemory>
    ensures noted { IfOk result (λ r. (earlier : List Assignment) (scope : Scope) → prop_of (record { set_ = set.now; scope = scope }) ≡ Some prop → IsShown visible.now (around scope) → AreTaken taken.now (props_of earlier)
        → IsNoted (failures_of (is_allowed allowed) (earlier, record { set_ = set.now; scope = scope })) (is_some r) failures.old failures.new) }
    ensures value { IfOk result (λ r. IfSome r (λ s. (scope : Scope) → IsShown visible.now (around scope) → meaning prop (record { set_ = set.now; scope = scope }) ≡ Ok (meaning_in scope s))) }
    ensures stands { IfOk result (λ r. IfSome r (StandsIn body)) }
{
    let legal = failures.note(!allowed.allows(prop), Rule::P3, set.place)?;
    let setting = failures.value_of(meaning_of(prop, set, body, visible))?;
    let free = taken.judge(prop, set.place, failures)?;
    Ok(kept(legal & free, setting))
}

// What an assignment of the property gives.
fn given_by<'a>(prop: Prop, setting: Option<Setting<'a>>) -> Option<ValidAssignment<'a>>
    ensures some { is_some result ≡ is_some setting.entry }
    ensures same { IfSome result (λ g. (g.prop ≡ prop) × (setting.entry ≡ Some g.setting)) }
{
    match setting {
        Some(setting) => Some(ValidAssignment { prop, setting }),
        None => None,
    }
}

/// Puts in the failures of an assignment behind those of its layer, and answers what it gives where there are none: V rules in its
/// value, P1 to P6 and P8. Its property is taken from then on, whatever it fails.
pub(crate) fn judge_set<'a>(
    set: &'a Set<'a>,
    allowed: Allowed,
    body: u32,
    visible: &Chain<'_, '_, '_, 'a>,
    taken: &mut AssignedProps,
    failures: &mut Failures,
) -> Result<Option<ValidAssignment<'a>>, NoMemory>
    ensures noted { IfOk result (λ r. (earlier : List Assignment) (scope : Scope) → IsShown visible.now (around scope) → AreTaken taken.old (props_of earlier)
        → IsNoted (failures_of (is_allowed allowed) (earlier, record { set_ = set.now; scope = scope })) (is_some r) failures.old failures.new) }
    ensures taken { OnOk result ((earlier : List Assignment) (scope : Scope) → AreTaken taken.old (props_of earlier) → AreTaken taken.new (props_of (earlier ++ (record { set_ = set.now; scope = scope } ∷ [])))) }
    ensures given { IfOk result (λ r. IfSome r (λ g. (scope : Scope) → IsShown visible.now (around scope) → IsGiven body g (record { set_ = set.now; scope = scope }))) }
{
    let Some(prop) = find(set.prop.text) else {
        note_unknown(set, failures)?;
        return Ok(None);
    };
    let setting = judge_known(prop, set, allowed, body, visible, taken, failures)?;
    taken.add(prop)?;
    Ok(given_by(prop, setting))
}
