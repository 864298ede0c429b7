//! The instance's own value.

ghost use Rattle.std.specs.Prelude.{◌≡◌, ◌++◌, List, OnOk, map, option_copied};
ghost use Rattle.rdl_props.specs.declared.prop.Prop.TheVariants as props;
ghost use Rattle.rdl_values.specs.Bodies.{around};
ghost use Rattle.rdl_values.specs.Instances.{Instance};
ghost use Rattle.rdl_values.specs.Uses.{Use};
ghost use Rattle.rdl_values.specs.Values.{Around, number_of};
ghost use Rattle.rdl_failures.specs.Shown.{IsShown};
ghost use Rattle.rdl_layers.specs.Forms as forms;
ghost use Rattle.rdl_layers.specs.Settings.{Applied, applied, from_instance, given};
ghost use Rattle.rdl_layers.specs.declared.rank.Rank.TheVariants as rank;
ghost use Rattle.rdl_merge.specs.Merged.{AreEntries};

use crate::adding::add_entry;
use rb_base::NoMemory;
use rdl_failures::number_seen;
use rdl_layers::{PropSetting, Setting};
use rdl_props::Prop;
use rdl_tree::Expr;
use rdl_values::Chain;

// Puts a reset value behind the others, if it has a number.
fn add_value<'a>(
    entries: &mut Vec<PropSetting<'a>>,
    value: &Expr<'a>,
    visible: &Chain<'_, '_, '_, 'a>,
) -> Result<(), NoMemory>
    ensures { OnOk result ((all : List Instance) (xs : List Applied) (env : Around) → IsShown visible.now env
        → AreEntries all entries.old.items xs → AreEntries all entries.new.items (xs ++ map (λ k. applied rank.Instance props.Reset (forms.number k)) (given (number_of env value.now)))) }
{
    match number_seen(value, visible) {
        Ok(number) => add_entry(
            entries,
            PropSetting {
                prop: Prop::Reset,
                setting: Setting::Number(number),
            },
        ),
        Err(_) => Ok(()),
    }
}

/// Puts the value that an instance has of its own behind the others: a reset value, if there is one and it has a number (SystemRDL
/// 2.0, 9.5). It sees the names of the body that the instance stands in.
pub fn add_reset<'a>(
    entries: &mut Vec<PropSetting<'a>>,
    reset: Option<&Expr<'a>>,
    visible: &Chain<'_, '_, '_, 'a>,
) -> Result<(), NoMemory>
    ensures { OnOk result ((all : List Instance) (xs : List Applied) (u : Use) → u.form.reset ≡ option_copied reset.entry → IsShown visible.now (around u.scope)
        → AreEntries all entries.old.items xs → AreEntries all entries.new.items (xs ++ from_instance u)) }
{
    match reset {
        Some(value) => add_value(entries, value, visible),
        None => Ok(()),
    }
}
