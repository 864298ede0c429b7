//! Numbers that entries set properties to.

ghost use Rattle.std.specs.Prelude.{◌≡◌, List, option_to_list};
ghost use Rattle.rdl_values.specs.Faults.{when};
ghost use Rattle.rdl_values.specs.Instances.{Instance};
ghost use Rattle.rdl_layers.specs.Phase4.{number_at};
ghost use Rattle.rdl_layers.specs.Settings.{applied_to, is_assigned};
ghost use Rattle.rdl_merge.specs.Merged.{AreEntries};

use crate::adding::has_entry;
use crate::laws::entries_say;
use rdl_layers::{PropSetting, Setting, setting_of};
use rdl_props::Prop;

/// The number that a property is set to, 0 where there is none.
pub(crate) fn number_in(entries: &[PropSetting], prop: Prop) -> u64
    ensures { (all : List Instance) (n : Instance) → AreEntries all entries.now (applied_to n) → result ≡ number_at n prop }
{
    entries_say();
    match setting_of(entries, prop) {
        Setting::Number(number) => number,
        _ => 0,
    }
}

/// The number that an assignment gives, whichever; the table's default is no assignment.
pub(crate) fn assigned_number(entries: &[PropSetting], prop: Prop) -> Option<u64>
    ensures { (all : List Instance) (n : Instance) → AreEntries all entries.now (applied_to n) → option_to_list result ≡ when (is_assigned n prop) (number_at n prop) }
{
    if has_entry(entries, prop) {
        Some(number_in(entries, prop))
    } else {
        None
    }
}
