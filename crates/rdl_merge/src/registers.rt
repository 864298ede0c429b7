//! The widths of registers.

ghost use Rattle.std.specs.Prelude.{◌≡◌, [], ◌∷◌, not, ◌||◌, List, OnOk, nat_lt};
ghost use Rattle.rdl_tree.specs.declared.item.Kind.TheVariants as kind;
ghost use Rattle.rdl_values.specs.Instances.{Instance, kind_of};
ghost use Rattle.rdl_failures.specs.Noted.{with_all};
ghost use Rattle.rdl_layers.specs.Phase4.{is_one_of, of_node};
ghost use Rattle.rdl_layers.specs.Settings.{applied_to};
ghost use Rattle.rdl_merge.specs.Merged.{AreEntries};

use crate::settings::number_in;
use rb_base::{NoMemory, Place};
use rdl_base::Rule;
use rdl_failures::Failures;
use rdl_layers::PropSetting;
use rdl_props::Prop;

// P9: no register has this width.
fn is_bad_width(width: u64) -> bool
    ensures { result ≡ not (is_one_of (8 ∷ 16 ∷ 32 ∷ 64 ∷ []) width) }
{
    !matches!(width, 8 | 16 | 32 | 64)
}

// P10: no access of a register of this width has that one.
fn is_bad_access(width: u64, access: u64) -> bool
    ensures { result ≡ (not (is_one_of (8 ∷ 16 ∷ 32 ∷ []) access) || nat_lt width access) }
{
    !matches!(access, 8 | 16 | 32) | (width < access)
}

/// Puts in P9 and P10 of a register, whose name stands at the place, from what decides its properties.
pub fn judge_register(
    entries: &[PropSetting],
    place: Place,
    failures: &mut Failures,
) -> Result<(), NoMemory>
    ensures { OnOk result ((all : List Instance) (n : Instance) → AreEntries all entries.now (applied_to n) → kind_of n ≡ kind.Reg → n.use_.name.place ≡ place → failures.new ≡ with_all (of_node n) failures.old) }
{
    let width = number_in(entries, Prop::Regwidth);
    let access = number_in(entries, Prop::Accesswidth);
    failures.note(is_bad_width(width), Rule::P9, place)?;
    failures.note(is_bad_access(width, access), Rule::P10, place)?;
    Ok(())
}
