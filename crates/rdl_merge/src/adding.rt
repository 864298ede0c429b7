//! One entry behind others.

ghost use Rattle.std.specs.Prelude.{◌≡◌, [], ◌∷◌, ◌++◌, List, OnOk};
ghost use Rattle.std.specs.List.{list_any};
ghost use Rattle.rdl_props.specs.Same.{same_prop};
ghost use Rattle.rdl_values.specs.Instances.{Instance};
ghost use Rattle.rdl_layers.specs.Settings.{Applied};
ghost use Rattle.rdl_merge.specs.Merged.{AreEntries, IsEntry};

use rb_base::NoMemory;
use rdl_layers::PropSetting;
use rdl_props::Prop;

/// Whether an entry is one of the property.
pub fn has_entry(entries: &[PropSetting], prop: Prop) -> bool
    ensures { result ≡ list_any (λ e. same_prop prop e.prop) entries.now }
{
    entries.iter().any(|entry| prop == entry.prop)
}

/// Puts an entry behind the others, where none of them is one of its property: so there are no more entries than properties.
pub fn add_entry<'a>(
    entries: &mut Vec<PropSetting<'a>>,
    entry: PropSetting<'a>,
) -> Result<(), NoMemory>
    ensures { OnOk result ((all : List Instance) (xs : List Applied) (a : Applied) → AreEntries all entries.old.items xs → IsEntry all entry.entry a → AreEntries all entries.new.items (xs ++ (a ∷ []))) }
{
    if has_entry(entries, entry.prop) {
        return Ok(());
    }
    entries.push(entry)?;
    Ok(())
}
