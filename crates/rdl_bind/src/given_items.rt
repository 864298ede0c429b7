//! The numbers of the items that some settings name, in a list.

ghost use Rattle.std.specs.Prelude.{◌≡◌, ◌++◌, ℕ, OnOk, Some, map, option_to_list, slice_get};
ghost use Rattle.rdl_tree.specs.declared.node.Elab.{Elab as AnyElab};
ghost use Rattle.rdl_values.specs.Elaborated.{nodes_of};
ghost use Rattle.rdl_values.specs.Instances.{Instance};
ghost use Rattle.rdl_values.specs.Lineages.{lineages_of};
ghost use Rattle.rdl_refs.specs.Follows.{given_items, item_number};
ghost use Rattle.rdl_refs.specs.Tables.{item_at};
ghost use Rattle.rdl_bind.specs.Given.{NameItems};

use rb_base::NoMemory;
use rdl_props::Prop;
use rdl_refs::Target;

/// The item of the first target of a property.
fn item_of(targets: &[Target], prop: Prop) -> Option<u32>
    ensures { result ≡ item_at prop targets.now }
{
    for target in targets {
        if target.prop == prop {
            return Some(target.item);
        }
    }
    None
}

/// Adds a number, if there is one.
fn add_number(number: Option<u32>, list: &mut Vec<usize>) -> Result<(), NoMemory>
    ensures { OnOk result (list.new.items ≡ list.old.items ++ option_to_list number) }
{
    let Some(number) = number else {
        return Ok(());
    };
    list.push(number as usize)?;
    Ok(())
}

/// Adds the numbers of the items that the settings of these properties name on a node, whose targets these are. The only error is want
/// of memory.
pub fn add_given(targets: &[Target], props: &[Prop], list: &mut Vec<usize>) -> Result<(), NoMemory>
    ensures { OnOk result ((e : AnyElab) (k : ℕ) (n : Instance) → slice_get (nodes_of e) k ≡ Some n → NameItems e k targets.now → list.new.items ≡ list.old.items ++ map (item_number (lineages_of e)) (given_items (lineages_of e) n props.now)) }
{
    for prop in props {
        let number = item_of(targets, *prop);
        add_number(number, list)?;
    }
    Ok(())
}
