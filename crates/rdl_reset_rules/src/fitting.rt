//! Which widths fit.

ghost use Rattle.std.specs.Prelude.{◌≡◌, ◌<◌, length};
ghost use Rattle.rdl_tree.specs.declared.node.Elab.{Elab};
ghost use Rattle.rdl_refs.specs.Items.{Item};
ghost use Rattle.rdl_rules.specs.Facts.{AreFacts};
ghost use Rattle.rdl_ref_items.specs.Named.{IsItemAt};
ghost use Rattle.rdl_rules.specs.ReferenceRules as rules;

use rdl_props::Prop;
use rdl_refs::{ItemOf, What};
use rdl_rules::Fact;

/// Whether an item of so many bits may be named by a property of a field of this width.
pub(crate) fn fits(prop: Prop, width: u64, bits: u64) -> bool
    ensures { result ≡ rules.fits (rules.fit_of prop) width bits }
{
    use Prop::*;

    match prop {
        Next | Hwenable | Hwmask | Enable | Mask | Haltenable | Haltmask => bits == width,
        We | Wel | Swwe | Swwel | Hwset | Hwclr | Incr | Decr => bits == 1,
        _ => !(width < bits),
    }
}

/// The bits of an item: a value has as many as its node, and all others one.
pub(crate) fn item_width(facts: &[Fact], item: ItemOf) -> u64
    requires { item.node < length facts.now }
    ensures { (e : Elab) (i : Item) → AreFacts e facts.now → IsItemAt e i item → result ≡ rules.item_width i }
{
    match item.what {
        What::Value => facts[item.node as usize].width,
        _ => 1,
    }
}
