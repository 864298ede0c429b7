//! The outputs that a field has beside its value (SystemRDL 2.0, 9.4 and 9.8).

ghost use Rattle.std.specs.Prelude.{◌≡◌, ◌<◌, ◌++◌, ◌∷◌, [], cond, Some, IfOk, OnOk, slice_get};
ghost use Rattle.rdl_values.specs.Elaborated.{nodes_of};
ghost use Rattle.rdl_values.specs.Instances.{Instance};
ghost use Rattle.rdl_layers.specs.Fields as settings;
ghost use Rattle.rdl_rules.specs.Fields as fields;

use rb_base::NoMemory;
use rb_model::Shown;
use rdl_fields::has;
use rdl_layers::Props;
use rdl_props::Prop;
use std::alloc::Global;

// Puts an output behind the others, where its property is set.
fn add(
    list: &mut Vec<Shown>,
    props: &Props<'_>,
    node: u32,
    prop: Prop,
    shown: Shown,
) -> Result<(), NoMemory>
    requires { node < props.now.count }
    ensures { OnOk result ((n : Instance) → slice_get (nodes_of props.now) node ≡ Some n → list.new.items ≡ list.old.items ++ cond (settings.has prop n) (shown ∷ []) []) }
{
    if has(props, node, prop) {
        list.push(shown)?;
    }
    Ok(())
}

/// The outputs of one bit that the settings of the node of this number show, in the order of ports. The only error is want of memory.
pub fn shown(alloc: Global, props: &Props<'_>, node: u32) -> Result<Vec<Shown>, NoMemory>
    requires { node < props.now.count }
    ensures { IfOk result (λ r. (n : Instance) → slice_get (nodes_of props.now) node ≡ Some n → r.items ≡ fields.shown_of n) }
{
    let mut list = Vec::new(alloc);
    add(&mut list, props, node, Prop::Anded, Shown::Anded)?;
    add(&mut list, props, node, Prop::Ored, Shown::Ored)?;
    add(&mut list, props, node, Prop::Xored, Shown::Xored)?;
    add(
        &mut list,
        props,
        node,
        Prop::Incrthreshold,
        Shown::IncrThreshold,
    )?;
    add(
        &mut list,
        props,
        node,
        Prop::Decrthreshold,
        Shown::DecrThreshold,
    )?;
    add(&mut list, props, node, Prop::Overflow, Shown::Overflow)?;
    add(&mut list, props, node, Prop::Underflow, Shown::Underflow)?;
    add(&mut list, props, node, Prop::Swmod, Shown::SwMod)?;
    add(&mut list, props, node, Prop::Swacc, Shown::SwAcc)?;
    Ok(list)
}
