//! For each node the numbers of the items that its settings name.

ghost use Rattle.std.specs.Prelude.{IfOk, List};
ghost use Rattle.rdl_props.specs.declared.prop.Prop.{Prop as AnyProp};
ghost use Rattle.rdl_tree.specs.declared.node.Elab.{Elab as AnyElab};
ghost use Rattle.rdl_values.specs.Elaborated.{nodes_of};
ghost use Rattle.rdl_values.specs.Elaboration.{IsClean};
ghost use Rattle.rdl_refs.specs.Items.{Item};
ghost use Rattle.rdl_resolve.specs.Named.{AreItemsNamed};
ghost use Rattle.rdl_bind.specs.Numbered.{AreNumbers};
ghost use Rattle.rdl_bind.specs.Targeted.{AllHave, AreListed, AreNumbered, AreTargets};

use crate::numbering::Numbers;
use rb_base::NoMemory;
use rdl_refs::Target;
use rdl_resolve::NamedItem;
use rdl_tree::Elab;
use std::alloc::Global;

/// The numbers of the items that the settings of a node name.
fn node_targets(
    alloc: Global,
    numbers: &Numbers,
    named: &[NamedItem],
) -> Result<Vec<Target>, NoMemory>
    ensures { IfOk result (λ ts. (e : AnyElab) (ys : List (AnyProp × Item)) → IsClean e → AreNumbers e numbers.now → AreItemsNamed (nodes_of e) named.now ys → AllHave ys → AreNumbered e ts.items ys) }
{
    let mut targets = Vec::with_capacity(alloc, named.len())?;
    for each in named {
        let Some(item) = numbers.number(each.item) else {
            return Err(NoMemory);
        };
        targets.push(Target {
            prop: each.prop,
            item,
        })?;
    }
    Ok(targets)
}

/// For each node of a tree the numbers of the items that its settings name, where these are the items and their numbers. The only error
/// is want of memory.
pub fn ref_targets(
    alloc: Global,
    elab: &Elab<'_>,
    numbers: &Numbers,
    named: &[Vec<NamedItem>],
) -> Result<Vec<Vec<Target>>, NoMemory>
    requires clean { IsClean elab.now }
    requires numbers { AreNumbers elab.now numbers.now }
    requires named { AreListed elab.now named.now }
    ensures { IfOk result (λ ts. AreTargets elab.now ts.items) }
{
    let mut targets = Vec::with_capacity(alloc, named.len())?;
    for node in 0..named.len() {
        let numbered = node_targets(alloc, numbers, &named[node])?;
        targets.push(numbered)?;
    }
    Ok(targets)
}
