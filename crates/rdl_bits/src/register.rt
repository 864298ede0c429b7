//! The fields of a register, by numbers.

ghost use Rattle.std.specs.Prelude.{◌≡◌, ◌<◌, ◌↔◌, IfOk, IsTrue, OnOk, ◌++◌, ◌∷◌, [], List, Some, cond, slice_get};
ghost use Rattle.std.specs.List.{All};
ghost use Rattle.rdl_tree.specs.declared.item.Kind.TheVariants as kinds;
ghost use Rattle.rdl_tree.specs.declared.node.Node.{Node as AnyNode, out-Node};
ghost use Rattle.rdl_values.specs.Elaborated.{Says, around_body, nodes_of};
ghost use Rattle.rdl_values.specs.Instances.{Instance};
ghost use Rattle.rdl_values.specs.Values.{Around};
ghost use Rattle.rdl_failures.specs.Shown.{IsShown};
ghost use Rattle.rdl_values.specs.Lineages.{Lineage};
ghost use Rattle.rdl_layers.specs.Fields.{fields_of, is_a};
ghost use Rattle.rdl_layout.specs.Fields as spec;
ghost use Rattle.rdl_layout.specs.Fields.{IsFit as is_fit};
ghost use Rattle.rdl_addr.specs.Fields.{AreFieldsOf};
ghost use Rattle.rdl_sizes.specs.Bodies.{HasText, IsBodyOf};

use crate::field::field_of;
use rb_base::NoMemory;
use rdl_base::Fault;
use rdl_layers::Props;
use rdl_layout::{Field, FieldBits};
use rdl_tree::Node;
use rdl_values::Chain;
use std::alloc::Global;

/// Adds a node, where it is a field. Its text sees what is visible here.
fn add_field<'a>(
    props: &Props<'_>,
    child: &Node<'a>,
    visible: &Chain<'_, '_, '_, 'a>,
    fields: &mut Vec<Field>,
) -> Result<(), NoMemory>
    requires { (out-Node child.now).id < props.now.count }
    ensures fit { OnOk result (All is_fit fields.old.items → All is_fit fields.new.items) }
    ensures field { OnOk result ((around : Around) (beside : List AnyNode) (c : Instance) (ns : List Instance) → IsShown visible.now around → slice_get (nodes_of props.now) (out-Node child.now).id ≡ Some c → Says beside child.now c → HasText around c
        → AreFieldsOf fields.old.items ns → AreFieldsOf fields.new.items (ns ++ cond (is_a kinds.Field c) (c ∷ []) [])) }
{
    if !child.kind.is_field() {
        return Ok(());
    }
    let Some(field) = field_of(props, child, visible) else {
        return Err(NoMemory);
    };
    fields.push(field)?;
    Ok(())
}

/// The fields in a register, in whose body this is visible. The only error is want of memory, or a field of no or more than 64 bits.
pub(crate) fn fields_in<'a>(
    alloc: Global,
    props: &Props<'_>,
    node: &Node<'a>,
    visible: &Chain<'_, '_, '_, 'a>,
) -> Result<Vec<Field>, NoMemory>
    requires { All (λ r. (out-Node r).id < props.now.count) (out-Node node.now).children.now }
    ensures fit { IfOk result (λ fs. All is_fit fs.items) }
    ensures fields { IfOk result (λ fs. (l : Lineage) → IsBodyOf props.now node.now l → IsShown visible.now (around_body l.node) → AreFieldsOf fs.items (fields_of l.node)) }
{
    let mut fields = Vec::new(alloc);
    for child in node.children {
        add_field(props, child, visible, &mut fields)?;
    }
    Ok(fields)
}

/// Whether it has 1 to 64 bits, below 2^128 - 1.
fn is_span(bits: &FieldBits) -> bool
    ensures { IsTrue result ↔ spec.IsSpan bits.now }
{
    bits.low <= bits.high && bits.high - bits.low < 64 && bits.high < u128::MAX
}

/// Whether each has 1 to 64 bits, below 2^128 - 1.
pub(crate) fn are_spans(bits: &[FieldBits]) -> bool
    ensures { IsTrue result ↔ All spec.IsSpan bits.now }
{
    for one in bits {
        if !is_span(one) {
            return false;
        }
    }
    true
}

/// Adds failures to others.
pub(crate) fn add_all(faults: &mut Vec<Fault>, more: &[Fault]) -> Result<(), NoMemory>
    ensures { OnOk result (faults.new.items ≡ faults.old.items ++ more.now) }
{
    for fault in more {
        faults.push(*fault)?;
    }
    Ok(())
}
