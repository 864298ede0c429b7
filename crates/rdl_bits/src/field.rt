//! A field of a register, by numbers.

ghost use Rattle.std.specs.Prelude.{◌≡◌, ◌<◌, IfNone, IfSome, List, Some, option_to_list, slice_get, true};
ghost use Rattle.rdl_tree.specs.declared.item.Kind.TheVariants as kinds;
ghost use Rattle.rdl_tree.specs.declared.node.Node.{Node as AnyNode, out-Node};
ghost use Rattle.rdl_values.specs.Elaborated.{Says, nodes_of};
ghost use Rattle.rdl_values.specs.Instances.{Instance, kind_of};
ghost use Rattle.rdl_values.specs.Values.{Around};
ghost use Rattle.rdl_failures.specs.Shown.{IsShown};
ghost use Rattle.rdl_layers.specs.Phase4.{range_of};
ghost use Rattle.rdl_layout.specs.Fields as fields;
ghost use Rattle.rdl_layout.specs.declared.bits.Field.{Field as AnyField};
ghost use Rattle.rdl_addr.specs.Fields.{IsFieldOf};
ghost use Rattle.rdl_sizes.specs.Bodies.{HasText};

use crate::settings::{first_number, is_fit, side_of, width_by};
use rdl_addr::{number, range_given};
use rdl_layers::{Props, first_related_decides};
use rdl_layout::Field;
use rdl_props::Prop;
use rdl_tree::{Inst, Node};
use rdl_values::Chain;

/// The field whose text this is, where this is visible.
fn of_text<'a>(
    props: &Props<'_>,
    child: &Node<'a>,
    inst: &Inst<'a>,
    visible: &Chain<'_, '_, '_, 'a>,
) -> Field
    requires { (out-Node child.now).id < props.now.count }
    ensures range { (around : Around) (c : Instance) → IsShown visible.now around → HasText around c → c.use_.inst ≡ Some inst.now → option_to_list result.range ≡ range_of c }
    ensures field { (around : Around) (beside : List AnyNode) (c : Instance) → IsShown visible.now around → slice_get (nodes_of props.now) (out-Node child.now).id ≡ Some c → Says beside child.now c → HasText around c → c.use_.inst ≡ Some inst.now
        → kind_of c ≡ kinds.Field → fields.IsRange result.range → IsFieldOf result c }
{
    first_related_decides();
    let range = range_given(inst.range, visible);
    let set = number(props, child.id, Prop::Fieldwidth);
    Field {
        place: child.place,
        range,
        width: width_by(first_number(inst.dims, visible), range, set),
        side: side_of(props, child.id),
    }
}

/// A field in a register, in whose body this is visible. None where it has more than 64 bits or none.
pub(crate) fn field_of<'a>(
    props: &Props<'_>,
    child: &Node<'a>,
    visible: &Chain<'_, '_, '_, 'a>,
) -> Option<Field>
    requires { (out-Node child.now).id < props.now.count }
    ensures fit { IfSome result fields.IsFit }
    ensures field { IfSome result (λ f. (around : Around) (beside : List AnyNode) (c : Instance) → IsShown visible.now around → slice_get (nodes_of props.now) (out-Node child.now).id ≡ Some c → Says beside child.now c → HasText around c
        → kind_of c ≡ kinds.Field → IsFieldOf f c) }
    ensures none { IfNone result ((around : Around) (beside : List AnyNode) (c : Instance) → IsShown visible.now around → slice_get (nodes_of props.now) (out-Node child.now).id ≡ Some c → Says beside child.now c → HasText around c
        → kind_of c ≡ kinds.Field → (f : AnyField) → IsFieldOf f c → ¬ (fields.IsFit f)) }
{
    let field = of_text(props, child, child.inst?, visible);
    if is_fit(&field) { Some(field) } else { None }
}
