//! What is known of a tree, and the numbers of values and of what settings name.

ghost use Rattle.std.specs.Prelude.{◌≡◌, ◌<◌, ◌++◌, ◌∷◌, [], OnOk, Some, length, slice_get, true};
ghost use Rattle.rdl_refs.specs.Tables.{list_at};
ghost use Rattle.rdl_refs.specs.declared.item.What.TheVariants as whats;
ghost use Rattle.rdl_refs.specs.Follows.{given_items};
ghost use Rattle.rdl_refs.specs.Items.{Item};
ghost use Rattle.rdl_values.specs.Elaborated.{nodes_of};
ghost use Rattle.rdl_values.specs.Instances.{Instance, kind_of};
ghost use Rattle.rdl_values.specs.Lineages.{lineages_of};
ghost use Rattle.rdl_values.specs.Parts.{is_unit};
ghost use Rattle.rdl_bind.specs.Known.{IsBoundTree, numbers_of};

use crate::given_items::add_given;
use crate::numbering::Numbers;
use rb_base::NoMemory;
use rdl_layers::Props;
use rdl_nodes::Row;
use rdl_props::Prop;
use rdl_ref_items::InterruptOutputs;
use rdl_refs::{ItemOf, Target, What};

/// What is known of a tree: its settings, its nodes, the marks of its registers, for each field whether software touches it through one
/// of its views, the numbers of its items, and for each node the items that its settings name.
#[derive(Clone, Copy)]
pub struct BoundTree<'t, 'a> {
    pub props: &'t Props<'a>,
    pub rows: &'t [Row<'a>],
    pub marks: &'t [InterruptOutputs],
    pub touched: &'t [bool],
    pub numbers: &'t Numbers,
    pub targets: &'t [Vec<Target>],
}

/// The items that the settings of a node name.
pub(crate) fn targets_of(targets: &[Vec<Target>], node: u32) -> &[Target]
    requires { node < length targets.now }
    ensures { result.now ≡ list_at targets.now node }
{
    targets[node as usize].as_slice()
}

/// Adds the number of the value of a field or signal.
pub(crate) fn add_value(
    known: BoundTree<'_, '_>,
    node: u32,
    list: &mut Vec<usize>,
) -> Result<(), NoMemory>
    requires known { IsBoundTree known }
    requires node { (n : Instance) × (slice_get (nodes_of known.props.now) node ≡ Some n) × (is_unit (kind_of n) ≡ true) }
    ensures { OnOk result ((i : Item) → slice_get (nodes_of known.entry.props.now) node ≡ Some i.node → i.what ≡ whats.Value → list.new.items ≡ list.old.items ++ numbers_of known.entry.props.now (i ∷ [])) }
{
    let item = ItemOf {
        node,
        what: What::Value,
    };
    let number = known.numbers.number(item).unwrap();
    list.push(number as usize)?;
    Ok(())
}

/// Adds the number of the value of a field, and those of the items that some of its settings name.
pub(crate) fn add_with(
    known: BoundTree<'_, '_>,
    node: u32,
    props: &[Prop],
    list: &mut Vec<usize>,
) -> Result<(), NoMemory>
    requires known { IsBoundTree known }
    requires node { (f : Instance) × (slice_get (nodes_of known.props.now) node ≡ Some f) × (is_unit (kind_of f) ≡ true) }
    ensures { OnOk result ((i : Item) → slice_get (nodes_of known.entry.props.now) node ≡ Some i.node → i.what ≡ whats.Value
        → list.new.items ≡ list.old.items ++ numbers_of known.entry.props.now (i ∷ given_items (lineages_of known.entry.props.now) i.node props.now)) }
{
    add_value(known, node, list)?;
    add_given(targets_of(known.targets, node), props, list)
}
