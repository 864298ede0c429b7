//! What a setting that is a reference names.

ghost use Rattle.std.specs.Prelude.{◌≡◌, ◌∷◌, [], ◌||◌, not, map, option_to_list, slice_get, Contains, IfOk, None};
ghost use Rattle.std.specs.List.{list_any};
ghost use Rattle.rdl_base.specs.declared.rule.Rule.TheVariants as rules;
ghost use Rattle.rdl_values.specs.Faults.{at_, when};
ghost use Rattle.rdl_tree.specs.Kinds.{same_kind};
ghost use Rattle.rdl_tree.specs.declared.item.Kind.TheVariants as kinds;
ghost use Rattle.rdl_tree.specs.declared.expr.Path.{Path as AnyPath};
ghost use Rattle.rdl_tree.specs.declared.node.Elab.{Elab as AnyElab};
ghost use Rattle.rdl_values.specs.Bodies.{Scope};
ghost use Rattle.rdl_values.specs.Elaborated.{nodes_of};
ghost use Rattle.rdl_values.specs.Elaboration.{IsClean};
ghost use Rattle.rdl_values.specs.Instances.{Instance};
ghost use Rattle.rdl_values.specs.Lineages.{lineages_of};
ghost use Rattle.rdl_layers.specs.Says.{Says};
ghost use Rattle.rdl_layers.specs.Settings as settings;
ghost use Rattle.rdl_layers.specs.Settings.{reference as refers};
ghost use Rattle.rdl_nodes.specs.Rows.{AreRows};
ghost use Rattle.rdl_refs.specs.Items as items;
ghost use Rattle.rdl_refs.specs.Items.{is_resetsignal};
ghost use Rattle.rdl_refs.specs.Leads.{led_to};
ghost use Rattle.rdl_resolve.specs.Led.{IsLed};
ghost use Rattle.rdl_resolve.specs.Aimed.{IsAim, IsNamedTree};

use crate::items::what_named;
use crate::leading::lead;
use crate::view::view_from;
use rb_base::{NoMemory, Place};
use rdl_base::{Fault, Rule};
use rdl_layers::{Props, Setting};
use rdl_members::Members;
use rdl_nodes::Row;
use rdl_props::Prop;
use rdl_refs::{ItemOf, What};
use rdl_tree::{Elab, Kind, Name, Path};
use std::alloc::Global;

/// The item that a setting names, if it is a reference, and its failure of rule R1 or R2.
#[derive(Clone, Copy)]
pub struct Aim {
    pub target: Option<ItemOf>,
    pub fault: Option<Fault>,
}

/// Whether a property may refer to a node of this kind: a reset signal is a signal.
fn may_name(prop: Prop, kind: Kind) -> bool
    ensures { result ≡ not (is_resetsignal prop) || same_kind kinds.Signal kind }
{
    prop != Prop::Resetsignal || kind == Kind::Signal
}

/// The failure of R2 at a place, where nothing is named that may be.
fn unwanted(is_wanted: bool, place: Place) -> Option<Fault>
    ensures { option_to_list result ≡ when (not is_wanted) (at_ rules.R2 place) }
{
    if is_wanted {
        return None;
    }
    Some(Fault {
        place,
        rule: Rule::R2,
    })
}

/// An item of the node of a number.
fn item_of(node: u32, what: Option<What>) -> Option<ItemOf>
    ensures { option_to_list result ≡ map (λ w. record { node = node; what = w }) (option_to_list what) }
{
    match what {
        Some(what) => Some(ItemOf { node, what }),
        None => None,
    }
}

/// What a reference names that leads to a node of this kind and number.
fn at_node(node: u32, kind: Kind, prop: Prop, item: Option<Name<'_>>, place: Place) -> Aim
    ensures target { option_to_list result.target ≡ map (λ w. record { node = node; what = w }) (items.what_named kind item.entry) }
    ensures fault { option_to_list result.fault ≡ when (not (list_any (λ w. not (is_resetsignal prop) || same_kind kinds.Signal kind) (items.what_named kind item.entry))) (at_ rules.R2 place) }
{
    let what = what_named(kind, item);
    let is_wanted = what.is_some() & may_name(prop, kind);
    let target = item_of(node, what);
    let fault = unwanted(is_wanted, place);
    Aim { target, fault }
}

/// What a reference names that leads to nothing.
fn nowhere(place: Place) -> Aim
    ensures target { result.target ≡ None }
    ensures fault { option_to_list result.fault ≡ at_ rules.R1 place ∷ [] }
{
    Aim {
        target: None,
        fault: Some(Fault {
            place,
            rule: Rule::R1,
        }),
    }
}

/// What a reference names that leads to the node of a number, if to one.
fn aimed(
    rows: &[Row<'_>],
    node: Option<u32>,
    prop: Prop,
    item: Option<Name<'_>>,
    place: Place,
) -> Aim
    ensures { (e : AnyElab) (path : AnyPath) (scope : Scope) → IsClean e → AreRows e rows.now → IsLed e node (led_to (lineages_of e) path scope) → IsAim e prop (refers path item.entry scope place) result }
{
    let Some(node) = node else {
        return nowhere(place);
    };
    let Some(row) = row_of(rows, node) else {
        return nowhere(place);
    };
    at_node(node, row.node.kind, prop, item, place)
}

/// The row of a number, if there is one.
fn row_of<'a>(rows: &[Row<'a>], node: u32) -> Option<Row<'a>>
    ensures { result ≡ slice_get rows.now node }
{
    rows.get(node as usize).copied()
}

/// A tree with what is looked up in it.
#[derive(Clone, Copy)]
pub struct NamedTree<'t, 'a> {
    pub elab: &'t Elab<'a>,
    pub rows: &'t [Row<'a>],
    pub members: &'t Members<'a>,
    pub outers: &'t [u32],
}

/// What the setting of a property names, where it is a reference, and its failure of R1 or R2. The only error is want of memory.
pub fn aim_of<'a>(
    alloc: Global,
    known: NamedTree<'_, 'a>,
    props: &Props<'a>,
    prop: Prop,
    setting: &Setting<'a>,
) -> Result<Aim, NoMemory>
    requires known { IsNamedTree known }
    requires tree { props.now ≡ known.elab.now }
    ensures { IfOk result (λ a. (n : Instance) → Contains (nodes_of known.entry.elab.now) n → Says (nodes_of known.entry.elab.now) setting.now (settings.setting n prop) → IsAim known.entry.elab.now prop (settings.setting n prop) a) }
{
    let Setting::Ref {
        path,
        item,
        scope,
        place,
    } = *setting
    else {
        return Ok(Aim {
            target: None,
            fault: None,
        });
    };
    let Some(view) = view_from(known.elab, props, known.rows, known.outers, scope) else {
        return Err(NoMemory);
    };
    let node = lead(alloc, known.members, view, path)?;
    Ok(aimed(known.rows, node, prop, *item, place))
}
