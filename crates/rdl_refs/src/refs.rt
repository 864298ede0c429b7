//! The references of a tree.

ghost use Rattle.std.specs.Prelude.{◌<◌, ◌≡◌, ℕ, length};
ghost use Rattle.rdl_props.specs.declared.prop.Prop.{Prop as AnyProp};
ghost use Rattle.rdl_refs.specs.Answers.{AreItems, TargetAt};
ghost use Rattle.rdl_refs.specs.Tables.{item_at, list_at};

use crate::item::ItemOf;
use rdl_props::Prop;
use rdl_tree::Elab;
use std::marker::Model;

/// The item that a property's setting names.
#[derive(Clone, Copy)]
pub struct Target {
    pub prop: Prop,
    pub item: u32,
}

/// The items of a tree, and the item that each reference names. References are seen as their tree.
#[derive(Drop)]
pub struct Refs<'a> {
    elab: Elab<'a>,
    /// All items, in the order of their numbers.
    items: Vec<ItemOf>,
    /// For each node the items that its settings name.
    targets: Vec<Vec<Target>>,
}

impl<'a> Model for Refs<'a> {
    ghost use Rattle.rdl_tree.specs.declared.node.Elab.{Elab};
    ghost use Rattle.rdl_tree.specs.contracts.expr.Expr as expr;
    ghost use Rattle.rdl_tree.specs.contracts.item.Item as item;
    ghost use Rattle.rdl_tree.specs.contracts.node.Node as node;
    ghost use Rattle.rdl_tree.specs.contracts.value.Env as env;
    ghost use Rattle.std.specs.Coded.{codes};
    ghost use denote.Signature.{static_lft};

    ghost Value = { Elab };

    ghost coded = { Prim.hlevel (codes, (expr.the_row static_lft).coded, (item.the_row static_lft).coded, (node.the_row static_lft).coded, (env.the_row static_lft).coded) };

    ghost use Rattle.rdl_refs.specs.Tables.{AreTables};

    ghost view = { λ r. r.elab };

    ghost invariant = { AreTables };
}

/// The item of the first target of a property.
fn item_of(targets: &[Target], prop: Prop) -> Option<u32>
    ensures { result ≡ item_at prop targets.now }
{
    for target in targets {
        if target.prop == prop {
            return Some(target.item);
        }
    }
    None
}

impl<'a> Refs<'a> {
    /// The references of a tree from its tables: all items, and for each node the items that its settings name.
    pub fn of_tables(elab: Elab<'a>, items: Vec<ItemOf>, targets: Vec<Vec<Target>>) -> Refs<'a>
        requires listed { AreItems elab items.items }
        requires sized { length targets.items ≡ elab.count }
        requires named { (k : ℕ) (p : AnyProp) → k < elab.count → TargetAt elab k p (item_at p (list_at targets.items k)) }
        ensures { result ≡ elab.entry }
    {
        Refs {
            elab,
            items,
            targets,
        }
    }
}

impl Refs<'_> {
    /// All items, in the order of their numbers: those of a node are together, and nodes in their order.
    pub fn items(&self) -> &[ItemOf]
        ensures { AreItems self.now result.now }
    {
        &self.items
    }

    /// The number of the item that the property's setting names, on the node of this number. None where the setting is no
    /// reference.
    pub fn target(&self, node: u32, prop: Prop) -> Option<u32>
        requires { node < self.now.count }
        ensures { TargetAt self.now node prop result }
    {
        item_of(&self.targets[node as usize], prop)
    }
}
