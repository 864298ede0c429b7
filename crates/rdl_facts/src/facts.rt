//! The facts of nodes.

ghost use Rattle.std.specs.Prelude.{◌≡◌, ◌≤◌, ◌<◌, true, IfOk, List, length};
ghost use Rattle.rdl_tree.specs.declared.node.Elab.{Elab};
ghost use Rattle.rdl_tree.specs.declared.node.Node.{Node as AnyNode};
ghost use Rattle.rdl_values.specs.Elaborated.{Says, nodes_of};
ghost use Rattle.rdl_values.specs.Elaboration.{IsClean};
ghost use Rattle.rdl_values.specs.Instances.{Instance, kind_of};
ghost use Rattle.rdl_values.specs.Parts as parts;
ghost use Rattle.rdl_nodes.specs.Rows.{AreRows};
ghost use Rattle.rdl_layers.specs.Answers.{IsSettled};
ghost use Rattle.rdl_layers.specs.Phase4 as phase;
ghost use Rattle.rdl_layers.specs.Tables.{entries_at};
ghost use Rattle.rdl_open_bodies.specs.Spots.{IsOpenTree};
ghost use Rattle.rdl_merge.specs.Widths.{IsOfText};
ghost use Rattle.rdl_rules.specs.Facts.{AreFacts, IsFact};
ghost use Rattle.rdl_facts.specs.Told.{AreTold, IsTold};

use crate::encoded::{has_wide_entry, spot_at};
use crate::table::EnumNumbers;
use crate::unit_facts::fact_of;
use rb_base::NoMemory;
use rdl_layers::PropSetting;
use rdl_merge::unit_width;
use rdl_nodes::Row;
use rdl_open_bodies::{OpenTree, Spot};
use rdl_rules::Fact;
use rdl_tree::{Inst, Kind, Node};
use rdl_values::Chain;
use std::alloc::Global;

// What is said of a node that is no field or signal: nothing is known of it.
fn no_fact() -> Fact
    ensures { result.width ≤ 64 }
{
    Fact {
        width: 0,
        has_parts: false,
        has_wide_entry: false,
    }
}

// Whether it is the kind of fields or signals.
fn is_unit(kind: Kind) -> bool
    ensures { result ≡ parts.is_unit kind }
{
    matches!(kind, Kind::Field | Kind::Signal)
}

// The facts of a field or signal, the text of which sees the names of the body that its use stands in.
fn unit_fact<'a>(
    alloc: Global,
    tree: &OpenTree<'_, 'a>,
    enums: &EnumNumbers<'a>,
    inst: &Inst<'a>,
    kind: Kind,
    spot: &Spot,
    entries: &[PropSetting<'a>],
) -> Result<Fact, NoMemory>
    ensures narrow { IfOk result (λ fact. fact.width ≤ 64) }
    ensures fact { IfOk result (λ fact. (e : Elab) (n : Instance) → IsTold e tree.now enums.now spot.now entries.now n → kind_of n ≡ kind → IsOfText inst.now n → phase.width_of n ≤ 64 → IsFact fact n) }
{
    let Some(body) = tree.bodies.body(spot.within) else {
        return Ok(no_fact());
    };
    let visible = Chain {
        nearest: None,
        tables: tree.bodies.tables(),
        numbers: body.numbers,
    };
    let width = unit_width(alloc, inst, kind, entries, &visible)?;
    let wide = has_wide_entry(tree, enums, entries, width);
    fact_of(alloc, inst, kind, entries, &visible, wide)
}

// The facts of a node, if it is a field or a signal.
fn node_fact<'a>(
    alloc: Global,
    tree: &OpenTree<'_, 'a>,
    enums: &EnumNumbers<'a>,
    node: &Node<'a>,
    spot: &Spot,
    entries: &[PropSetting<'a>],
) -> Result<Fact, NoMemory>
    ensures narrow { IfOk result (λ fact. fact.width ≤ 64) }
    ensures fact { IfOk result (λ fact. (e : Elab) (n : Instance) (beside : List AnyNode) → IsTold e tree.now enums.now spot.now entries.now n → Says beside node.now n → parts.is_unit (kind_of n) ≡ true → phase.width_of n ≤ 64 → IsFact fact n) }
{
    let Some(inst) = node.inst else {
        return Ok(no_fact());
    };
    if !is_unit(node.kind) {
        return Ok(no_fact());
    }
    unit_fact(alloc, tree, enums, inst, node.kind, spot, entries)
}

// The entries of the node of a number.
fn entries_of<'e, 'a>(entries: &'e [Vec<PropSetting<'a>>], at: usize) -> &'e [PropSetting<'a>]
    requires { at < length entries.now }
    ensures { result.now ≡ entries_at entries.now at }
{
    &entries[at]
}

/// The facts of all fields and signals of a tree of which no rule on settings fails, node by node, from the rows of its nodes, the open
/// bodies, and what decides the properties of each node. It takes time for nodes, their texts and the entries of enumerations.
pub fn facts_of<'a>(
    alloc: Global,
    rows: &[Row<'a>],
    tree: &OpenTree<'_, 'a>,
    entries: &[Vec<PropSetting<'a>>],
) -> Result<Vec<Fact>, NoMemory>
    requires { length rows.now ≡ length entries.now }
    ensures { IfOk result (λ facts. (e : Elab) → IsClean e → IsSettled e → AreRows e rows.now → IsOpenTree e tree.now → AreTold e entries.now → AreFacts e facts.items) }
{
    let enums = EnumNumbers::of(alloc, &tree.bodies)?;
    let mut facts = Vec::with_capacity(alloc, rows.len())?;
    for (at, row) in rows.iter().enumerate() {
        let Some(spot) = spot_at(&tree.spots, at) else {
            return Ok(facts);
        };
        let list = entries_of(entries, at);
        let fact = node_fact(alloc, tree, &enums, row.node, &spot, list)?;
        facts.push(fact)?;
    }
    Ok(facts)
}
