//! The rules that an assignment may fail at its targets.

ghost use Rattle.std.specs.Prelude.{◌≡◌, ℕ, List, Some, IfOk, flat_map};
ghost use Rattle.std.specs.List.{list_all};
ghost use Rattle.rdl_tree.specs.declared.node.Elab.{Elab};
ghost use Rattle.rdl_values.specs.Instances.{Instance};
ghost use Rattle.rdl_values.specs.Lineages.{lineages_of};
ghost use Rattle.rdl_values.specs.Parts as parts;
ghost use Rattle.rdl_props.specs.declared.prop.Prop.{Prop as AnyProp};
ghost use Rattle.rdl_nodes.specs.Rows.{AreRows};
ghost use Rattle.rdl_nodes.specs.declared.table.Row.{Row as AnyRow};
ghost use Rattle.rdl_failures.specs.Noted.{IsNoted};
ghost use Rattle.rdl_layers.specs.Assignments.{Dynamic, Nested, targets};
ghost use Rattle.rdl_layers.specs.Judged.{bad_indices, illegal, legal_on, no_target};
ghost use Rattle.rdl_layers.specs.Meanings.{Assignment, prop_of};
ghost use Rattle.rdl_targets.specs.At.{AreAt};
ghost use Rattle.rdl_dynamic.specs.Known.{legal_at};

use rb_base::{NoMemory, Place};
use rdl_base::Rule;
use rdl_failures::Failures;
use rdl_nodes::Row;
use rdl_props::{Prop, legal};
use rdl_targets::row_at;

// Whether there are none.
fn are_none(nodes: &[u32]) -> bool
    ensures { result ≡ parts.is_empty nodes.now }
{
    nodes.is_empty()
}

/// Puts in P7 where the target leads to none of the nodes, whose indices have no failure, and answers whether it doesn't fail.
pub fn judge_target(
    clean: bool,
    nodes: &[u32],
    place: Place,
    failures: &mut Failures,
) -> Result<bool, NoMemory>
    ensures { IfOk result (λ ok. (e : Elab) (b : Nested) (d : Dynamic) → clean ≡ parts.is_empty (bad_indices d) → AreAt (lineages_of e) nodes.now (targets b d) → d.assigns.set_.place ≡ place → IsNoted (no_target b d) ok failures.old failures.new) }
{
    failures.note(clean & are_none(nodes), Rule::P7, place)
}

// Whether the property is legal on the kind of a node.
fn is_legal_at(rows: &[Row<'_>], node: u32, prop: Prop) -> bool
    ensures { result ≡ legal_at rows.now prop node }
{
    match row_at(rows, node) {
        Some(row) => legal(prop, row.node.kind),
        None => true,
    }
}

/// Whether the property is legal on the kinds of all the nodes.
pub(crate) fn are_legal(rows: &[Row<'_>], nodes: &[u32], prop: Prop) -> bool
    ensures { result ≡ list_all (legal_at rows.now prop) nodes.now }
{
    nodes.iter().all(|node| is_legal_at(rows, *node, prop))
}

/// Puts in P3 where the property isn't legal on the kinds of all the nodes, and answers whether it is.
pub(crate) fn judge_kinds(
    legal: bool,
    place: Place,
    failures: &mut Failures,
) -> Result<bool, NoMemory>
    ensures { IfOk result (λ clean. (e : Elab) (rows : List AnyRow) (a : Assignment) (p : AnyProp) (ks : List ℕ) (ns : List Instance) → AreRows e rows → prop_of a ≡ Some p → a.set_.place ≡ place → AreAt (lineages_of e) ks ns → legal ≡ list_all (legal_at rows p) ks
        → IsNoted (flat_map (λ n. illegal (legal_on n) a) ns) clean failures.old failures.new) }
{
    failures.note(!legal, Rule::P3, place)
}
