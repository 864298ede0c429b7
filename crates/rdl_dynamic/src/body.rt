//! All dynamic assignments of a body.

ghost use Rattle.std.specs.Prelude.{◌≡◌, ◌++◌, ◌∷◌, [], List, Vec, OnOk};
ghost use Rattle.std.specs.Global.{Global as Memory};
ghost use Rattle.rdl_base.specs.declared.fault.Fault.{Fault};
ghost use Rattle.rdl_tree.specs.declared.item.Item.{Item};
ghost use Rattle.rdl_tree.specs.declared.node.Elab.{Elab};
ghost use Rattle.rdl_values.specs.Elaborated.{around_body};
ghost use Rattle.rdl_values.specs.Instances.{Instance, body as body_of};
ghost use Rattle.rdl_values.specs.Lineages.{lineages_of};
ghost use Rattle.rdl_nodes.specs.Rows.{AreRows};
ghost use Rattle.rdl_failures.specs.Noted.{with_all};
ghost use Rattle.rdl_failures.specs.Shown.{IsShown};
ghost use Rattle.rdl_layers.specs.Assignments.{Dynamic, dynamics};
ghost use Rattle.rdl_layers.specs.Judged.{all_failures, failures_of_dynamic};
ghost use Rattle.rdl_layers.specs.declared.props.PropSetting.{PropSetting as AnyEntry};
ghost use Rattle.rdl_layers.specs.Nested.{nested};
ghost use Rattle.rdl_dynamic.specs.Written.{AreWritten};
ghost use Rattle.rdl_targets.specs.At.{IsAt};
ghost use Rattle.rdl_targets.specs.Contents.{AreContents};
ghost use Rattle.rdl_dynamic.specs.Given.{ArePushed, IsGoing, dynamic_of};

use crate::dynamic::judge_dynamic;
use crate::known::Known;
use crate::pushing::push_all;
use crate::written::Written;
use rb_base::NoMemory;
use rdl_failures::Failures;
use rdl_layers::PropSetting;
use rdl_nodes::Row;
use rdl_targets::Contents;
use rdl_values::Chain;
use std::alloc::Global;

// Judges a dynamic assignment, and puts what it gives into the entries of its targets.
fn judge_written<'a>(
    alloc: Global,
    rows: &[Row<'a>],
    contents: &Contents<'a>,
    written: &Written<'a>,
    node: u32,
    visible: &Chain<'_, '_, '_, 'a>,
    known: &mut Known<'a>,
    entries: &mut Vec<Vec<PropSetting<'a>>>,
    failures: &mut Failures,
) -> Result<(), NoMemory>
    ensures { OnOk result ((e : Elab) (n : Instance) (first : List (Vec AnyEntry Memory)) (start : List Fault) (read : List Dynamic) (before : List Item)
        → AreRows e rows.now → AreContents e contents.now → IsAt (lineages_of e) node n → IsShown visible.now (around_body n)
        → IsGoing e node rows.now n known.old first entries.old.items start failures.old read → IsGoing e node rows.now n known.new first entries.new.items start failures.new (read ++ (dynamic_of n before written.now.target.now written.now.assigned.now ∷ []))) }
{
    let led = judge_dynamic(
        alloc,
        rows,
        contents,
        written.target,
        written.assigned,
        node,
        visible,
        known,
        failures,
    )?;
    match led.given {
        Some(given) => push_all(entries, known.trails.nodes(led.path), given, node),
        None => Ok(()),
    }
}

/// Judges the dynamic assignments in the body of a node, one behind the other: puts in their failures, V rules in indices and values, P1
/// to P8, and puts what those give that fail none behind the entries of their targets, by the numbers of nodes. After want of memory the
/// entries and the failures are of no use.
pub fn judge_dynamics<'a>(
    alloc: Global,
    rows: &[Row<'a>],
    contents: &Contents<'a>,
    node: u32,
    assignments: &[Written<'a>],
    visible: &Chain<'_, '_, '_, 'a>,
    entries: &mut Vec<Vec<PropSetting<'a>>>,
    failures: &mut Failures,
) -> Result<(), NoMemory>
    ensures noted { OnOk result ((e : Elab) (n : Instance) → AreRows e rows.now → AreContents e contents.now → IsAt (lineages_of e) node n → AreWritten assignments.now (body_of n).items → IsShown visible.now (around_body n)
        → failures.new ≡ with_all (all_failures (failures_of_dynamic (nested n)) (dynamics (body_of n))) failures.old) }
    ensures pushed { OnOk result ((e : Elab) (n : Instance) → AreRows e rows.now → AreContents e contents.now → IsAt (lineages_of e) node n → AreWritten assignments.now (body_of n).items → IsShown visible.now (around_body n)
        → ArePushed e (nested n) entries.old.items entries.new.items) }
{
    let mut known = Known::new(alloc, node)?;
    for written in assignments {
        judge_written(
            alloc, rows, contents, written, node, visible, &mut known, entries, failures,
        )?;
    }
    Ok(())
}
