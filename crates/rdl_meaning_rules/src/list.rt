//! The list of what the rules on meaning find.

ghost use Rattle.std.specs.Prelude.{◌≡◌, ◌++◌, IfOk, OnOk};
ghost use Rattle.rdl_values.specs.Elaboration.{IsClean};
ghost use Rattle.rdl_values.specs.Verdict.{IsListOf};
ghost use Rattle.rdl_failures.specs.Noted.{with_all};
ghost use Rattle.rdl_layers.specs.Answers.{IsSettled};
ghost use Rattle.rdl_nodes.specs.Rows.{AreRows};
ghost use Rattle.rdl_refs.specs.Answers.{IsBound};
ghost use Rattle.rdl_rules.specs.Facts.{AreFacts};
ghost use Rattle.rdl_ref_items.specs.InterruptOutputs.{AreInterruptOutputs};
ghost use Rattle.rdl_rules.specs.Answers.{meaning_fails};
ghost use Rattle.rdl_meaning_rules.specs.Collected.{of_containers, of_count, of_fields, of_registers, of_resets, of_roots};

use crate::circles::judge_circles;
use crate::containers::judge_containers;
use crate::counting::judge_count;
use crate::references::judge_all_references;
use crate::registers::judge_registers;
use crate::resets::{judge_all_resets, judge_root_resets};
use rb_base::NoMemory;
use rdl_addr::Map;
use rdl_base::Fault;
use rdl_failures::{Failures, collected_once};
use rdl_field_rules::registers_agree;
use rdl_layers::Props;
use rdl_nodes::{Row, rows};
use rdl_ref_items::{InterruptOutputs, marks};
use rdl_refs::{Dependencies, Refs, circling};
use rdl_rules::Fact;
use rdl_sound_laws::references_stand_on_fields;
use rdl_tree::Elab;
use std::alloc::Global;

/// The rules on registers, containers and the count of fields.
fn judge_nodes(
    alloc: Global,
    props: &Props<'_>,
    map: &Map<'_>,
    rows: &[Row<'_>],
    facts: &[Fact],
    elab: &Elab<'_>,
    failures: &mut Failures,
) -> Result<(), NoMemory>
    requires clean { IsClean props.now }
    requires settled { IsSettled props.now }
    requires elab { props.now ≡ elab.now }
    requires map { map.now ≡ props.now }
    requires rows { AreRows props.now rows.now }
    requires facts { AreFacts props.now facts.now }
    ensures { OnOk result (failures.new ≡ with_all (of_registers props.now ++ of_containers props.now ++ of_count props.now) failures.old) }
{
    judge_registers(alloc, props, map, rows, facts, failures)?;
    judge_containers(alloc, rows, failures)?;
    judge_count(elab, rows, failures)?;
    Ok(())
}

/// The rules on references and on resets within the tree.
fn judge_settings(
    props: &Props<'_>,
    refs: &Refs<'_>,
    rows: &[Row<'_>],
    facts: &[Fact],
    marks: &[InterruptOutputs],
    failures: &mut Failures,
) -> Result<(), NoMemory>
    requires clean { IsClean props.now }
    requires bound { IsBound props.now }
    requires refs { refs.now ≡ props.now }
    requires rows { AreRows props.now rows.now }
    requires facts { AreFacts props.now facts.now }
    requires marks { AreInterruptOutputs props.now marks.now }
    ensures { OnOk result (failures.new ≡ with_all (of_fields props.now ++ of_resets props.now) failures.old) }
{
    judge_all_references(props, refs, rows, facts, marks, failures)?;
    judge_all_resets(props, refs, rows, facts, failures)?;
    Ok(())
}

/// The rule on resets at the root, and R7, whose failures are given.
fn judge_rest(
    elab: &Elab<'_>,
    props: &Props<'_>,
    circles: &[Fault],
    failures: &mut Failures,
) -> Result<(), NoMemory>
    requires clean { IsClean elab.now }
    requires props { props.now ≡ elab.now }
    ensures { OnOk result (failures.new ≡ with_all (of_roots elab.now ++ circles.now) failures.old) }
{
    judge_root_resets(elab, props, failures)?;
    judge_circles(circles, failures)?;
    Ok(())
}

/// All failures of F1 to F15 and R3 to R8 of a tree, by place, and at one place in the order of the table of rules. The only error is
/// want of memory.
pub fn meaning_failures(
    alloc: Global,
    props: &Props<'_>,
    map: &Map<'_>,
    refs: &Refs<'_>,
    dependencies: &Dependencies<'_>,
    facts: &[Fact],
    elab: &Elab<'_>,
) -> Result<Vec<Fault>, NoMemory>
    requires clean { IsClean elab.now }
    requires settled { IsSettled elab.now }
    requires bound { IsBound elab.now }
    requires props { props.now ≡ elab.now }
    requires map { map.now ≡ elab.now }
    requires refs { refs.now ≡ elab.now }
    requires dependencies { dependencies.now ≡ elab.now }
    requires facts { AreFacts elab.now facts.now }
    ensures { IfOk result (λ list. IsListOf (meaning_fails elab.now) list.items) }
{
    registers_agree();
    references_stand_on_fields();
    collected_once();
    let rows = rows(alloc, elab)?;
    let marks = marks(alloc, props, &rows)?;
    let circles = circling(alloc, dependencies)?;
    let mut failures = Failures::new(alloc);
    judge_nodes(alloc, props, map, &rows, facts, elab, &mut failures)?;
    judge_settings(props, refs, &rows, facts, &marks, &mut failures)?;
    judge_rest(elab, props, &circles, &mut failures)?;
    let list = failures.into_list(alloc)?;
    Ok(list)
}
