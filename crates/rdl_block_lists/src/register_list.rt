//! The registers of a block.

ghost use Rattle.std.specs.Prelude.{◌≡◌, ◌∷◌, ◌++◌, [], cond, not, ◌&&◌, IfOk, OnOk, map};
ghost use Rattle.rdl_tree.specs.declared.item.Kind.TheVariants as kinds;
ghost use Rattle.rdl_tree.specs.declared.node.Node.{out-Node};
ghost use Rattle.rdl_tree.specs.Kinds.{same_kind};
ghost use Rattle.rdl_values.specs.Elaborated.{nodes_of};
ghost use Rattle.rdl_values.specs.Elaboration.{IsClean};
ghost use Rattle.rdl_nodes.specs.Rows.{AreRows};
ghost use Rattle.rdl_ref_items.specs.InterruptOutputs.{AreInterruptOutputs};
ghost use Rattle.rdl_rules.specs.Block as blocks;
ghost use Rattle.rdl_rules.specs.Numbers.{registers};
ghost use Rattle.rdl_block_numbers.specs.Texts.{AreTexts};
ghost use Rattle.rdl_block_lists.specs.Halting.{DoHalt};

use crate::room::count_of;
use rb_base::{NoMemory, Text};
use rb_model::{Reg, Regs};
use rdl_block_numbers::PathTexts;
use rdl_fields::primary;
use rdl_nodes::Row;
use rdl_ref_items::InterruptOutputs;
use rdl_tree::{Elab, Kind};
use std::alloc::Global;

/// Adds a node, where it is a register, by whether it is an alias, its mark and its path's text.
fn add_register(
    alloc: Global,
    kind: Kind,
    is_alias: bool,
    mark: InterruptOutputs,
    text: &[u8],
    list: &mut Vec<Reg>,
) -> Result<(), NoMemory>
    ensures { OnOk result (list.new.items ≡ list.old.items ++ cond (same_kind kinds.Reg kind) (record { path = text.now; alias = is_alias; intr = not is_alias && mark.interrupts; halt = not is_alias && mark.halts } ∷ []) []) }
{
    if !kind.is_register() {
        return Ok(());
    }
    let bytes = Vec::from_slice(alloc, text)?;
    let intr = !is_alias & mark.interrupts;
    let halt = !is_alias & mark.halts;
    list.push(Reg {
        path: Text { bytes },
        alias: is_alias,
        intr,
        halt,
    })?;
    Ok(())
}

/// The registers of a block, by the rows, the marks and the path texts of a tree's nodes. The only error is want of memory.
pub fn regs(
    alloc: Global,
    elab: &Elab<'_>,
    rows: &[Row<'_>],
    marks: &[InterruptOutputs],
    texts: &PathTexts,
) -> Result<Regs, NoMemory>
    requires clean { IsClean elab.now }
    requires rows { AreRows elab.now rows.now }
    requires marks { AreInterruptOutputs elab.now marks.now }
    requires texts { AreTexts elab.now texts.now }
    requires halts { DoHalt elab.now }
    ensures { IfOk result (λ list. list ≡ map blocks.reg_of (registers (nodes_of elab.now))) }
{
    let mut items = Vec::with_capacity(alloc, count_of(rows, Kind::Reg))?;
    for at in 0..rows.len() {
        let row = &rows[at];
        let is_alias = primary(row).is_some();
        let text = texts.text(at);
        add_register(alloc, row.node.kind, is_alias, marks[at], text, &mut items)?;
    }
    Ok(Regs { items })
}
