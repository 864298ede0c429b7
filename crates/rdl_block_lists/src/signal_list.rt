//! The signals of a block.

ghost use Rattle.std.specs.Prelude.{◌≡◌, ◌≤◌, ◌∷◌, ◌++◌, [], cond, IfOk, OnOk, is_none, map};
ghost use Rattle.rdl_tree.specs.declared.item.Kind.TheVariants as kinds;
ghost use Rattle.rdl_tree.specs.declared.node.Node.{out-Node};
ghost use Rattle.rdl_tree.specs.Kinds.{same_kind};
ghost use Rattle.rdl_values.specs.Elaborated.{nodes_of};
ghost use Rattle.rdl_values.specs.Elaboration.{IsClean};
ghost use Rattle.rdl_nodes.specs.Rows.{AreRows};
ghost use Rattle.rdl_rules.specs.Facts.{AreFacts};
ghost use Rattle.rdl_rules.specs.Block as blocks;
ghost use Rattle.rdl_rules.specs.Numbers.{all_signals};
ghost use Rattle.rdl_block_numbers.specs.Texts.{AreTexts};

use rb_base::{NoMemory, Text};
use rb_model::{Signal, Signals};
use rdl_block_numbers::PathTexts;
use rdl_nodes::Row;
use rdl_rules::Fact;
use rdl_tree::Elab;
use std::alloc::Global;

/// A width of at most 64 bits.
fn narrow(width: u64) -> u8
    requires { width ≤ 64 }
    ensures { result ≡ width }
{
    width as u8
}

/// Adds a node, where it is a signal, with its width and its path's text.
fn add_signal(
    alloc: Global,
    row: &Row<'_>,
    width: u8,
    text: &[u8],
    list: &mut Vec<Signal>,
) -> Result<(), NoMemory>
    ensures { OnOk result (list.new.items ≡ list.old.items ++ cond (same_kind kinds.Signal (out-Node row.now.node.now).kind) (record { path = text.now; width = width; root = is_none row.now.parent } ∷ []) []) }
{
    if !row.node.kind.is_signal() {
        return Ok(());
    }
    let bytes = Vec::from_slice(alloc, text)?;
    let path = Text { bytes };
    let root = row.parent.is_none();
    list.push(Signal { path, width, root })?;
    Ok(())
}

/// The signals of a block, by the rows, the facts and the path texts of a tree's nodes. The only error is want of memory.
pub fn signals(
    alloc: Global,
    elab: &Elab<'_>,
    rows: &[Row<'_>],
    facts: &[Fact],
    texts: &PathTexts,
) -> Result<Signals, NoMemory>
    requires clean { IsClean elab.now }
    requires rows { AreRows elab.now rows.now }
    requires facts { AreFacts elab.now facts.now }
    requires texts { AreTexts elab.now texts.now }
    ensures { IfOk result (λ list. list ≡ map blocks.signal_of (all_signals (nodes_of elab.now))) }
{
    let mut items = Vec::new(alloc);
    for at in 0..rows.len() {
        let row = &rows[at];
        let fact = &facts[at];
        let width = narrow(fact.width);
        let text = texts.text(at);
        add_signal(alloc, row, width, text, &mut items)?;
    }
    Ok(Signals { items })
}
