//! The path texts of all nodes.

ghost use Rattle.std.specs.Prelude.{◌≡◌, ℕ, [], IfOk, Some, slice_get};
ghost use Rattle.std.specs.Option.{option_copied};
ghost use Rattle.rdl_tree.specs.declared.node.Elab.{Elab as AnyElab};
ghost use Rattle.rdl_values.specs.Elaboration.{IsClean};
ghost use Rattle.rdl_values.specs.Lineages.{Lineage, lineages_of};
ghost use Rattle.rdl_values.specs.Uses.{path_text};
ghost use Rattle.rdl_nodes.specs.Rows.{AreRows, IsRow};
ghost use Rattle.rdl_block_numbers.specs.Texts.{AreTexts, AreTextsTo, front_in};

use crate::step::text_below;
use crate::texts::PathTexts;
use rb_base::{NoMemory, Text};
use rdl_nodes::Row;
use rdl_tree::Elab;
use std::alloc::Global;

/// The row of a number, if there is one.
fn row_of<'a>(rows: &[Row<'a>], node: u32) -> Option<Row<'a>>
    ensures { result ≡ slice_get rows.now node }
{
    rows.get(node as usize).copied()
}

/// The text that the steps of nodes in the one of this number stand behind: none under the top.
fn front_of<'t>(rows: &[Row<'_>], texts: &'t PathTexts, node: u32) -> Option<&'t [u8]>
    ensures { option_copied result ≡ front_in rows.now texts.now node }
{
    let Some(row) = row_of(rows, node) else {
        return None;
    };
    if row.parent.is_none() {
        return None;
    }
    texts.get(node as usize)
}

/// The text of a node that stands in no other: of a signal its own step, and none of the top.
fn text_alone(alloc: Global, row: &Row<'_>) -> Result<Text, NoMemory>
    ensures { IfOk result (λ t. (e : AnyElab) (k : ℕ) (l : Lineage) → slice_get (lineages_of e) k ≡ Some l → IsRow e (lineages_of e) k row.now l → l.ancestors ≡ [] → t ≡ path_text l.node.path) }
{
    let node = row.node;
    if !node.kind.is_signal() {
        let bytes = Vec::new(alloc);
        return Ok(Text { bytes });
    }
    let text = text_below(alloc, None, node.name, node.index)?;
    Ok(text)
}

/// The text of a node, behind that of the one that it stands in.
fn text_of(
    alloc: Global,
    rows: &[Row<'_>],
    texts: &PathTexts,
    row: &Row<'_>,
) -> Result<Text, NoMemory>
    ensures { IfOk result (λ t. (e : AnyElab) (k : ℕ) (l : Lineage) → AreRows e rows.now → slice_get (lineages_of e) k ≡ Some l → IsRow e (lineages_of e) k row.now l → AreTextsTo e k texts.now → t ≡ path_text l.node.path) }
{
    let Some(parent) = row.parent else {
        let alone = text_alone(alloc, row)?;
        return Ok(alone);
    };
    let node = row.node;
    let front = front_of(rows, texts, parent);
    let text = text_below(alloc, front, node.name, node.index)?;
    Ok(text)
}

/// The path text of each node of a tree, of which these are the rows. The only error is want of memory.
pub fn path_texts(alloc: Global, elab: &Elab<'_>, rows: &[Row<'_>]) -> Result<PathTexts, NoMemory>
    requires clean { IsClean elab.now }
    requires rows { AreRows elab.now rows.now }
    ensures { IfOk result (AreTexts elab.now) }
{
    let mut texts = PathTexts::new(alloc);
    for at in 0..rows.len() {
        let row = &rows[at];
        let text = text_of(alloc, rows, &texts, row)?;
        texts.add(&text.bytes)?;
    }
    Ok(texts)
}
