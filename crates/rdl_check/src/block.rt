//! The block of a tree in which no rule fails.

ghost use Rattle.std.specs.Prelude.{◌≡◌, IfOk, Some};
ghost use Rattle.rdl_rules.specs.Facts.{AreFacts};
ghost use Rattle.rdl_nodes.specs.Rows.{AreRows};
ghost use Rattle.rdl_values.specs.Elaborated.{top_name};
ghost use Rattle.rdl_rules.specs.Block.{IsBlockOf};
ghost use Rattle.rdl_check.specs.Trees.{AreInTurn, AreLists, IsClear};

use crate::lists::{Lists, lists_of, order_of, tables_of};
use rb_base::{NoMemory, Text};
use rb_model::{Block, Order, Words};
use rdl_addr::Map;
use rdl_block_fields::NumberedTree;
use rdl_block_laws::{order_has_all_items, order_is_the_blocks};
use rdl_block_words::all_words;
use rdl_nodes::Row;
use rdl_refs::{Dependencies, Refs};
use rdl_rules::Settled;
use rdl_tree::Elab;
use std::alloc::Global;

fn name_of(alloc: Global, elab: &Elab<'_>) -> Result<Text, NoMemory>
    ensures { IfOk result (λ t. t ≡ top_name elab.now) }
{
    let bytes = Vec::from_slice(alloc, elab.top.name)?;
    Ok(Text { bytes })
}

/// The lists of the block of a tree and the order of its items. The order is found first, since that takes the most memory, and what it
/// is found from is gone before the lists are made. The references and the tables are gone before the words are made.
fn ordered_lists<'a>(
    alloc: Global,
    elab: &Elab<'a>,
    settled: &Settled<'a>,
    refs: Refs<'a>,
    dependencies: Dependencies<'a>,
    rows: &[Row<'a>],
) -> Result<(Lists, Order), NoMemory>
    requires clear { IsClear elab.now }
    requires props { settled.now.props ≡ elab.now }
    requires facts { AreFacts elab.now settled.now.facts.items }
    requires refs { refs ≡ elab.now }
    requires dependencies { dependencies ≡ elab.now }
    requires rows { AreRows elab.now rows.now }
    ensures lists { IfOk result (λ made. AreLists elab.now made.0) }
    ensures order { IfOk result (λ made. AreInTurn elab.now made.1) }
{
    let tables = tables_of(alloc, elab, &settled.props, rows)?;
    let known = NumberedTree {
        props: &settled.props,
        refs: &refs,
        rows,
        own: &tables.numbers.own,
    };
    let order = order_of(alloc, known, dependencies, &tables.marks)?;
    let lists = lists_of(alloc, elab, known, &settled.facts, &tables)?;
    Ok((lists, order))
}

/// The register block of a tree, without wait states, where these are its settings, its places, its references, the dependencies of
/// its items and its rows.
pub(crate) fn describe<'a>(
    alloc: Global,
    elab: &Elab<'a>,
    settled: &Settled<'a>,
    map: &Map<'a>,
    refs: Refs<'a>,
    dependencies: Dependencies<'a>,
    rows: &[Row<'a>],
) -> Result<Block, NoMemory>
    requires clear { IsClear elab.now }
    requires props { settled.now.props ≡ elab.now }
    requires facts { AreFacts elab.now settled.now.facts.items }
    requires map { map.now ≡ elab.now }
    requires refs { refs ≡ elab.now }
    requires dependencies { dependencies ≡ elab.now }
    requires rows { AreRows elab.now rows.now }
    ensures { IfOk result (IsBlockOf (Some (top_name elab.now)) elab.now.source.now 0) }
{
    order_is_the_blocks();
    order_has_all_items();
    let (lists, order) = ordered_lists(alloc, elab, settled, refs, dependencies, rows)?;
    let words = all_words(alloc, elab, &settled.props, map, rows)?;
    let name = name_of(alloc, elab)?;
    Ok(Block {
        name,
        signals: lists.signals,
        fields: lists.fields,
        views: lists.views,
        reads: Words { items: words.reads },
        writes: Words {
            items: words.writes,
        },
        regs: lists.regs,
        order,
        waits: 0,
    })
}
