//! The lists of a block.

ghost use Rattle.std.specs.Prelude.{◌≡◌, IfOk};
ghost use Rattle.rdl_rules.specs.Facts.{AreFacts};
ghost use Rattle.rdl_nodes.specs.Rows.{AreRows};
ghost use Rattle.rdl_ref_items.specs.InterruptOutputs.{AreInterruptOutputs};
ghost use Rattle.rdl_block_fields.specs.Known.{IsNumberedTree};
ghost use Rattle.rdl_check.specs.Trees.{AreInTurn, AreLists, AreTables, IsClear};

use rb_base::NoMemory;
use rb_model::{Fields, Order, Regs, Signals, Views};
use rdl_block_fields::NumberedTree;
use rdl_block_lists::{Listed, block_order, regs, signals, views};
use rdl_block_numbers::{NodeNumbers, PathTexts, node_numbers, path_texts};
use rdl_field_list::fields;
use rdl_layers::Props;
use rdl_nodes::Row;
use rdl_ref_items::{InterruptOutputs, marks};
use rdl_refs::{Dependencies, order};
use rdl_rules::Fact;
use rdl_sound_laws::clean_is_faultless;
use rdl_tree::Elab;
use std::alloc::Global;

/// The path texts of nodes, their numbers in the lists of their kinds, and what registers have for others to refer to.
#[derive(Drop)]
pub(crate) struct TreeTables {
    pub texts: PathTexts,
    pub numbers: NodeNumbers,
    pub marks: Vec<InterruptOutputs>,
}

/// The lists of a block.
#[derive(Drop)]
pub(crate) struct Lists {
    pub signals: Signals,
    pub fields: Fields,
    pub views: Views,
    pub regs: Regs,
}

/// What is known of the nodes of a tree.
pub(crate) fn tables_of(
    alloc: Global,
    elab: &Elab<'_>,
    props: &Props<'_>,
    rows: &[Row<'_>],
) -> Result<TreeTables, NoMemory>
    requires clear { IsClear elab.now }
    requires props { props.now ≡ elab.now }
    requires rows { AreRows elab.now rows.now }
    ensures { IfOk result (AreTables elab.now) }
{
    let texts = path_texts(alloc, elab, rows)?;
    let numbers = node_numbers(alloc, elab, rows)?;
    let marks = marks(alloc, props, rows)?;
    Ok(TreeTables {
        texts,
        numbers,
        marks,
    })
}

/// The lists of the block of a tree.
pub(crate) fn lists_of<'a>(
    alloc: Global,
    elab: &Elab<'a>,
    known: NumberedTree<'_, 'a>,
    facts: &[Fact],
    tables: &TreeTables,
) -> Result<Lists, NoMemory>
    requires clear { IsClear elab.now }
    requires props { known.props.now ≡ elab.now }
    requires known { IsNumberedTree known }
    requires facts { AreFacts elab.now facts.now }
    requires tables { AreTables elab.now tables.now }
    ensures { IfOk result (AreLists elab.now) }
{
    clean_is_faultless();
    let signals = signals(alloc, elab, known.rows, facts, &tables.texts)?;
    let fields = fields(alloc, elab, known, facts, &tables.texts)?;
    let views = views(alloc, known, &tables.numbers.viewed, &tables.texts)?;
    let regs = regs(alloc, elab, known.rows, &tables.marks, &tables.texts)?;
    Ok(Lists {
        signals,
        fields: Fields { items: fields },
        views: Views { items: views },
        regs,
    })
}

/// The items of the block of a tree, each behind those that it refers to.
pub(crate) fn order_of(
    alloc: Global,
    known: NumberedTree<'_, '_>,
    dependencies: Dependencies<'_>,
    marks: &[InterruptOutputs],
) -> Result<Order, NoMemory>
    requires known { IsNumberedTree known }
    requires dependencies { dependencies ≡ known.props.now }
    requires marks { AreInterruptOutputs known.props.now marks.now }
    ensures { IfOk result (AreInTurn known.entry.props.now) }
{
    // No circle is left where no rule fails.
    let Ok(numbers) = order(alloc, &dependencies) else {
        return Err(NoMemory);
    };
    drop(dependencies);
    let listed = Listed {
        props: known.props,
        refs: known.refs,
        rows: known.rows,
        marks,
        own: known.own,
    };
    let items = block_order(alloc, listed, &numbers)?;
    Ok(Order { items })
}
