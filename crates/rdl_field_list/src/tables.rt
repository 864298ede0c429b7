//! What is known of all fields of a tree, node by node.

ghost use Rattle.std.specs.Prelude.{◌≡◌, IfOk};
ghost use Rattle.rdl_layers.specs.Fields as settings;
ghost use Rattle.rdl_fields.specs.Touched.{touches};
ghost use Rattle.rdl_members.specs.Covered.{AreOverViews};
ghost use Rattle.rdl_block_fields.specs.Known.{IsNumberedTree};
ghost use Rattle.rdl_field_list.specs.Tables.{AreOnceTo};

use rb_base::NoMemory;
use rdl_block_fields::NumberedTree;
use rdl_block_numbers::PathTexts;
use rdl_fields::{is_once, own_touches};
use rdl_layers::Props;
use rdl_members::any_view;
use rdl_rules::Fact;
use rdl_tree::Elab;
use std::alloc::Global;

/// The facts of all nodes, their paths' texts and the nearest reset signals round what stands in them; and for each field whether
/// software touches it through one of its views, and whether one of these is written once.
#[derive(Clone, Copy)]
pub(crate) struct FieldTables<'t> {
    pub facts: &'t [Fact],
    pub texts: &'t PathTexts,
    pub nearest: &'t [Option<u32>],
    pub touched: &'t [bool],
    pub once: &'t [bool],
}

/// For each of so many nodes whether software writes through it only once. The only error is want of memory.
fn own_once(alloc: Global, props: &Props<'_>, count: u32) -> Result<Vec<bool>, NoMemory>
    requires { count ≡ props.now.count }
    ensures { IfOk result (λ ts. AreOnceTo props.now count ts.items) }
{
    let mut list = Vec::new(alloc);
    for node in 0..count {
        list.push(is_once(props, node))?;
    }
    Ok(list)
}

/// For each field whether software touches it through one of its views. The only error is want of memory.
pub(crate) fn touched_fields<'a>(
    alloc: Global,
    elab: &Elab<'a>,
    known: NumberedTree<'_, 'a>,
) -> Result<Vec<bool>, NoMemory>
    requires elab { known.props.now ≡ elab.now }
    requires known { IsNumberedTree known }
    ensures { IfOk result (λ ts. AreOverViews elab.now touches ts.items) }
{
    let own = own_touches(alloc, known.props, elab.count)?;
    let over = any_view(alloc, elab, known.rows, &own)?;
    Ok(over)
}

/// For each field whether software writes it only once through one of its views. The only error is want of memory.
pub(crate) fn once_fields<'a>(
    alloc: Global,
    elab: &Elab<'a>,
    known: NumberedTree<'_, 'a>,
) -> Result<Vec<bool>, NoMemory>
    requires elab { known.props.now ≡ elab.now }
    requires known { IsNumberedTree known }
    ensures { IfOk result (λ ts. AreOverViews elab.now settings.is_once ts.items) }
{
    let own = own_once(alloc, known.props, elab.count)?;
    let over = any_view(alloc, elab, known.rows, &own)?;
    Ok(over)
}
