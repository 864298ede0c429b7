//! What is known of a tree, and the tables of its references.

ghost use Rattle.std.specs.Prelude.{◌≡◌, IfOk};
ghost use Rattle.rdl_values.specs.Elaboration.{IsClean};
ghost use Rattle.rdl_nodes.specs.Rows.{AreRows};
ghost use Rattle.rdl_resolve.specs.Named.{AreNamed};
ghost use Rattle.rdl_members.specs.Covered.{AreOverViews};
ghost use Rattle.rdl_bind.specs.Targeted.{AreListed};
ghost use Rattle.rdl_fields.specs.Touched.{touches};
ghost use Rattle.rdl_bind.specs.Made.{AreMade};

use crate::known::BoundTree;
use crate::numbering::{Numbers, item_numbers};
use crate::reference_table::edges;
use crate::target_table::ref_targets;
use rb_base::NoMemory;
use rdl_fields::own_touches;
use rdl_layers::Props;
use rdl_members::{any_view, members_of};
use rdl_nodes::Row;
use rdl_ref_items::marks;
use rdl_refs::Target;
use rdl_resolve::{NamedItem, NamedItems, NamedTree, named_items, outers_of};
use rdl_tree::Elab;
use std::alloc::Global;
use topological_order::Lists;

/// The items of a tree with their numbers, what each refers to, and for each node the items that its settings name.
#[derive(Drop)]
pub(crate) struct ItemTables {
    pub numbers: Numbers,
    pub edges: Lists,
    pub targets: Vec<Vec<Target>>,
}

/// What the settings of all nodes name, and the failures of R1 and R2.
pub(crate) fn named<'a>(
    alloc: Global,
    elab: &Elab<'a>,
    props: &Props<'a>,
    rows: &[Row<'a>],
) -> Result<NamedItems, NoMemory>
    requires clean { IsClean elab.now }
    requires tree { props.now ≡ elab.now }
    requires rows { AreRows elab.now rows.now }
    ensures { IfOk result (AreNamed elab.now) }
{
    let members = members_of(alloc, elab, rows)?;
    let outers = outers_of(alloc, elab, rows)?;
    let known = NamedTree {
        elab,
        rows,
        members: &members,
        outers: &outers,
    };
    named_items(alloc, known, props)
}

/// For each field whether software touches it through one of its views.
fn touched<'a>(
    alloc: Global,
    elab: &Elab<'a>,
    props: &Props<'a>,
    rows: &[Row<'a>],
) -> Result<Vec<bool>, NoMemory>
    requires clean { IsClean elab.now }
    requires tree { props.now ≡ elab.now }
    requires rows { AreRows elab.now rows.now }
    ensures { IfOk result (λ marks. AreOverViews elab.now touches marks.items) }
{
    let own = own_touches(alloc, props, elab.count)?;
    any_view(alloc, elab, rows, &own)
}

/// The tables of the references of a tree, where this is what its settings name.
pub(crate) fn tables_of<'a>(
    alloc: Global,
    elab: &Elab<'a>,
    props: &Props<'a>,
    rows: &[Row<'a>],
    items: &[Vec<NamedItem>],
) -> Result<ItemTables, NoMemory>
    requires clean { IsClean elab.now }
    requires tree { props.now ≡ elab.now }
    requires rows { AreRows elab.now rows.now }
    requires items { AreListed elab.now items.now }
    ensures { IfOk result (AreMade elab.now) }
{
    let numbers = item_numbers(alloc, elab, rows)?;
    let targets = ref_targets(alloc, elab, &numbers, items)?;
    let marks = marks(alloc, props, rows)?;
    let touched = touched(alloc, elab, props, rows)?;
    let known = BoundTree {
        props,
        rows,
        marks: &marks,
        touched: &touched,
        numbers: &numbers,
        targets: &targets,
    };
    let edges = edges(alloc, known)?;
    Ok(ItemTables {
        numbers,
        edges,
        targets,
    })
}
