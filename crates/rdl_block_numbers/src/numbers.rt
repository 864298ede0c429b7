//! The numbers of all nodes.

ghost use Rattle.std.specs.Prelude.{◌≡◌, ◌∷◌, ℕ, List, IfOk, Some};
ghost use Rattle.rdl_tree.specs.declared.node.Elab.{Elab as AnyElab};
ghost use Rattle.rdl_values.specs.Elaborated.{nodes_of};
ghost use Rattle.rdl_values.specs.Elaboration.{IsClean};
ghost use Rattle.rdl_values.specs.Instances.{Instance, kind_of};
ghost use Rattle.rdl_values.specs.Lineages.{Lineage, lineages_of};
ghost use Rattle.rdl_nodes.specs.Rows.{AreRows, IsParent, IsRow};
ghost use Rattle.rdl_fields.specs.Primary.{TellsPrimary};
ghost use Rattle.rdl_rules.specs.Fields as views;
ghost use Rattle.rdl_rules.specs.Numbers.{all_fields, all_signals, number_of, registers};
ghost use Rattle.rdl_block_numbers.specs.declared.listed.Listing.TheVariants as listing;
ghost use Rattle.rdl_block_numbers.specs.Named as names;
ghost use Rattle.rdl_block_numbers.specs.Named.{AreNames};
ghost use Rattle.rdl_block_numbers.specs.Numbers.{AreNodeNumbers, AreNumbersIn, AreOwn, AreViewed, own_number};

use crate::fields::{Names, names_of};
use crate::listed::{Listing, marks, row_of};
use crate::ranks::ranks;
use rb_base::NoMemory;
use rdl_fields::primary;
use rdl_nodes::Row;
use rdl_tree::{Elab, Kind};
use std::alloc::Global;

/// For each node its number in the list of its kind (signals, registers, and fields of registers that are no aliases), or the list's
/// length where it is not in it, and for each field the number of the field that it is a view of.
#[derive(Drop)]
pub struct NodeNumbers {
    pub own: Vec<u32>,
    pub viewed: Vec<u32>,
}

/// The number of each node in a list, or the list's length where it is not in it.
fn numbers_in(
    alloc: Global,
    elab: &Elab<'_>,
    rows: &[Row<'_>],
    listing: Listing,
) -> Result<Vec<u32>, NoMemory>
    requires clean { IsClean elab.now }
    requires rows { AreRows elab.now rows.now }
    ensures { IfOk result (λ ns. AreNumbersIn listing elab.now ns.items) }
{
    let marks = marks(alloc, elab, rows, listing)?;
    let numbers = ranks(alloc, &marks)?;
    Ok(numbers)
}

/// The number of a node of this kind, by those that it would have as a signal, a field and a register.
fn own_at(kind: Kind, signal: u32, field: u32, register: u32) -> u32
    ensures { (ns : List Instance) (n : Instance) → kind ≡ kind_of n → signal ≡ number_of n (all_signals ns) → field ≡ number_of n (all_fields ns) → register ≡ number_of n (registers ns) → result ≡ own_number ns n }
{
    match kind {
        Kind::Signal => signal,
        Kind::Field => field,
        _ => register,
    }
}

/// The numbers of all nodes in the lists of their kinds, by those in each list.
fn own_of(
    alloc: Global,
    elab: &Elab<'_>,
    rows: &[Row<'_>],
    signals: &[u32],
    fields: &[u32],
    registers: &[u32],
) -> Result<Vec<u32>, NoMemory>
    requires clean { IsClean elab.now }
    requires rows { AreRows elab.now rows.now }
    requires signals { AreNumbersIn listing.Signals elab.now signals.now }
    requires fields { AreNumbersIn listing.Fields elab.now fields.now }
    requires registers { AreNumbersIn listing.Registers elab.now registers.now }
    ensures { IfOk result (λ ns. AreOwn elab.now ns.items) }
{
    let mut own = Vec::new(alloc);
    for at in 0..rows.len() {
        let row = &rows[at];
        own.push(own_at(row.node.kind, signals[at], fields[at], registers[at]))?;
    }
    Ok(own)
}

/// The numbers of all nodes in the lists of their kinds.
fn own_numbers(alloc: Global, elab: &Elab<'_>, rows: &[Row<'_>]) -> Result<Vec<u32>, NoMemory>
    requires clean { IsClean elab.now }
    requires rows { AreRows elab.now rows.now }
    ensures { IfOk result (λ ns. AreOwn elab.now ns.items) }
{
    let signals = numbers_in(alloc, elab, rows, Listing::Signals)?;
    let fields = numbers_in(alloc, elab, rows, Listing::Fields)?;
    let registers = numbers_in(alloc, elab, rows, Listing::Registers)?;
    own_of(alloc, elab, rows, &signals, &fields, &registers)
}

/// The number of the register that the node of a number is an alias of.
fn primary_of(rows: &[Row<'_>], node: u32) -> Option<u32>
    ensures { (e : AnyElab) (r : Instance) (up : List Instance) → IsClean e → AreRows e rows.now → IsParent (lineages_of e) (Some node) (r ∷ up) → TellsPrimary e r result }
{
    let Some(row) = row_of(rows, node) else {
        return None;
    };
    primary(&row)
}

/// A number, or 0 where there is none.
fn or_zero(number: Option<u32>) -> u32
    ensures { result ≡ names.or_zero number }
{
    match number {
        Some(number) => number,
        None => 0,
    }
}

/// The number of the field that a node is a view of, where it is a field and this its own number.
fn viewed_at(rows: &[Row<'_>], row: &Row<'_>, own: u32, fields: &Names<'_>) -> u32
    ensures { (e : AnyElab) (k : ℕ) (l : Lineage) (r : Instance) (up : List Instance) → IsClean e → AreRows e rows.now → AreNames e fields.now → IsRow e (lineages_of e) k row.now l → l.ancestors ≡ r ∷ up → own ≡ number_of l.node (all_fields (nodes_of e))
        → result ≡ views.first_number (views.viewed (nodes_of e) r l.node) (all_fields (nodes_of e)) }
{
    let Some(parent) = row.parent else {
        return own;
    };
    let Some(primary) = primary_of(rows, parent) else {
        return own;
    };
    or_zero(fields.find(primary, row.node.name))
}

/// For each field the number of the field that it is a view of, by the numbers of all nodes.
fn viewed_numbers(
    alloc: Global,
    elab: &Elab<'_>,
    rows: &[Row<'_>],
    own: &[u32],
    fields: &Names<'_>,
) -> Result<Vec<u32>, NoMemory>
    requires clean { IsClean elab.now }
    requires rows { AreRows elab.now rows.now }
    requires own { AreOwn elab.now own.now }
    requires fields { AreNames elab.now fields.now }
    ensures { IfOk result (λ ns. AreViewed elab.now ns.items) }
{
    let mut viewed = Vec::new(alloc);
    for at in 0..rows.len() {
        viewed.push(viewed_at(rows, &rows[at], own[at], fields))?;
    }
    Ok(viewed)
}

/// The numbers of the nodes of a tree, of which these are the rows. The only error is want of memory.
pub fn node_numbers(
    alloc: Global,
    elab: &Elab<'_>,
    rows: &[Row<'_>],
) -> Result<NodeNumbers, NoMemory>
    requires clean { IsClean elab.now }
    requires rows { AreRows elab.now rows.now }
    ensures { IfOk result (AreNodeNumbers elab.now) }
{
    let own = own_numbers(alloc, elab, rows)?;
    let fields = names_of(alloc, elab, rows, &own)?;
    let viewed = viewed_numbers(alloc, elab, rows, &own, &fields)?;
    Ok(NodeNumbers { own, viewed })
}
