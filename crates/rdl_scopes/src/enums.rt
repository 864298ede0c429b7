//! The enumerations of a body (SystemRDL 2.0, clause 6), as a table and as lists in the arena.

ghost use Rattle.std.specs.Prelude.{◌≡◌, ℕ, List, [], ◌∷◌, IfOk, OnOk, Some, slice_get};
ghost use Rattle.rdl_tree.specs.InOrder.{IsInOrder};
ghost use Rattle.rdl_tree.specs.declared.expr.Name.{Name as AnyName};
ghost use Rattle.rdl_tree.specs.declared.item.Item.{Item as AnyItem};
ghost use Rattle.rdl_values.specs.Bodies.{Body, around};
ghost use Rattle.rdl_values.specs.Enums as enums;
ghost use Rattle.rdl_values.specs.Phase3.{of_enums};
ghost use Rattle.rdl_values.specs.Values.{Around};
ghost use Rattle.rdl_failures.specs.Noted.{with_all};
ghost use Rattle.rdl_failures.specs.Shown.{IsAlike};
ghost use Rattle.rdl_scopes.specs.Closed.{AreClosedOf};
ghost use Rattle.rdl_scopes.specs.Entries.{IsValued, judged_in};
ghost use Rattle.rdl_scopes.specs.Opened.{Adds, AddsItem, IsOpened, bodies, state_of};

use crate::closed::ClosedEnums;
use crate::entries::{Judgement, ValuedEnum, judge_entries};
use bumpalo::Bump;
use bumpalo::collections::into_bump_slice;
use rb_base::NoMemory;
use rdl_failures::Failures;
use rdl_tree::{Entry, EnumValues, Item};
use rdl_values::{Chain, Table};
use std::alloc::Global;

/// The bodies round a body, by their numbers in the list of all tables, the nearest first.
#[derive(Clone, Copy)]
pub struct Outer<'t, 'c, 'a> {
    pub tables: &'t [Table<'a>],
    pub numbers: &'c [usize],
}

/// The names of a body: its parameters and its enumerations in a table, and its enumerations in order.
#[derive(Drop)]
pub struct Opened<'a> {
    pub table: Table<'a>,
    pub enums: &'a [EnumValues<'a>],
}

/// The names of a body as far as its items have been read.
#[derive(Drop)]
pub struct Opening<'a> {
    arena: &'a Bump,
    table: Table<'a>,
    enums: Vec<EnumValues<'a>, &'a Bump>,
}

impl<'a> Opening<'a> {
    /// No item has been read: there are only parameters.
    pub fn new(arena: &'a Bump, table: Table<'a>) -> Self
        ensures { state_of result ≡ (record { table = table.entry; enums = [] }) }
    {
        Opening {
            arena,
            table,
            enums: Vec::new(arena),
        }
    }

    /// The names so far.
    pub fn table(&self) -> &Table<'a>
        ensures { result.now ≡ self.now.table }
    {
        &self.table
    }

    // The entries of an enumeration, judged where the names so far and the bodies round them are visible.
    fn judged(
        &self,
        alloc: Global,
        entries: &[Entry<'a>],
        outer: &Outer<'_, '_, 'a>,
    ) -> Result<Judgement<'a>, NoMemory>
        ensures { IfOk result (λ r. (around : Around) → IsAlike (self.now.table ∷ bodies outer.now) around → enums.judged around entries.now ≡ judged_in r) }
    {
        let visible = Chain {
            nearest: Some(&self.table),
            tables: outer.tables,
            numbers: outer.numbers,
        };
        judge_entries(alloc, entries, &visible)
    }

    // Puts an enumeration behind the others.
    fn add(&mut self, of: ValuedEnum<'a>) -> Result<(), NoMemory>
        ensures { OnOk result ((name : AnyName) (entries : List (AnyName × ℕ)) → IsValued name entries of.entry → Adds name entries (state_of self.old) (state_of self.new)) }
    {
        self.table.add_enum(of.table)?;
        self.enums.push(of.values)?;
        Ok(())
    }

    // Reads an item behind the others, and puts in the failures of the enumeration that it defines.
    pub fn read(
        &mut self,
        alloc: Global,
        item: &Item<'a>,
        outer: &Outer<'_, '_, 'a>,
        failures: &mut Failures,
    ) -> Result<(), NoMemory>
        ensures { OnOk result (AddsItem outer.now item.now (state_of self.old) (state_of self.new) failures.old failures.new) }
    {
        let Item::EnumDef { name, entries } = item else {
            return Ok(());
        };
        let judgement = self.judged(alloc, entries, outer)?;
        judgement.note(alloc, failures)?;
        let of = judgement.valued(alloc, self.arena, *name)?;
        self.add(of)
    }

    // The same of the item of a number, where the text's closed enumerations are known and their failures are put in.
    fn read_known(
        &mut self,
        alloc: Global,
        at: usize,
        item: &Item<'a>,
        closed: &ClosedEnums<'a>,
        outer: &Outer<'_, '_, 'a>,
        failures: &mut Failures,
    ) -> Result<(), NoMemory>
        ensures { OnOk result ((items : List AnyItem) → AreClosedOf closed.now items failures.old → slice_get items at ≡ Some item.now → AddsItem outer.now item.now (state_of self.old) (state_of self.new) failures.old failures.new) }
    {
        match closed.at(at) {
            Some(of) => self.add(of.again()?),
            None => self.read(alloc, item, outer, failures),
        }
    }
}

/// The names of a body, from a table of its parameters: with each item the enumeration that it defines. It puts in the failures of
/// enumerations: V rules in the values of entries, of each enumeration the first, and E14. The text's closed enumerations are taken as
/// they are.
pub fn open_names<'a>(
    alloc: Global,
    arena: &'a Bump,
    table: Table<'a>,
    items: &[Item<'a>],
    closed: &ClosedEnums<'a>,
    outer: &Outer<'_, '_, 'a>,
    failures: &mut Failures,
) -> Result<Opened<'a>, NoMemory>
    requires no_enums { table.enums ≡ [] }
    requires in_order { IsInOrder items.now }
    requires closed { AreClosedOf closed.now items.now failures.old }
    ensures opened { IfOk result (IsOpened table.entry.bound items.now outer.now) }
    ensures noted { OnOk result ((b : Body) → b.items ≡ items.now → b.names.bound ≡ table.entry.bound → IsAlike (bodies outer.now) (around b.outer)
        → failures.new ≡ with_all (of_enums b) failures.old) }
{
    let mut opening = Opening::new(arena, table);
    for (at, item) in items.iter().enumerate() {
        opening.read_known(alloc, at, item, closed, outer, failures)?;
    }
    Ok(Opened {
        table: opening.table,
        enums: into_bump_slice(opening.enums),
    })
}
