//! Enumerations of which no entry's value names anything. They are the same in every body of a text, so they are judged once.

ghost use Rattle.std.specs.Prelude.{◌≡◌, [], IfOk, IfSome, OnOk};
ghost use Rattle.rdl_values.specs.Enums as enums;
ghost use Rattle.rdl_values.specs.Phase3.{of_entries};
ghost use Rattle.rdl_values.specs.Views as view;
ghost use Rattle.rdl_values.specs.Views.{item_is};
ghost use Rattle.rdl_failures.specs.Noted.{with_all};
ghost use Rattle.rdl_closed.specs.Closed.{AreClosed};
ghost use Rattle.rdl_scopes.specs.Entries.{IsValued, judged_in};

use crate::entries::{Judgement, ValuedEnum, judge_entries};
use bumpalo::Bump;
use rb_base::NoMemory;
use rdl_closed::are_closed;
use rdl_failures::Failures;
use rdl_tree::{Entry, Item, Name};
use rdl_values::Chain;
use std::alloc::Global;
use std::collections::BTreeMap;

/// Those of a text, by the numbers of their items.
#[derive(Drop)]
pub struct ClosedEnums<'a> {
    by_item: BTreeMap<usize, ValuedEnum<'a>>,
}

// The entries of an enumeration where nothing is visible.
fn judged_alone<'a>(alloc: Global, entries: &[Entry<'a>]) -> Result<Judgement<'a>, NoMemory>
    ensures { IfOk result (λ r. enums.judged [] entries.now ≡ judged_in r) }
{
    let nothing = Chain {
        nearest: None,
        tables: &[],
        numbers: &[],
    };
    judge_entries(alloc, entries, &nothing)
}

// The enumeration of this name with these entries, the failures of which are put in.
fn judge_alone<'a>(
    alloc: Global,
    arena: &'a Bump,
    name: Name<'a>,
    entries: &[Entry<'a>],
    failures: &mut Failures,
) -> Result<ValuedEnum<'a>, NoMemory>
    ensures valued { IfOk result (IsValued name.entry (enums.judged [] entries.now).entries) }
    ensures noted { OnOk result (failures.new ≡ with_all (of_entries (enums.judged [] entries.now)) failures.old) }
{
    let judgement = judged_alone(alloc, entries)?;
    judgement.note(alloc, failures)?;
    judgement.valued(alloc, arena, name)
}

// The enumeration that an item defines, if its entries' values name nothing.
fn closed_in<'s, 'a>(item: &'s Item<'a>) -> Option<(Name<'a>, &'s [Entry<'a>])>
    ensures { IfSome result (λ r. (item_is item.now ≡ view.enumeration r.0 r.1.now) × AreClosed r.1.now) }
{
    match item {
        Item::EnumDef { name, entries } if are_closed(entries) => Some((*name, entries)),
        _ => None,
    }
}

impl<'a> ClosedEnums<'a> {
    ghost use Rattle.std.specs.Prelude.{◌≡◌, ℕ, IfOk, None, OnOk, Some, cond, nat_eq, option_copied};
    ghost use Rattle.rdl_scopes.specs.Closed.{AreJudged, Reads, known_at};

    // None yet.
    fn new(alloc: Global) -> Self
        ensures { (k : ℕ) → known_at result k ≡ None }
    {
        ClosedEnums {
            by_item: BTreeMap::new(alloc),
        }
    }

    // That of an item, if it is one of them.
    pub(crate) fn at(&self, item: usize) -> Option<&ValuedEnum<'a>>
        ensures { option_copied result ≡ known_at self.now item }
    {
        self.by_item.get(&item)
    }

    // Puts in that of an item.
    fn put(&mut self, item: usize, of: ValuedEnum<'a>) -> Result<(), NoMemory>
        ensures { OnOk result ((k : ℕ) → known_at self.new k ≡ cond (nat_eq item k) (Some of.entry) (known_at self.old k)) }
    {
        self.by_item.insert(item, of)?;
        Ok(())
    }

    // Reads the item of a number.
    fn read(
        &mut self,
        alloc: Global,
        arena: &'a Bump,
        at: usize,
        item: &Item<'a>,
        failures: &mut Failures,
    ) -> Result<(), NoMemory>
        ensures { OnOk result (Reads at item.now self.old self.new failures.old failures.new) }
    {
        let Some((name, entries)) = closed_in(item) else {
            return Ok(());
        };
        let of = judge_alone(alloc, arena, name, entries, failures)?;
        self.put(at, of)
    }

    /// Those among these items. Their failures are put in: V rules in the values of entries, of each enumeration the first, and E14.
    pub fn of(
        alloc: Global,
        arena: &'a Bump,
        items: &[Item<'a>],
        failures: &mut Failures,
    ) -> Result<Self, NoMemory>
        ensures { IfOk result (λ c. AreJudged c items.now failures.old failures.new) }
    {
        let mut closed = ClosedEnums::new(alloc);
        for (at, item) in items.iter().enumerate() {
            closed.read(alloc, arena, at, item, failures)?;
        }
        Ok(closed)
    }
}
