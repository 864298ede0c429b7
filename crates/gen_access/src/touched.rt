//! Which fields an access touches.

ghost use Rattle.std.specs.Prelude.{◌≡◌, ◌&&◌, ℕ, IfOk, IsTrue, OnOk, length, fold, if◌then◌else◌};
ghost use Rattle.rtl_net.specs.Value.{bit_of};
ghost use Rattle.rtl_net.specs.Net.{Grows, Stands};
ghost use Rattle.rb_model.specs.Sound.{IsSound, WordIsSound, view_passes};
ghost use Rattle.gen_scene.specs.Bases.{IsBase};
ghost use Rattle.block_plan.specs.Wanted as wants;
ghost use Rattle.gen_scene.specs.Items as items;
ghost use Rattle.gen_scene.specs.Worth.{IsWorth};
ghost use Rattle.gen_access.specs.Tables.{AreNodes, AreWorth, Changes};
ghost use Rattle.gen_access.specs.Words.{AreHitsOf, SlotFits, below, is_at, passes_some, read_word, reads_through, written_word, writes_through};
ghost use Rattle.gen_access.specs.Touches as spec;

use crate::reached::WordHits;
use crate::software::view_at;
use block_plan::is_wanted;
use gen_scene::{Base, Marks};
use net_gates::{either, zero};
use rb_base::NoMemory;
use rb_effects::has_read_effect;
use rb_model::{Field, RefItem, Slot, View, Word};
use rtl_net::{Id, Netlist};
use std::alloc::Global;

/// What an output says of a field: that the access modifies it (`swmod`), or that it reads or writes it (`swacc`).
#[derive(Clone, Copy)]
enum Strobe {
    Modified,
    Accessed,
}

/// How an access touches a field through a view.
#[derive(Clone, Copy)]
enum Touch {
    ReadsWithEffect,
    Reads,
    Writes,
}

/// The marks that are made in one pass: of which kind, for which touch, and the items of the block that are wanted, by their
/// places.
#[derive(Clone, Copy)]
struct Marking<'a> {
    base: &'a Base<'a>,
    wanted: &'a [bool],
    mark: Strobe,
    touch: Touch,
}

/// The item that a mark is of the field of a number.
fn mark_item(mark: Strobe, number: u32) -> RefItem
    ensures { result ≡ spec.mark_item mark number }
{
    match mark {
        Strobe::Modified => RefItem::SwMod(number),
        Strobe::Accessed => RefItem::SwAcc(number),
    }
}

/// Whether an access through a view touches its field so.
fn touches(touch: Touch, view: &View) -> bool
    ensures { result ≡ spec.touches touch view.now }
{
    match touch {
        Touch::ReadsWithEffect => has_read_effect(view.on_read),
        Touch::Reads => view.reads,
        Touch::Writes => view.writes,
    }
}

impl<'a> Marking<'a> {
    /// The words through which an access touches fields so.
    fn words(&self) -> &'a [Word]
        ensures { result.now ≡ spec.touch_words self.now.base.now.block.now self.now.touch }
    {
        let block = self.base.block;
        match self.touch {
            Touch::ReadsWithEffect => &block.reads.items,
            Touch::Reads => &block.reads.items,
            Touch::Writes => &block.writes.items,
        }
    }

    /// Whether an access through a view makes a mark that is wanted.
    fn counts(&self, view: &View) -> bool
        ensures { result ≡ (wants.is_wanted self.now.wanted.now (spec.mark_item self.now.mark view.now.field) && spec.touches self.now.touch view.now) }
    {
        is_wanted(self.wanted, mark_item(self.mark, view.field)) && touches(self.touch, view)
    }

    /// Puts the mark of a slot's field behind what the table has of each field.
    fn slot(&self, net: &mut Netlist, slot: Slot, hit: Id, table: &mut [Id]) -> Result<(), NoMemory>
        requires slot { SlotFits self.now.base.now.block.now slot }
        requires hit { Stands net.old hit 1 }
        requires table { AreNodes self.now.base.now.block.now net.old table.old spec.one_bit }
        ensures older { Grows net.old net.new }
        ensures name { net.new.name ≡ net.old.name }
        ensures table { OnOk result (AreNodes self.now.base.now.block.now net.new table.new spec.one_bit) }
        ensures changes { OnOk result ((j : ℕ) → (IsTrue (view_passes self.now.base.now.block.now (spec.touches self.now.touch) slot)
            → IsWorth self.now.base.now.block.now self.now.base.now.inlet net.old hit 1 (λ n v. bit_of (is_at j (spec.touch_reached self.now.touch n.access))))
            → Changes self.now.base.now.block.now self.now.base.now.inlet net.old net.new table.old table.new spec.one_bit
            (λ n v k f x. if is_at j (spec.touch_reached self.now.touch n.access) then spec.slot_mark self.now.base.now.block.now self.now.wanted.now self.now.mark self.now.touch n v k f x slot else x)) }
    {
        let view = view_at(self.base.block, slot.view);
        let number = view.field as usize;
        if !self.counts(view) {
            return Ok(());
        }
        let id = either(net, hit, table[number])?;
        table[number] = id;
        Ok(())
    }

    /// Puts the marks of a word's fields behind what the table has of each field.
    fn word(
        &self,
        net: &mut Netlist,
        word: &Word,
        hit: Id,
        table: &mut [Id],
    ) -> Result<(), NoMemory>
        requires word { WordIsSound self.now.base.now.block.now word.now }
        requires hit { Stands net.old hit 1 }
        requires table { AreNodes self.now.base.now.block.now net.old table.old spec.one_bit }
        ensures older { Grows net.old net.new }
        ensures name { net.new.name ≡ net.old.name }
        ensures table { OnOk result (AreNodes self.now.base.now.block.now net.new table.new spec.one_bit) }
        ensures changes { OnOk result ((j : ℕ) → (IsTrue (passes_some self.now.base.now.block.now (spec.touches self.now.touch) word.now.slots)
            → IsWorth self.now.base.now.block.now self.now.base.now.inlet net.old hit 1 (λ n v. bit_of (is_at j (spec.touch_reached self.now.touch n.access))))
            → Changes self.now.base.now.block.now self.now.base.now.inlet net.old net.new table.old table.new spec.one_bit
            (λ n v k f x. if is_at j (spec.touch_reached self.now.touch n.access)
            then fold (spec.slot_mark self.now.base.now.block.now self.now.wanted.now self.now.mark self.now.touch n v k f) x word.now.slots else x)) }
    {
        for slot in &word.slots.items {
            self.slot(net, *slot, hit, table)?;
        }
        Ok(())
    }

    /// Puts the marks of all words' fields behind what the table has of each field.
    fn all(&self, net: &mut Netlist, hits: &[Id], table: &mut [Id]) -> Result<(), NoMemory>
        requires sound { IsSound self.now.base.now.block.now }
        requires hits { AreHitsOf self.now.base.now.block.now self.now.base.now.inlet net.old (spec.touch_words self.now.base.now.block.now self.now.touch) (spec.touch_reached self.now.touch) (spec.touch_ways self.now.touch) hits.now }
        requires table { AreNodes self.now.base.now.block.now net.old table.old spec.one_bit }
        ensures older { Grows net.old net.new }
        ensures name { net.new.name ≡ net.old.name }
        ensures table { OnOk result (AreNodes self.now.base.now.block.now net.new table.new spec.one_bit) }
        ensures changes { OnOk result (Changes self.now.base.now.block.now self.now.base.now.inlet net.old net.new table.old table.new spec.one_bit
            (below (spec.touch_words self.now.base.now.block.now self.now.touch) (spec.touch_reached self.now.touch)
            (spec.slot_mark self.now.base.now.block.now self.now.wanted.now self.now.mark self.now.touch) (length (spec.touch_words self.now.base.now.block.now self.now.touch)))) }
    {
        for (number, word) in self.words().iter().enumerate() {
            self.word(net, word, hits[number], table)?;
        }
        Ok(())
    }
}

/// A table of zeros.
fn no_marks(alloc: Global, net: &mut Netlist, base: &Base) -> Result<Vec<Id>, NoMemory>
    ensures older { Grows net.old net.new }
    ensures name { net.new.name ≡ net.old.name }
    ensures table { IfOk result (λ t. AreNodes base.now.block.now net.new t.items spec.one_bit) }
    ensures worth { IfOk result (λ t. AreWorth base.now.block.now base.now.inlet net.new t.items spec.one_bit (λ k f n v. 0)) }
{
    let block = base.block;
    let fields: &[Field] = &block.fields.items;
    let none = zero(net, 1)?;
    let table = vec![in alloc; none; fields.len()]?;
    Ok(table)
}

/// Puts the marks of one kind behind what the table has of each field.
#[tactic(auto, using(rtl_net::proofs::Nets::building))]
fn put_marks(
    net: &mut Netlist,
    base: &Base,
    hits: &WordHits,
    wanted: &[bool],
    kind: (Strobe, Touch),
    table: &mut [Id],
) -> Result<(), NoMemory>
    requires sound { IsSound base.now.block.now }
    requires reads { AreHitsOf base.now.block.now base.now.inlet net.old (spec.touch_words base.now.block.now kind.1) (spec.touch_reached kind.1) (spec.touch_ways kind.1) hits.now.reads.items }
    requires writes { AreHitsOf base.now.block.now base.now.inlet net.old base.now.block.now.writes written_word writes_through hits.now.writes.items }
    requires table { AreNodes base.now.block.now net.old table.old spec.one_bit }
    ensures older { Grows net.old net.new }
    ensures name { net.new.name ≡ net.old.name }
    ensures table { OnOk result (AreNodes base.now.block.now net.new table.new spec.one_bit) }
    ensures changes { OnOk result (Changes base.now.block.now base.now.inlet net.old net.new table.old table.new spec.one_bit
        (spec.marks_step base.now.block.now wanted.now kind.0 kind.1)) }
{
    let (mark, reading) = kind;
    let by_reads = Marking {
        base,
        wanted,
        mark,
        touch: reading,
    };
    by_reads.all(net, &hits.reads, table)?;
    let by_writes = Marking {
        base,
        wanted,
        mark,
        touch: Touch::Writes,
    };
    by_writes.all(net, &hits.writes, table)?;
    Ok(())
}

/// The marks of one kind of each field.
#[tactic(auto, using(rtl_net::proofs::Nets::building))]
fn marked(
    alloc: Global,
    net: &mut Netlist,
    base: &Base,
    hits: &WordHits,
    wanted: &[bool],
    mark: Strobe,
    reading: Touch,
) -> Result<Vec<Id>, NoMemory>
    requires sound { IsSound base.now.block.now }
    requires reading { spec.IsReading reading }
    requires reads { AreHitsOf base.now.block.now base.now.inlet net.old (spec.touch_words base.now.block.now reading) (spec.touch_reached reading) (spec.touch_ways reading) hits.now.reads.items }
    requires writes { AreHitsOf base.now.block.now base.now.inlet net.old base.now.block.now.writes written_word writes_through hits.now.writes.items }
    ensures older { Grows net.old net.new }
    ensures name { net.new.name ≡ net.old.name }
    ensures long { IfOk result (λ t. length t.items ≡ length base.now.block.now.fields) }
    ensures worth { IfOk result (λ t. AreWorth base.now.block.now base.now.inlet net.new t.items spec.one_bit
        (λ k f n v. if wants.is_wanted wanted.now (spec.mark_item mark k) then spec.mark_value base.now.block.now reading n k else 0)) }
{
    let mut table = no_marks(alloc, net, base)?;
    put_marks(net, base, hits, wanted, (mark, reading), &mut table)?;
    Ok(table)
}

/// The two marks of each field.
fn paired(alloc: Global, modified: &[Id], accessed: &[Id]) -> Result<Vec<Marks>, NoMemory>
    requires { length modified.now ≡ length accessed.now }
    ensures { IfOk result (λ all. spec.ArePaired modified.now accessed.now all.items) }
{
    let mut all = Vec::with_capacity(alloc, modified.len())?;
    for number in 0..modified.len() {
        all.push(Marks {
            modified: modified[number],
            accessed: accessed[number],
        })?;
    }
    Ok(all)
}

/// The marks of each field, where they are wanted: whether the access of the edge modifies it, and whether it reads or writes it.
/// `hits` says which words the access reaches. The only error is want of memory, after which the netlist has some of the nodes.
#[tactic(auto, using(rtl_net::proofs::Nets::building))]
pub fn marks(
    alloc: Global,
    net: &mut Netlist,
    base: &Base,
    hits: &WordHits,
    wanted: &[bool],
) -> Result<Vec<Marks>, NoMemory>
    requires base { IsBase net.old base.now }
    requires reads { AreHitsOf base.now.block.now base.now.inlet net.old base.now.block.now.reads read_word reads_through hits.now.reads.items }
    requires writes { AreHitsOf base.now.block.now base.now.inlet net.old base.now.block.now.writes written_word writes_through hits.now.writes.items }
    ensures older { Grows net.old net.new }
    ensures name { net.new.name ≡ net.old.name }
    ensures marks { IfOk result (λ all. items.AreMarks base.now.block.now base.now.inlet net.new wanted.now all.items) }
{
    let effects = Touch::ReadsWithEffect;
    let modified = marked(alloc, net, base, hits, wanted, Strobe::Modified, effects)?;
    let accessed = marked(
        alloc,
        net,
        base,
        hits,
        wanted,
        Strobe::Accessed,
        Touch::Reads,
    )?;
    let all = paired(alloc, &modified, &accessed)?;
    Ok(all)
}
