//! What a block finds at an edge, and the values of its items.
ghost use Rattle.std.specs.Prelude.{◌≡◌};

use crate::plain::PlainField;
use crate::quiet::Brief;
use crate::reset::signal_pin;
use crate::sight::{FieldNow, FieldState};
use crate::sources::{Source, source_at};
use crate::table::{item_value, number_at};
use block_plan::Plan;
use rb_effects::ones;
use rb_model::{Block, RefItem};

/// What is held from one edge to the next: of each field, and of a bus with a wait state that the vector before carried
/// an access, and the data and the error that answer it.
#[derive(Drop)]
pub(crate) struct Held {
    pub fields: Vec<FieldState>,
    pub waited: bool,
    pub data: u64,
    pub error: bool,
}

/// Whether an access modifies a field, and whether it reads or writes it.
#[derive(Clone, Copy)]
pub(crate) struct Strobes {
    pub modified: bool,
    pub accessed: bool,
}

/// A block at an edge, with the pins, what it holds, the marks of the access, what is looked at of each field, for each place the
/// next whose field isn't light, the fields that one pin moves, where the
/// items' values come from, and whether some reset of a field is asserted.
#[derive(Clone, Copy)]
pub(crate) struct EdgeState<'a> {
    pub block: &'a Block,
    pub plan: &'a Plan,
    pub pins: &'a [u64],
    pub held: &'a Held,
    pub marks: &'a [Strobes],
    pub briefs: &'a [Brief],
    pub next: &'a [usize],
    pub steps: &'a [PlainField],
    pub sources: &'a [Source],
    pub is_reset: bool,
}

impl<'a> EdgeState<'a> {
    ghost use Rattle.std.specs.Prelude.{◌≡◌, ◌<◌, ◌≤◌, ℕ, true, false, None, Some, Contains, MatchOption, length, map, slice_get};
    ghost use Rattle.block_plan.specs.Plan.{members_of};
    ghost use Rattle.std.specs.List.{enumerate_from, list_any};
    ghost use Rattle.std.specs.Option.{option_map, option_map_or};
    ghost use Rattle.rb_model.specs.declared.kinds.RefItem.{RefItem};
    ghost use Rattle.rb_model.specs.Items as spec;
    ghost use Rattle.rb_model.specs.Items.{Access, AreItemValues, ItemValues, items};
    ghost use Rattle.rb_model.specs.References.{IsOrdered};
    ghost use Rattle.rb_model.specs.Ports.{signal_name};
    ghost use Rattle.rb_model.specs.Run.{pins_of};
    ghost use Rattle.rb_machine.specs.Table.{place_of, values_of};
    ghost use Rattle.rb_model.specs.declared.block.Field.{Field};
    ghost use Rattle.rb_model.specs.Kept.{Val, is_storage};
    ghost use Rattle.rb_machine.specs.Quiet.{brief_of, rests};
    ghost use Rattle.rb_machine.specs.Sources.{AreSources, IsSourceOf};
    ghost use Rattle.rb_machine.specs.Scene.{AreStrobes, IsAt, IsEdgeState, map_of, mark_at, now_in, raises_line};

    /// The field of a number, if there is one.
    pub fn at(&self, table: &'a [u64], number: usize) -> Option<FieldNow<'a>>
        requires { IsEdgeState self.now }
        ensures { MatchOption result (slice_get self.now.block.now.fields number ≡ None) (IsAt self.now table.now number) }
    {
        let block = self.block;
        let field = block.fields.items.get(number)?;
        let places = self.plan.fields.get(number)?;
        let state = self.held.fields.get(number)?;
        Some(FieldNow {
            field,
            places,
            pins: self.pins,
            table,
            state: *state,
        })
    }

    /// What is looked at of the field of a number, if there is one.
    fn brief(&self, number: usize) -> Option<Brief>
        requires { IsEdgeState self.now }
        ensures { result ≡ option_map brief_of (slice_get self.now.block.now.fields number) }
    {
        match self.briefs.get(number) {
            None => None,
            Some(brief) => Some(*brief),
        }
    }

    /// Whether the field of a number keeps a value.
    fn stores(&self, number: u32) -> bool
        requires { IsEdgeState self.now }
        ensures { result ≡ option_map_or (λ f. is_storage f.class) (slice_get self.now.block.now.fields number) false }
    {
        match self.brief(number as usize) {
            None => false,
            Some(brief) => brief.stores,
        }
    }

    /// The first place from a place on whose field doesn't rest, or one past all fields.
    pub fn awake_from(&self, number: usize) -> usize
        requires { IsEdgeState self.now }
        ensures onward { number ≤ result }
        ensures rest { (k : ℕ) (f : Field) → number ≤ k → k < result → slice_get self.now.block.now.fields k ≡ Some f → rests self.now.is_reset f ≡ true }
        ensures awake { (f : Field) → slice_get self.now.block.now.fields result ≡ Some f → rests self.now.is_reset f ≡ false }
    {
        if self.is_reset {
            return number;
        }
        match self.next.get(number) {
            None => number,
            Some(next) => *next,
        }
    }

    /// What the access does to the field of a number.
    fn mark(&self, number: u32) -> Strobes
        ensures { result ≡ mark_at self.now.marks.now number }
    {
        match self.marks.get(number as usize) {
            Some(mark) => *mark,
            None => Strobes {
                modified: false,
                accessed: false,
            },
        }
    }

    /// Whether a field raises the line intr of a register, or its line halt.
    fn raises(&self, table: &[u64], number: u32, reg: u32, halt: bool) -> bool
        requires { IsEdgeState self.now }
        ensures { result ≡ option_map_or (λ f. raises_line (values_of table.now) halt reg (number, f)) (slice_get self.now.block.now.fields number) false }
    {
        match self.at(table, number as usize) {
            None => false,
            Some(at) => at.raises(item_value(table, RefItem::Field(number)), reg, halt),
        }
    }

    /// The interrupts that are listed for a register.
    fn members(&self, reg: u32) -> &[u32]
        ensures { result.now ≡ members_of self.now.plan.now reg }
    {
        match self.plan.members.get(reg as usize) {
            Some(members) => members,
            None => &[],
        }
    }

    /// Whether a field raises the line intr of a register, or its line halt.
    fn is_raised(&self, table: &[u64], reg: u32, halt: bool) -> bool
        requires { IsEdgeState self.now }
        ensures { result ≡ list_any (raises_line (values_of table.now) halt reg) (enumerate_from 0 self.now.block.now.fields) }
    {
        for number in self.members(reg) {
            if self.raises(table, *number, reg, halt) {
                return true;
            }
        }
        false
    }

    /// The value that is held of the field of a number, or 0 where there is none.
    fn held_value(&self, number: u32) -> u64
        ensures { result ≡ map_of self.now.held.now (Val number) }
    {
        match self.held.fields.get(number as usize) {
            None => 0,
            Some(state) => state.value,
        }
    }

    /// The value that the field of a number has at the edge, by its class.
    fn class_value(&self, table: &[u64], number: u32) -> u64
        requires { IsEdgeState self.now }
        ensures { (a : Access) → result ≡ spec.made self.now.block.now (now_in self.now a) (values_of table.now) (RefItem.Field number) }
    {
        match self.at(table, number as usize) {
            None => 0,
            Some(at) => at.class_value(),
        }
    }

    /// The value that the field of a number has at the edge. The field itself is looked at only where it keeps none.
    fn field_value(&self, table: &[u64], number: u32) -> u64
        requires { IsEdgeState self.now }
        ensures { (a : Access) → result ≡ spec.made self.now.block.now (now_in self.now a) (values_of table.now) (RefItem.Field number) }
    {
        if self.stores(number) {
            return self.held_value(number);
        }
        self.class_value(table, number)
    }

    /// Whether all bits of the field of a number are 1.
    fn all_ones(&self, table: &[u64], number: u32) -> u64
        requires { IsEdgeState self.now }
        ensures { (a : Access) → result ≡ spec.made self.now.block.now (now_in self.now a) (values_of table.now) (RefItem.Anded number) }
    {
        match self.brief(number as usize) {
            None => 0,
            Some(brief) => {
                u64::from(item_value(table, RefItem::Field(number)) == ones(brief.width))
            }
        }
    }

    /// Whether the counter of a number has reached its threshold above.
    fn incr_threshold(&self, table: &[u64], number: u32) -> u64
        requires { IsEdgeState self.now }
        ensures { (a : Access) → result ≡ spec.made self.now.block.now (now_in self.now a) (values_of table.now) (RefItem.IncrThreshold number) }
    {
        match self.at(table, number as usize) {
            None => 0,
            Some(at) => at.incr_threshold(item_value(table, RefItem::Field(number))),
        }
    }

    /// Whether the counter of a number has reached its threshold below.
    fn decr_threshold(&self, table: &[u64], number: u32) -> u64
        requires { IsEdgeState self.now }
        ensures { (a : Access) → result ≡ spec.made self.now.block.now (now_in self.now a) (values_of table.now) (RefItem.DecrThreshold number) }
    {
        match self.at(table, number as usize) {
            None => 0,
            Some(at) => at.decr_threshold(item_value(table, RefItem::Field(number))),
        }
    }

    /// Whether the counter of a number leaves its width upwards.
    fn overflow(&self, table: &[u64], number: u32) -> u64
        requires { IsEdgeState self.now }
        ensures { (a : Access) → result ≡ spec.made self.now.block.now (now_in self.now a) (values_of table.now) (RefItem.Overflow number) }
    {
        match self.at(table, number as usize) {
            None => 0,
            Some(at) => at.overflow(),
        }
    }

    /// Whether the counter of a number goes below 0.
    fn underflow(&self, table: &[u64], number: u32) -> u64
        requires { IsEdgeState self.now }
        ensures { (a : Access) → result ≡ spec.made self.now.block.now (now_in self.now a) (values_of table.now) (RefItem.Underflow number) }
    {
        match self.at(table, number as usize) {
            None => 0,
            Some(at) => at.underflow(),
        }
    }

    /// What an item is made of the others' values.
    fn made(&self, table: &[u64], item: RefItem) -> u64
        requires { IsEdgeState self.now }
        ensures { (a : Access) → AreStrobes self.now.block.now a self.now.marks.now
            → result ≡ spec.made self.now.block.now (now_in self.now a) (values_of table.now) item }
    {
        match item {
            RefItem::Field(number) => self.field_value(table, number),
            RefItem::Signal(number) => signal_pin(self.block, self.plan, self.pins, number),
            RefItem::Anded(number) => self.all_ones(table, number),
            RefItem::Ored(number) => u64::from(0 < item_value(table, RefItem::Field(number))),
            RefItem::Xored(number) => {
                u64::from(item_value(table, RefItem::Field(number)).count_ones() % 2)
            }
            RefItem::IncrThreshold(number) => self.incr_threshold(table, number),
            RefItem::DecrThreshold(number) => self.decr_threshold(table, number),
            RefItem::Overflow(number) => self.overflow(table, number),
            RefItem::Underflow(number) => self.underflow(table, number),
            RefItem::SwMod(number) => u64::from(self.mark(number).modified),
            RefItem::SwAcc(number) => u64::from(self.mark(number).accessed),
            RefItem::Intr(number) => u64::from(self.is_raised(table, number, false)),
            RefItem::Halt(number) => u64::from(self.is_raised(table, number, true)),
        }
    }

    /// An item's value, which comes from this source.
    fn drawn(&self, table: &[u64], source: Source, item: RefItem) -> u64
        requires scene { IsEdgeState self.now }
        requires source { IsSourceOf self.now.block.now item source }
        ensures { (a : Access) → AreStrobes self.now.block.now a self.now.marks.now
            → result ≡ spec.made self.now.block.now (now_in self.now a) (values_of table.now) item }
    {
        match source {
            Source::Made => self.made(table, item),
            Source::Held(number) => self.held_value(number),
            Source::Pin(place) => number_at(self.pins, place),
        }
    }

    /// Computes the values of items at their places, each behind those that it refers to. What is in the table of others is no matter.
    pub fn settle(&self, order: &[RefItem], places: &[usize], table: &mut [u64])
        requires scene { IsEdgeState self.now }
        requires sources { AreSources self.now.block.now order.now self.now.sources.now }
        requires ordered { IsOrdered self.now.block.now order.now }
        requires own { (k : ℕ) (i : RefItem) → slice_get order.now k ≡ Some i → Contains (items self.now.block.now) i }
        requires places { places.now ≡ map place_of order.now }
        requires room { (k : ℕ) (i : RefItem) → slice_get order.now k ≡ Some i → place_of i < length table.old }
        ensures { (a : Access) (v : ItemValues) → AreStrobes self.now.block.now a self.now.marks.now → AreItemValues self.now.block.now (now_in self.now a) v
            → (i : RefItem) → Contains order.now i → values_of table.new i ≡ v i }
    {
        for (index, item) in order.iter().enumerate() {
            let value = self.drawn(table, source_at(self.sources, index), *item);
            let place = places[index];
            table[place] = value;
        }
    }
}
