//! What a field finds at an edge, and what hardware makes of it.
ghost use Rattle.std.specs.Prelude.{◌≡◌, ◌≤◌, ℕ, List, Some, None, slice_index};
ghost use Rattle.std.specs.Option.{option_map};
ghost use Rattle.rb_model.specs.Items as spec;
ghost use Rattle.rb_model.specs.Items.{Now};
ghost use Rattle.rb_machine.specs.Table.{values_of};
ghost use Rattle.rb_machine.specs.Sight.{GateSees};

use crate::table::{item_value, number_at};
use block_plan::FieldPlaces;
use rb_effects::{
    counted, counting, finished, is_interrupt, is_on, latched, loaded, overflows, underflows,
};
use rb_model::{Amount, Class, Feed, Field, Gate, Level, Mask, Part, RefItem};

/// What a field keeps from one edge to the next: its value, its last input, and 1 where it was written, else 0.
#[derive(Clone, Copy)]
pub(crate) struct FieldState {
    pub value: u64,
    pub last: u64,
    pub done: u64,
}

/// A field at an edge, with the pins, the values of the items, and what it keeps.
#[derive(Clone, Copy)]
pub(crate) struct FieldNow<'a> {
    pub field: &'a Field,
    pub places: &'a FieldPlaces,
    pub pins: &'a [u64],
    pub table: &'a [u64],
    pub state: FieldState,
}

/// What a feed gives, whose pin has this number.
fn fed(from: Feed, pin: u64, table: &[u64]) -> u64
    ensures { (n : Now) (name : List ℕ) → n.pins name ≡ pin → result ≡ spec.fed n (values_of table.now) from name }
{
    match from {
        Feed::Off => 0,
        Feed::Pin => pin,
        Feed::Item(item) => item_value(table, item),
    }
}

/// The value at a gate, whose pin has this number.
pub(crate) fn gated(gate: Gate, pin: u64, table: &[u64]) -> u64
    ensures { (n : Now) (high low path : List ℕ) → GateSees n gate high low path pin
        → result ≡ spec.gated n (values_of table.now) gate high low path }
{
    match gate {
        Gate::Always => 0,
        Gate::High(from) => fed(from, pin, table),
        Gate::Low(from) => fed(from, pin, table),
    }
}

/// The value of a mask's item.
pub(crate) fn mask_value(mask: Mask, table: &[u64]) -> u64
    ensures { result ≡ spec.mask_value (values_of table.now) mask }
{
    match mask {
        Mask::Off => 0,
        Mask::Enable(item) => item_value(table, item),
        Mask::Mask(item) => item_value(table, item),
    }
}

/// The number of a level.
fn level_value(level: Level, table: &[u64]) -> u64
    ensures { result ≡ spec.level_value (values_of table.now) level }
{
    match level {
        Level::Number(number) => number,
        Level::Item(item) => item_value(table, item),
    }
}

/// The number of a level, if there is one.
fn some_level(level: Option<Level>, table: &[u64]) -> Option<u64>
    ensures { result ≡ option_map (spec.level_value (values_of table.now)) level }
{
    match level {
        None => None,
        Some(level) => Some(level_value(level, table)),
    }
}

/// How far a counter counts at a pulse, where the amount's pin has this number.
fn amount_value(amount: Amount, pin: u64, table: &[u64]) -> u64
    ensures { (n : Now) (name : List ℕ) → n.pins name ≡ pin → result ≡ spec.amount_value n (values_of table.now) amount name }
{
    match amount {
        Amount::Number(number) => number,
        Amount::Item(item) => item_value(table, item),
        Amount::Pin(_) => pin,
    }
}

/// How far a counter counts in one direction, where the pins of its pulse and its amount have these numbers.
fn step(part: Option<Part>, pulse: u64, amount: u64, table: &[u64]) -> u64
    ensures { (n : Now) (pulse_name amount_name : List ℕ) → n.pins pulse_name ≡ pulse → n.pins amount_name ≡ amount
        → result ≡ spec.step n (values_of table.now) part pulse_name amount_name }
{
    match part {
        None => 0,
        Some(part) => {
            if fed(part.pulse, pulse, table) == 0 {
                0
            } else {
                amount_value(part.amount, amount, table)
            }
        }
    }
}

impl<'a> FieldNow<'a> {
    ghost use Rattle.std.specs.Prelude.{◌≡◌, ◌≤◌, ℕ, nat_le};
    ghost use Rattle.std.specs.Option.{option_map_or};
    ghost use Rattle.v_design.specs.Expr.{bit_of};
    ghost use Rattle.rb_model.specs.Items as spec;
    ghost use Rattle.rb_model.specs.Items.{Now};
    ghost use Rattle.rb_model.specs.Effects as effects;
    ghost use Rattle.rb_model.specs.Kept.{Val};
    ghost use Rattle.rb_model.specs.Machine as machine;
    ghost use Rattle.rb_machine.specs.Table.{values_of};
    ghost use Rattle.rb_machine.specs.Moves as moves;
    ghost use Rattle.rb_machine.specs.Scene.{raises_line};
    ghost use Rattle.rb_machine.specs.Sight.{Sees};

    /// The number of the pin at a place.
    fn pin(&self, place: usize) -> u64
        ensures { result ≡ slice_index self.now.pins.now place }
    {
        number_at(self.pins, place)
    }

    /// The number that the field loads, and an interrupt's input.
    pub fn source_value(&self) -> u64
        ensures { (n : Now) (k : ℕ) → Sees n k self.now → result ≡ spec.source_value n (values_of self.now.table.now) self.now.field.now }
    {
        fed(self.field.source, self.pin(self.places.source), self.table)
    }

    /// How far a counter counts up.
    fn up(&self) -> u64
        ensures { (n : Now) (k : ℕ) → Sees n k self.now → result ≡ spec.up n (values_of self.now.table.now) self.now.field.now }
    {
        match self.field.count {
            None => 0,
            Some(count) => {
                let pulse = self.pin(self.places.up.pulse);
                let amount = self.pin(self.places.up.amount);
                step(count.up, pulse, amount, self.table)
            }
        }
    }

    /// How far a counter counts down.
    fn down(&self) -> u64
        ensures { (n : Now) (k : ℕ) → Sees n k self.now → result ≡ spec.down n (values_of self.now.table.now) self.now.field.now }
    {
        match self.field.count {
            None => 0,
            Some(count) => {
                let pulse = self.pin(self.places.down.pulse);
                let amount = self.pin(self.places.down.amount);
                step(count.down, pulse, amount, self.table)
            }
        }
    }

    /// The value that the field has at the edge.
    pub fn class_value(&self) -> u64
        ensures { (n : Now) (k : ℕ) → Sees n k self.now
            → result ≡ spec.class_value n (values_of self.now.table.now) self.now.field.now.class k self.now.field.now }
    {
        match self.field.class {
            Class::Storage => self.state.value,
            Class::Wire => self.source_value(),
            Class::Constant => self.field.reset.unwrap_or(0),
        }
    }

    /// Whether the count leaves the field's width upwards.
    pub fn overflow(&self) -> u64
        requires { self.now.field.now.width ≤ 64 }
        ensures { (n : Now) (k : ℕ) → Sees n k self.now → result ≡ effects.overflows self.now.field.now.width (n.kept (Val k))
            (spec.up n (values_of self.now.table.now) self.now.field.now) (spec.down n (values_of self.now.table.now) self.now.field.now) }
    {
        overflows(self.field.width, self.state.value, self.up(), self.down())
    }

    /// Whether the count goes below 0.
    pub fn underflow(&self) -> u64
        ensures { (n : Now) (k : ℕ) → Sees n k self.now → result ≡ effects.underflows (n.kept (Val k))
            (spec.up n (values_of self.now.table.now) self.now.field.now) (spec.down n (values_of self.now.table.now) self.now.field.now) }
    {
        underflows(self.state.value, self.up(), self.down())
    }

    /// Whether this value has reached the threshold above.
    pub fn incr_threshold(&self, value: u64) -> u64
        ensures { result ≡ option_map_or (λ c. bit_of (nat_le (spec.level_value (values_of self.now.table.now) c.above) value)) self.now.field.now.count 0 }
    {
        match self.field.count {
            None => 0,
            Some(count) => u64::from(level_value(count.above, self.table) <= value),
        }
    }

    /// Whether this value has reached the threshold below.
    pub fn decr_threshold(&self, value: u64) -> u64
        ensures { result ≡ option_map_or (λ c. bit_of (nat_le value (spec.level_value (values_of self.now.table.now) c.below))) self.now.field.now.count 0 }
    {
        match self.field.count {
            None => 0,
            Some(count) => u64::from(value <= level_value(count.below, self.table)),
        }
    }

    /// Whether the field, which has this value, raises the line intr of a register, or its line halt.
    pub fn raises(&self, value: u64, reg: u32, halt: bool) -> bool
        requires { self.now.field.now.width ≤ 64 }
        ensures { (k : ℕ) → value ≡ values_of self.now.table.now (RefItem.Field k)
            → result ≡ raises_line (values_of self.now.table.now) halt reg (k, self.now.field.now) }
    {
        let field = self.field;
        let mask = if halt { field.halt } else { field.enable };
        let bits = mask_value(mask, self.table);
        (!halt || is_on(mask))
            && is_interrupt(field.latch)
            && field.reg == reg
            && 0 < counting(mask, field.width, value, bits)
    }

    /// What the count makes of a value.
    fn counts(&self, value: u64) -> u64
        requires { self.now.field.now.width ≤ 64 }
        ensures { (n : Now) (k : ℕ) → Sees n k self.now → result ≡ machine.counts n (values_of self.now.table.now) self.now.field.now value }
    {
        match self.field.count {
            None => value,
            Some(count) => {
                let high = some_level(count.high, self.table);
                let low = some_level(count.low, self.table);
                counted(self.field.width, value, self.up(), self.down(), high, low)
            }
        }
    }

    /// What hardware makes of a value: the load, the count, the latch, hwset, hwclr and the mask, in turn.
    pub fn hardware(&self, value: u64) -> u64
        requires { self.now.field.now.width ≤ 64 }
        ensures { (n : Now) (k : ℕ) → Sees n k self.now
            → result ≡ machine.hardware n (values_of self.now.table.now) k self.now.field.now value }
    {
        let field = self.field;
        let source = self.source_value();
        let gate = gated(field.gate, self.pin(self.places.gate), self.table);
        let after_load = loaded(field, value, source, gate);
        let after_count = self.counts(after_load);
        let after_latch = latched(
            field.latch,
            field.width,
            after_count,
            source,
            self.state.last,
        );
        let set = fed(field.set, self.pin(self.places.set), self.table);
        let clear = fed(field.clear, self.pin(self.places.clear), self.table);
        let bits = mask_value(field.keep, self.table);
        finished(field, value, after_latch, set, clear, bits)
    }

    /// What the field has before software: its value, or what hardware makes of it where software comes last.
    pub fn started(&self) -> FieldState
        requires { self.now.field.now.width ≤ 64 }
        ensures { (n : Now) (k : ℕ) → Sees n k self.now → result ≡ moves.started_state n (values_of self.now.table.now) k self.now.field.now self.now.state }
    {
        FieldState {
            value: if self.field.hw_first {
                self.state.value
            } else {
                self.hardware(self.state.value)
            },
            last: self.source_value(),
            done: self.state.done,
        }
    }

    /// What is made of what software left, where hardware comes last.
    pub fn ended(&self, state: FieldState) -> FieldState
        requires { self.now.field.now.width ≤ 64 }
        ensures { (n : Now) (k : ℕ) → Sees n k self.now → result ≡ moves.ended_state n (values_of self.now.table.now) k self.now.field.now state }
    {
        FieldState {
            value: if self.field.hw_first {
                self.hardware(state.value)
            } else {
                state.value
            },
            last: state.last,
            done: state.done,
        }
    }
}
