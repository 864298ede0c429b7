//! The nodes of counters (SystemRDL 2.0, 9.8).

use crate::scene::Scene;
use block_plan::PartPlaces;
use net_gates::{choose, number, widened, zero};
use rb_base::NoMemory;
use rb_model::{Amount, Field, Level, Part, RefItem};
use rtl_net::{Id, Netlist};

impl<'a> Scene<'a> {
    ghost use Rattle.std.specs.Prelude.{◌≡◌, ◌<◌, ◌≤◌, ◌==◌, ◌∷◌, [], ℕ, List, Some, IfOk, if◌then◌else◌, slice_get};
    ghost use Rattle.std.specs.Option.{option_map};
    ghost use Rattle.rtl_net.specs.Net.{Grows, IsNode, MayHave, Stands, seen_or_zero};
    ghost use Rattle.rb_model.specs.Items as spec;
    ghost use Rattle.rb_model.specs.References.{WithSome, count_refs, item_width};
    ghost use Rattle.gen_scene.specs.Bases.{IsBase};
    ghost use Rattle.gen_scene.specs.Worth.{IsSeenAs, IsWorth};
    ghost use Rattle.gen_scene.specs.Fields.{CanAmount, CanLevel, CanStep, HasField, HasNodes, high_value, low_value};

    /// The node of an item in a width in bits that is not less than its own.
    fn wide_item(&self, net: &mut Netlist, item: RefItem, width: u8) -> Result<Id, NoMemory>
        requires has { HasNodes net.old self.now (item ∷ []) }
        requires room { item_width self.now.base.now.block.now item ≤ width }
        requires wide { width ≤ 64 }
        ensures older { Grows net.old net.new }
        ensures name { net.new.name ≡ net.old.name }
        ensures worth { IfOk result (λ id. IsWorth self.now.base.now.block.now self.now.base.now.inlet net.new id width (λ n v. v item)) }
    {
        let id = self.node(item);
        widened(net, id, width)
    }

    /// How far a counter of a width in bits counts at a pulse, where the amount's pin stands at a place.
    fn amount(
        &self,
        net: &mut Netlist,
        amount: Amount,
        place: usize,
        width: u8,
    ) -> Result<Id, NoMemory>
        requires wide { (0 < width) × (width ≤ 64) }
        requires base { IsBase net.old self.now.base.now }
        requires can { (name : List ℕ) × CanAmount net.old self.now amount name width place }
        ensures older { Grows net.old net.new }
        ensures name { net.new.name ≡ net.old.name }
        ensures worth { IfOk result (λ id. (name : List ℕ) → CanAmount net.old self.now amount name width place
            → IsWorth self.now.base.now.block.now self.now.base.now.inlet net.new id width (λ n v. spec.amount_value n v amount name)) }
    {
        match amount {
            Amount::Number(value) => number(net, width, u128::from(value)),
            Amount::Item(item) => self.wide_item(net, item, width),
            Amount::Pin(_) => widened(net, self.pin(place), width),
        }
    }

    /// A number of a width in bits where a pulse is 1, else 0.
    fn pulsed(
        &self,
        net: &mut Netlist,
        pulse: Option<Id>,
        amount: Id,
        width: u8,
    ) -> Result<Id, NoMemory>
        requires wide { (0 < width) × (width ≤ 64) }
        requires pulse { MayHave net.old pulse 1 }
        requires amount { Stands net.old amount width }
        ensures older { Grows net.old net.new }
        ensures name { net.new.name ≡ net.old.name }
        ensures node { IfOk result (λ id. IsNode net.new id width (λ x. if seen_or_zero x pulse == 0 then 0 else x.node amount.0)) }
    {
        let none = zero(net, width)?;
        match pulse {
            Some(pulse) => choose(net, pulse, amount, none),
            None => Ok(none),
        }
    }

    /// How far a counter of a width in bits counts in one direction, whose pins stand at these places: 0 where it doesn't count so.
    fn step(
        &self,
        net: &mut Netlist,
        part: Option<Part>,
        places: PartPlaces,
        width: u8,
    ) -> Result<Id, NoMemory>
        requires wide { (0 < width) × (width ≤ 64) }
        requires base { IsBase net.old self.now.base.now }
        requires can { (pulse : List ℕ) × (value : List ℕ) × CanStep net.old self.now part pulse value width places }
        ensures older { Grows net.old net.new }
        ensures name { net.new.name ≡ net.old.name }
        ensures worth { IfOk result (λ id. (pulse value : List ℕ) → CanStep net.old self.now part pulse value width places
            → IsWorth self.now.base.now.block.now self.now.base.now.inlet net.new id width (λ n v. spec.step n v part pulse value)) }
    {
        match part {
            None => zero(net, width),
            Some(part) => {
                let amount = self.amount(net, part.amount, places.amount, width)?;
                let pulse = self.fed(part.pulse, places.pulse);
                self.pulsed(net, pulse, amount, width)
            }
        }
    }

    /// The level of a counter of a width in bits.
    pub(crate) fn level(&self, net: &mut Netlist, level: Level, width: u8) -> Result<Id, NoMemory>
        requires wide { (0 < width) × (width ≤ 64) }
        requires can { CanLevel net.old self.now width level }
        ensures older { Grows net.old net.new }
        ensures name { net.new.name ≡ net.old.name }
        ensures worth { IfOk result (λ id. IsWorth self.now.base.now.block.now self.now.base.now.inlet net.new id width (λ n v. spec.level_value v level)) }
    {
        match level {
            Level::Number(value) => number(net, width, u128::from(value)),
            Level::Item(item) => self.wide_item(net, item, width),
        }
    }

    /// The level of a counter of a width in bits, if there is one.
    fn limit(
        &self,
        net: &mut Netlist,
        level: Option<Level>,
        width: u8,
    ) -> Result<Option<Id>, NoMemory>
        requires wide { (0 < width) × (width ≤ 64) }
        requires can { WithSome level (CanLevel net.old self.now width) }
        ensures older { Grows net.old net.new }
        ensures name { net.new.name ≡ net.old.name }
        ensures worth { IfOk result (λ id. IsSeenAs self.now.base.now.block.now self.now.base.now.inlet net.new id width (λ n v. option_map (spec.level_value v) level)) }
    {
        match level {
            None => Ok(None),
            Some(level) => {
                let id = self.level(net, level, width)?;
                Ok(Some(id))
            }
        }
    }

    /// How far a counter counts up, as wide as the field, where the items that it counts by have their nodes: 0 where it is none.
    pub(crate) fn counted_up(
        &self,
        net: &mut Netlist,
        number: usize,
        field: &Field,
    ) -> Result<Id, NoMemory>
        requires base { IsBase net.old self.now.base.now }
        requires here { slice_get self.now.base.now.block.now.fields number ≡ Some field.now }
        requires refs { HasNodes net.old self.now (count_refs field.now.count) }
        ensures older { Grows net.old net.new }
        ensures name { net.new.name ≡ net.old.name }
        ensures worth { IfOk result (λ id. IsWorth self.now.base.now.block.now self.now.base.now.inlet net.new id field.now.width (λ n v. spec.up n v field.now)) }
    {
        match (field.count, self.places(number)) {
            (Some(count), Some(places)) => self.step(net, count.up, places.up, field.width),
            _ => zero(net, field.width),
        }
    }

    /// How far a counter counts down, likewise.
    pub(crate) fn counted_down(
        &self,
        net: &mut Netlist,
        number: usize,
        field: &Field,
    ) -> Result<Id, NoMemory>
        requires base { IsBase net.old self.now.base.now }
        requires here { slice_get self.now.base.now.block.now.fields number ≡ Some field.now }
        requires refs { HasNodes net.old self.now (count_refs field.now.count) }
        ensures older { Grows net.old net.new }
        ensures name { net.new.name ≡ net.old.name }
        ensures worth { IfOk result (λ id. IsWorth self.now.base.now.block.now self.now.base.now.inlet net.new id field.now.width (λ n v. spec.down n v field.now)) }
    {
        match (field.count, self.places(number)) {
            (Some(count), Some(places)) => self.step(net, count.down, places.down, field.width),
            _ => zero(net, field.width),
        }
    }

    /// How far a counter counts up, as wide as the field: 0 where it is none. The only error is want of memory.
    pub fn up(&self, net: &mut Netlist, number: usize, field: &Field) -> Result<Id, NoMemory>
        requires { HasField net.old self.now number field.now }
        ensures older { Grows net.old net.new }
        ensures name { net.new.name ≡ net.old.name }
        ensures worth { IfOk result (λ id. IsWorth self.now.base.now.block.now self.now.base.now.inlet net.new id field.now.width (λ n v. spec.up n v field.now)) }
    {
        self.counted_up(net, number, field)
    }

    /// How far a counter counts down, as wide as the field: 0 where it is none. The only error is want of memory.
    pub fn down(&self, net: &mut Netlist, number: usize, field: &Field) -> Result<Id, NoMemory>
        requires { HasField net.old self.now number field.now }
        ensures older { Grows net.old net.new }
        ensures name { net.new.name ≡ net.old.name }
        ensures worth { IfOk result (λ id. IsWorth self.now.base.now.block.now self.now.base.now.inlet net.new id field.now.width (λ n v. spec.down n v field.now)) }
    {
        self.counted_down(net, number, field)
    }

    /// The level at which a counter saturates upwards, as wide as the field, if there is one. The only error is want of memory.
    pub fn high(
        &self,
        net: &mut Netlist,
        number: usize,
        field: &Field,
    ) -> Result<Option<Id>, NoMemory>
        requires { HasField net.old self.now number field.now }
        ensures older { Grows net.old net.new }
        ensures name { net.new.name ≡ net.old.name }
        ensures worth { IfOk result (λ id. IsSeenAs self.now.base.now.block.now self.now.base.now.inlet net.new id field.now.width (λ n v. high_value v field.now)) }
    {
        match field.count {
            Some(count) => self.limit(net, count.high, field.width),
            None => Ok(None),
        }
    }

    /// The level at which a counter saturates downwards, as wide as the field, if there is one. The only error is want of memory.
    pub fn low(
        &self,
        net: &mut Netlist,
        number: usize,
        field: &Field,
    ) -> Result<Option<Id>, NoMemory>
        requires { HasField net.old self.now number field.now }
        ensures older { Grows net.old net.new }
        ensures name { net.new.name ≡ net.old.name }
        ensures worth { IfOk result (λ id. IsSeenAs self.now.base.now.block.now self.now.base.now.inlet net.new id field.now.width (λ n v. low_value v field.now)) }
    {
        match field.count {
            Some(count) => self.limit(net, count.low, field.width),
            None => Ok(None),
        }
    }
}
