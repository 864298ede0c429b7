//! The nodes that all others are made of.

ghost use Rattle.std.specs.Prelude.{◌≡◌, ◌<◌, Some, length, slice_get};

use crate::resets::reset_id;
use block_plan::{FieldKept, Plan};
use net_gates::opposite;
use rb_base::NoMemory;
use rb_model::{Block, Field, Signal};
use rtl_net::{Id, Netlist};

/// The nodes that say what software does at an edge: whether it accesses a word, whether it writes it, of one bit each, the
/// number of the word among those that are read or written, of 16 bits, and the bits that it writes, of 32.
#[derive(Clone, Copy, Debug, PartialEq, Eq)]
pub struct Inlet {
    pub valid: Id,
    pub write: Id,
    pub word: Id,
    pub bits: Id,
}

/// A block and its plan, with the nodes of its access, of its input pins, and of the registers of what its fields keep, in the
/// orders of the plan.
#[derive(Clone, Copy)]
pub struct Base<'a> {
    pub block: &'a Block,
    pub plan: &'a Plan,
    pub inlet: Inlet,
    pub pins: &'a [Id],
    pub kept: &'a [Id],
}

/// The node at a place of a table, if there is one.
pub(crate) fn id_at(ids: &[Id], place: usize) -> Option<Id>
    ensures { result ≡ slice_get ids.now place }
{
    ids.get(place).copied()
}

/// The field of a number.
pub(crate) fn field_at(block: &Block, number: usize) -> &Field
    requires { number < length block.now.fields }
    ensures { slice_get block.now.fields number ≡ Some result.now }
{
    &block.fields.items[number]
}

/// The signal of a number.
pub(crate) fn signal_at(block: &Block, number: usize) -> &Signal
    requires { number < length block.now.signals }
    ensures { slice_get block.now.signals number ≡ Some result.now }
{
    &block.signals.items[number]
}

impl<'a> Base<'a> {
    ghost use Rattle.std.specs.Prelude.{◌≡◌, ◌<◌, Bool, Some, IfOk, length, slice_get, if◌then◌else◌};
    ghost use Rattle.rtl_net.specs.Value.{bit_of};
    ghost use Rattle.rtl_net.specs.Net.{Net, Grows};
    ghost use Rattle.rb_model.specs.declared.block.Field.{Field};
    ghost use Rattle.rb_model.specs.Kept.{Kept, Val, Last, Done, is_storage, keeps_last, register_width, field_kept};
    ghost use Rattle.block_plan.specs.Kept.{IsKeptAt};
    ghost use Rattle.rb_model.specs.Machine.{is_asserted};
    ghost use Rattle.gen_scene.specs.Worth.{IsWorth, MayBeWorth};
    ghost use Rattle.gen_scene.specs.Bases.{IsBase};

    /// The register at a place among what the fields keep, if there is one.
    fn register(&self, place: Option<usize>) -> Option<Id>
        ensures { (net : Net) (is_kept : Bool) (k : Kept) → IsBase net self.now → IsKeptAt (field_kept self.now.block.now) is_kept k place
            → MayBeWorth self.now.block.now self.now.inlet net result (register_width self.now.block.now k) (λ n v. if is_kept then n.kept k else 0) }
    {
        match place {
            Some(place) => id_at(self.kept, place),
            None => None,
        }
    }

    /// The places of what the field of a number keeps.
    fn places(&self, number: usize) -> Option<FieldKept>
        ensures { result ≡ slice_get self.now.plan.now.kept.of.items number }
    {
        self.plan.kept.of.get(number).copied()
    }

    /// The register of the value of the field of a number, if the field keeps it.
    pub fn value(&self, number: usize) -> Option<Id>
        ensures { (net : Net) (f : Field) → IsBase net self.now → slice_get self.now.block.now.fields number ≡ Some f
            → MayBeWorth self.now.block.now self.now.inlet net result f.width (λ n v. if is_storage f.class then n.kept (Val number) else 0) }
    {
        match self.places(number) {
            Some(places) => self.register(places.value),
            None => None,
        }
    }

    /// The register of the last input of the interrupt of a number, if the field keeps it.
    pub fn last(&self, number: usize) -> Option<Id>
        ensures { (net : Net) (f : Field) → IsBase net self.now → slice_get self.now.block.now.fields number ≡ Some f
            → MayBeWorth self.now.block.now self.now.inlet net result f.width (λ n v. if keeps_last f.latch then n.kept (Last number) else 0) }
    {
        match self.places(number) {
            Some(places) => self.register(places.last),
            None => None,
        }
    }

    /// The register, of one bit, that says that software wrote the field of a number, if the field keeps it.
    pub fn done(&self, number: usize) -> Option<Id>
        ensures { (net : Net) (f : Field) → IsBase net self.now → slice_get self.now.block.now.fields number ≡ Some f
            → MayBeWorth self.now.block.now self.now.inlet net result 1 (λ n v. if f.once then n.kept (Done number) else 0) }
    {
        match self.places(number) {
            Some(places) => self.register(places.done),
            None => None,
        }
    }

    /// Whether the reset of the field of a number is asserted, of one bit. The only error is want of memory.
    pub fn asserted(&self, net: &mut Netlist, number: usize) -> Result<Id, NoMemory>
        requires base { IsBase net.old self.now }
        requires field { number < length self.now.block.now.fields }
        ensures older { Grows net.old net.new }
        ensures name { net.new.name ≡ net.old.name }
        ensures worth { IfOk result (λ id. (f : Field) → slice_get self.now.block.now.fields number ≡ Some f
            → IsWorth self.now.block.now self.now.inlet net.new id 1 (λ n v. bit_of (is_asserted self.now.block.now n.pins f.reset_by))) }
    {
        let by = field_at(self.block, number).reset_by;
        let pin = reset_id(self.plan, self.pins, by);
        if by.low { opposite(net, pin) } else { Ok(pin) }
    }
}
