//! The nodes that the behaviour of fields and views refers to.

use crate::base::{Base, id_at};
use block_plan::{FieldPlaces, item_place};
use rb_model::{Feed, Field, Gate, Mask, RefItem, View};
use rtl_net::Id;

/// What a netlist has of a block: its base, and the nodes of its items by their places.
///
/// A field is given with its number, and so is a view. Widths are in bits. A node that isn't there has the value 0.
#[derive(Clone, Copy)]
pub struct Scene<'a> {
    pub base: &'a Base<'a>,
    pub items: &'a [Id],
}

impl<'a> Scene<'a> {
    ghost use Rattle.std.specs.Prelude.{◌≡◌, ◌<◌, ◌++◌, ℕ, Some, codes, length, slice_get};
    ghost use Rattle.rtl_net.specs.Net.{Net};
    ghost use Rattle.rtl_net.specs.Ids.{at};
    ghost use Rattle.gen_scene.specs.Bases.{IsBase};
    ghost use Rattle.rb_model.specs.declared.block.Signal.{Signal};
    ghost use Rattle.rb_model.specs.Ports.{signal_name};
    ghost use Rattle.rb_model.specs.References.{feed_refs};
    ghost use Rattle.rb_model.specs.Items as spec;
    ghost use Rattle.rb_model.specs.Machine as machine;
    ghost use Rattle.block_plan.specs.Table as places;
    ghost use Rattle.gen_scene.specs.Worth.{MayBeWorth};
    ghost use Rattle.gen_scene.specs.Fields.{HasField, HasNodes, HasView, fed_node, gated_node, item_node, mask_node};

    /// The node of an item that has one.
    pub fn node(&self, item: RefItem) -> Id
        requires { places.item_place item < length self.now.items.now }
        ensures { result ≡ at self.now.items.now (places.item_place item) }
    {
        self.items[item_place(item)]
    }

    /// The node of the pin at a place.
    pub(crate) fn pin(&self, place: usize) -> Id
        requires { place < length self.now.base.now.pins.now }
        ensures { result ≡ at self.now.base.now.pins.now place }
    {
        self.base.pins[place]
    }

    /// The node of an item, if it has one.
    pub(crate) fn item(&self, item: RefItem) -> Option<Id>
        ensures { result ≡ item_node self.now item }
    {
        id_at(self.items, item_place(item))
    }

    /// The node of a feed, whose pin stands at a place.
    pub(crate) fn fed(&self, from: Feed, place: usize) -> Option<Id>
        ensures { result ≡ fed_node self.now from place }
    {
        match from {
            Feed::Off => None,
            Feed::Pin => id_at(self.base.pins, place),
            Feed::Item(item) => self.item(item),
        }
    }

    /// The node at a gate, whose pin stands at a place.
    fn gated(&self, gate: Gate, place: usize) -> Option<Id>
        ensures { result ≡ gated_node self.now gate place }
    {
        match gate {
            Gate::Always => None,
            Gate::High(from) => self.fed(from, place),
            Gate::Low(from) => self.fed(from, place),
        }
    }

    /// The node of a mask.
    pub(crate) fn mask(&self, mask: Mask) -> Option<Id>
        ensures { result ≡ mask_node self.now mask }
    {
        match mask {
            Mask::Off => None,
            Mask::Enable(item) => self.item(item),
            Mask::Mask(item) => self.item(item),
        }
    }

    /// The places of the pins of the field of a number.
    pub(crate) fn places(&self, number: usize) -> Option<FieldPlaces>
        ensures { result ≡ slice_get self.now.base.now.plan.now.fields.items number }
    {
        self.base.plan.fields.get(number).copied()
    }

    /// The place of the pin of a signal.
    fn signal_place(&self, number: usize) -> Option<usize>
        ensures { result ≡ slice_get self.now.base.now.plan.now.signals.items number }
    {
        self.base.plan.signals.get(number).copied()
    }

    /// The pin of the signal of a number.
    pub(crate) fn signal(&self, number: usize) -> Option<Id>
        ensures { (net : Net) (g : Signal) → IsBase net self.now.base.now → slice_get self.now.base.now.block.now.signals number ≡ Some g
            → MayBeWorth self.now.base.now.block.now self.now.base.now.inlet net result g.width (λ n v. n.pins (signal_name g)) }
    {
        match self.signal_place(number) {
            Some(place) => id_at(self.base.pins, place),
            None => None,
        }
    }

    /// The number that a field's source gives, where an item that it refers to has its node. It is as wide as the field.
    pub(crate) fn given(&self, number: usize, field: &Field) -> Option<Id>
        ensures { (net : Net) → IsBase net self.now.base.now → slice_get self.now.base.now.block.now.fields number ≡ Some field.now → HasNodes net self.now (feed_refs field.now.source)
            → MayBeWorth self.now.base.now.block.now self.now.base.now.inlet net result field.now.width (λ n v. spec.source_value n v field.now) }
    {
        match self.places(number) {
            Some(places) => self.fed(field.source, places.source),
            None => None,
        }
    }

    /// The number that a field loads, and an interrupt's input. It is as wide as the field.
    pub fn source(&self, number: usize, field: &Field) -> Option<Id>
        ensures { (net : Net) → HasField net self.now number field.now
            → MayBeWorth self.now.base.now.block.now self.now.base.now.inlet net result field.now.width (λ n v. spec.source_value n v field.now) }
    {
        self.given(number, field)
    }

    /// The gate of a field's load, of one bit.
    pub fn gate(&self, number: usize, field: &Field) -> Option<Id>
        ensures { (net : Net) → HasField net self.now number field.now
            → MayBeWorth self.now.base.now.block.now self.now.base.now.inlet net result 1
            (λ n v. spec.gated n v field.now.gate (codes "we$") (codes "wel$") field.now.path) }
    {
        match self.places(number) {
            Some(places) => self.gated(field.gate, places.gate),
            None => None,
        }
    }

    /// hwset of a field, of one bit.
    pub fn set(&self, number: usize, field: &Field) -> Option<Id>
        ensures { (net : Net) → HasField net self.now number field.now
            → MayBeWorth self.now.base.now.block.now self.now.base.now.inlet net result 1 (λ n v. spec.fed n v field.now.set (codes "hwset$" ++ field.now.path)) }
    {
        match self.places(number) {
            Some(places) => self.fed(field.set, places.set),
            None => None,
        }
    }

    /// hwclr of a field, of one bit.
    pub fn clear(&self, number: usize, field: &Field) -> Option<Id>
        ensures { (net : Net) → HasField net self.now number field.now
            → MayBeWorth self.now.base.now.block.now self.now.base.now.inlet net result 1 (λ n v. spec.fed n v field.now.clear (codes "hwclr$" ++ field.now.path)) }
    {
        match self.places(number) {
            Some(places) => self.fed(field.clear, places.clear),
            None => None,
        }
    }

    /// hwenable or hwmask of the field of a number. It is as wide as the field.
    pub fn keep(&self, field: &Field) -> Option<Id>
        ensures { (net : Net) (number : ℕ) → HasField net self.now number field.now
            → MayBeWorth self.now.base.now.block.now self.now.base.now.inlet net result field.now.width (λ n v. spec.mask_value v field.now.keep) }
    {
        self.mask(field.keep)
    }

    /// The place of the pin of a view's gate.
    fn view_place(&self, number: usize) -> Option<usize>
        ensures { result ≡ slice_get self.now.base.now.plan.now.gates.items number }
    {
        self.base.plan.gates.get(number).copied()
    }

    /// The gate of a view's writes, of one bit.
    pub fn view_gate(&self, number: usize, view: &View) -> Option<Id>
        ensures { (net : Net) → HasView net self.now number view.now
            → MayBeWorth self.now.base.now.block.now self.now.base.now.inlet net result 1 (λ n v. machine.view_gate n v view.now) }
    {
        match self.view_place(number) {
            Some(place) => self.gated(view.gate, place),
            None => None,
        }
    }
}
