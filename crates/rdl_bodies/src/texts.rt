//! The texts of bodies, each once.

ghost use Rattle.std.specs.Prelude.{◌≡◌, Some, true};

use crate::bodies::{Bodies, Text, TextPlace};
use crate::opening::first_of;
use crate::sparing::push_sparing;
use crate::steady::are_fixed;
use bumpalo::Bump;
use rb_base::NoMemory;
use rdl_failures::Failures;
use rdl_scopes::{ClosedEnums, Components, defaults_among, judge_names};
use rdl_tree::{Item, Param};
use std::alloc::Global;

// Whether a text stands at a place.
fn is_at(text: &Text<'_>, at: &TextPlace) -> bool
    ensures { result ≡ true → text.now.place ≡ Some at.now }
{
    match text.place {
        Some(place) => place.outer == at.outer && place.upto == at.upto,
        None => false,
    }
}

impl<'s, 'a> Bodies<'s, 'a> {
    ghost use Rattle.std.specs.Prelude.{◌≡◌, ◌∷◌, ◌++◌, [], IfOk, IfSome, OnOk, Some, length, slice_get};
    ghost use Rattle.rdl_bodies.specs.Kept.{AreKept};
    ghost use Rattle.rdl_bodies.specs.Texts.{HasText, IsPlaced, place_in};
    ghost use Rattle.rdl_bodies.specs.declared.bodies.Text.{Text as AnyText};
    ghost use Rattle.rdl_bodies.specs.declared.bodies.TextPlace.{TextPlace as AnyPlace};

    /// Where the text of a definition stands that is in these bodies, behind so many items of each.
    pub(crate) fn text_place(&self, outer: &[usize], uptos: &[usize]) -> Option<TextPlace>
        ensures { result ≡ place_in self.now outer.now uptos.now }
    {
        let Some(nearest) = first_of(outer) else {
            return None;
        };
        let Some(upto) = first_of(uptos) else {
            return None;
        };
        let Some(body) = self.body(nearest) else {
            return None;
        };
        Some(TextPlace {
            outer: body.text,
            upto,
        })
    }

    // The number of the text at a place, if it is known.
    fn find_text(&self, at: &TextPlace) -> Option<usize>
        ensures { IfSome result (λ k. (x : AnyText) × (slice_get self.now.texts.items k ≡ Some x) × (x.place ≡ Some at.now)) }
    {
        let number = self.text_numbers.get(at.outer, at.upto)?;
        match self.texts.get(number) {
            Some(text) if is_at(text, at) => Some(number),
            _ => None,
        }
    }

    // The same where there may be no place.
    fn find_text_at(&self, at: &Option<TextPlace>) -> Option<usize>
        ensures { IfSome result (λ k. (x : AnyText) × (p : AnyPlace) × (slice_get self.now.texts.items k ≡ Some x) × (at.now ≡ Some p) × (x.place ≡ Some p)) }
    {
        match at {
            Some(at) => self.find_text(at),
            None => None,
        }
    }

    // Notes which text to try for a place.
    fn note_text(&mut self, at: &Option<TextPlace>, number: usize) -> Result<(), NoMemory>
        ensures tables { self.new.tables ≡ self.old.tables }
        ensures components { self.new.components ≡ self.old.components }
        ensures list { self.new.list ≡ self.old.list }
        ensures sites { self.new.sites ≡ self.old.sites }
        ensures texts { self.new.texts ≡ self.old.texts }
    {
        if let Some(at) = at {
            self.text_numbers.note(at.outer, at.upto, number)?;
        }
        Ok(())
    }

    // Puts a text behind the others.
    fn push_text(&mut self, text: Text<'a>) -> Result<usize, NoMemory>
        ensures tables { self.new.tables ≡ self.old.tables }
        ensures components { self.new.components ≡ self.old.components }
        ensures list { self.new.list ≡ self.old.list }
        ensures sites { self.new.sites ≡ self.old.sites }
        ensures texts { OnOk result (self.new.texts.items ≡ self.old.texts.items ++ (text.entry ∷ [])) }
        ensures number { IfOk result (λ k. k ≡ length self.old.texts.items) }
    {
        let number = self.texts.len();
        self.note_text(&text.place, number)?;
        push_sparing(&mut self.texts, text)?;
        Ok(number)
    }

    /// The number of the text of a definition with these items and parameters at a place: one that is known, or else a new one, of which names
    /// that are defined twice and closed enumerations are judged, and the definitions and their parameters read.
    pub(crate) fn text_at(
        &mut self,
        alloc: Global,
        arena: &'a Bump,
        place: Option<TextPlace>,
        items: &'a [Item<'a>],
        params: &'a [Param<'a>],
        failures: &mut Failures,
    ) -> Result<usize, NoMemory>
        requires kept { AreKept self.old failures.old }
        requires placed { IsPlaced self.old place items.now params.now }
        ensures { IfOk result (HasText self.old self.new failures.old failures.new place items.now params.now) }
    {
        if let Some(number) = self.find_text_at(&place) {
            return Ok(number);
        }
        judge_names(alloc, items, failures)?;
        let closed = ClosedEnums::of(alloc, arena, items, failures)?;
        let defaults = defaults_among(alloc, items)?;
        let components = Components::of(alloc, items, defaults)?;
        self.push_text(Text {
            place,
            items,
            params,
            steady: are_fixed(items),
            closed,
            components,
        })
    }
}
